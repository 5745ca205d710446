//! What the definitions in `specs/` say of worked examples. The functions have no bodies: each stands for its clauses, and the examples
//! are in `specs/Examples.antt`.

ghost use Rattle.std.specs.Prelude.{◌≡◌, ℕ, List, [], ◌∷◌, Some};
ghost use Rattle.jk_model.specs.declared.identifiers.ClassId.{ClassId};
ghost use Rattle.jk_model.specs.declared.values.Value.TheVariants as Held;
ghost use Rattle.jk_model_frames.specs.Frames.{FrameState};
ghost use Rattle.jk_model_domains.specs.declared.states.ClassState.TheVariants as State;
ghost use Rattle.jk_model_domains.specs.NumberRows.{ARITHMETIC_EXCEPTION};
ghost use Rattle.jk_model_domains.specs.Objects.{NamedObject};
ghost use Rattle.jk_model_heaps.specs.declared.shapes.Unwound.TheVariants as Ended;
ghost use Rattle.jk_model_heaps.specs.SystemClasses.{EXCEPTION_IN_INITIALIZER_ERROR, OUT_OF_MEMORY_ERROR, STACK_OVERFLOW_ERROR};
ghost use Rattle.jk_model_heaps.specs.Workings.{Setting};
ghost use Rattle.jk_model_unwinding.specs.Examples.{MINE, domain, frame, initialiser, lower_initialiser, setting, standing_domain, thrown, two_classes};
ghost use Rattle.jk_model_unwinding.specs.Unwinding.{CatchesNot, LeavesFrame, Unwinds};

/// Of two handlers that cover the place the first in order catches, and not the one of the closer class.
pub fn first_handler_in_order_catches()
    ensures { Unwinds (setting 64)
        (record { inside = domain State.Done (thrown 1 ARITHMETIC_EXCEPTION ∷ []); frames = frame 0 0 [] ∷ [] }) 1 Ended.Caught
        (record { inside = domain State.Done (thrown 1 ARITHMETIC_EXCEPTION ∷ []); frames = frame 0 1 (Held.Obj 1 ∷ []) ∷ [] }) }
{}

/// A handler of an interface catches what implements it, and nothing else: classes of interfaces aren't read as java/lang/Object here.
pub fn interface_catches()
    ensures caught { Unwinds (setting 64)
        (record { inside = domain State.Done (thrown 1 MINE ∷ []); frames = frame 2 0 [] ∷ [] }) 1 Ended.Caught
        (record { inside = domain State.Done (thrown 1 MINE ∷ []); frames = frame 2 1 (Held.Obj 1 ∷ []) ∷ [] }) }
    ensures no_other { CatchesNot (setting 64) (thrown 1 ARITHMETIC_EXCEPTION ∷ []) (frame 2 0 []) 1 }
    ensures uncaught { Unwinds (setting 64)
        (record { inside = domain State.Done (thrown 1 ARITHMETIC_EXCEPTION ∷ []); frames = frame 2 0 [] ∷ [] }) 1 (Ended.Uncaught 1)
        (record { inside = domain State.Done (thrown 1 ARITHMETIC_EXCEPTION ∷ []); frames = [] }) }
{}

/// A handler without a class catches any throwable that no handler before it catches.
pub fn handler_of_any_catches()
    ensures other { Unwinds (setting 64)
        (record { inside = domain State.Done (thrown 1 ARITHMETIC_EXCEPTION ∷ []); frames = frame 3 0 [] ∷ [] }) 1 Ended.Caught
        (record { inside = domain State.Done (thrown 1 ARITHMETIC_EXCEPTION ∷ []); frames = frame 3 2 (Held.Obj 1 ∷ []) ∷ [] }) }
    ensures first { Unwinds (setting 64)
        (record { inside = domain State.Done (thrown 1 MINE ∷ []); frames = frame 3 0 [] ∷ [] }) 1 Ended.Caught
        (record { inside = domain State.Done (thrown 1 MINE ∷ []); frames = frame 3 1 (Held.Obj 1 ∷ []) ∷ [] }) }
{}

/// Of three frames the topmost one doesn't catch, the one below it does, and the lowest one, which would catch too, stays as it is. What the
/// catching frame had on its stack is gone.
pub fn topmost_frame_that_catches()
    ensures { Unwinds (setting 64)
        (record {
          inside = domain State.Done (thrown 1 ARITHMETIC_EXCEPTION ∷ []);
          frames = frame 0 0 (Held.Null ∷ []) ∷ frame 0 0 (Held.Null ∷ []) ∷ frame 0 1 (Held.Null ∷ []) ∷ [];
        })
        1 Ended.Caught
        (record {
          inside = domain State.Done (thrown 1 ARITHMETIC_EXCEPTION ∷ []);
          frames = frame 0 0 (Held.Null ∷ []) ∷ frame 0 1 (Held.Obj 1 ∷ []) ∷ [];
        }) }
{}

/// A handler doesn't cover the place at which it ends.
pub fn end_of_a_handler_is_not_covered()
    ensures { CatchesNot (setting 64) (thrown 1 ARITHMETIC_EXCEPTION ∷ []) (frame 0 1 []) 1 }
{}

/// A frame whose need stands catches nothing.
pub fn frame_with_a_need_catches_nothing()
    ensures { (x : Setting) (heap : List NamedObject) (f : FrameState) (a : ℕ) (c : ClassId) → f.head.need ≡ Some c → CatchesNot x heap f a }
{}

/// An exception leaves the initialiser of a class: the class is broken, and the frame below, which made the class needed, catches a new
/// ExceptionInInitializerError, for which there is just room.
pub fn exception_leaves_an_initialiser()
    ensures { Unwinds (setting 10)
        (record {
          inside = domain (State.InProgress (record { 0 = 1 })) (thrown 1 ARITHMETIC_EXCEPTION ∷ []);
          frames = frame 1 0 [] ∷ initialiser ∷ [];
        })
        1 Ended.Caught
        (record {
          inside = domain State.Broken (thrown 1 ARITHMETIC_EXCEPTION ∷ thrown 2 EXCEPTION_IN_INITIALIZER_ERROR ∷ []);
          frames = frame 1 2 (Held.Obj 2 ∷ []) ∷ [];
        }) }
{}

/// An error leaves the initialiser of a class: the class is broken, and the error stays as it is.
pub fn error_leaves_an_initialiser()
    ensures { LeavesFrame (setting 64) initialiser (domain (State.InProgress (record { 0 = 1 })) (thrown 1 STACK_OVERFLOW_ERROR ∷ [])) 1
        (domain State.Broken (thrown 1 STACK_OVERFLOW_ERROR ∷ [])) 1 }
{}

/// An exception leaves the initialiser of a class, and a word is missing for an ExceptionInInitializerError: nothing is made, the class is
/// broken, and what goes on is the standing OutOfMemoryError, whose handler it is that catches.
pub fn exception_is_replaced_without_room()
    ensures { Unwinds (setting 14)
        (record {
          inside = standing_domain (State.InProgress (record { 0 = 1 })) (thrown 1 ARITHMETIC_EXCEPTION ∷ thrown 2 OUT_OF_MEMORY_ERROR ∷ []);
          frames = frame 4 0 [] ∷ initialiser ∷ [];
        })
        1 Ended.Caught
        (record {
          inside = standing_domain State.Broken (thrown 1 ARITHMETIC_EXCEPTION ∷ thrown 2 OUT_OF_MEMORY_ERROR ∷ []);
          frames = frame 4 2 (Held.Obj 2 ∷ []) ∷ [];
        }) }
{}

/// An exception leaves the initialiser of a class and then that of a class below it: it is replaced once, and the error that replaced it
/// passes the second as it is, since there is room for one object alone. Both classes are broken.
pub fn exception_leaves_two_initialisers()
    ensures { Unwinds (setting 10)
        (record {
          inside = two_classes (State.InProgress (record { 0 = 1 })) (thrown 1 ARITHMETIC_EXCEPTION ∷ []);
          frames = frame 1 0 [] ∷ lower_initialiser ∷ initialiser ∷ [];
        })
        1 Ended.Caught
        (record {
          inside = two_classes State.Broken (thrown 1 ARITHMETIC_EXCEPTION ∷ thrown 2 EXCEPTION_IN_INITIALIZER_ERROR ∷ []);
          frames = frame 1 2 (Held.Obj 2 ∷ []) ∷ [];
        }) }
{}
