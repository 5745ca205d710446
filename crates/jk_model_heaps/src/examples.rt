//! Worked examples of the definitions. The functions have no bodies: each stands for its clauses, and what they speak of stands in
//! `specs/Examples.antt`.

ghost use Rattle.std.specs.Prelude.{◌≡◌, ◌≢◌, ℕ, [], ◌∷◌, Some, None, false, true, pos};
ghost use Rattle.jk_model.specs.declared.identifiers.ClassId.{ClassId};
ghost use Rattle.jk_model.specs.declared.steps.Raise.TheVariants as Raised;
ghost use Rattle.jk_model.specs.declared.steps.Standing.TheVariants as Stands;
ghost use Rattle.jk_model.specs.declared.values.Value.TheVariants as Held;
ghost use Rattle.jk_model_classes.specs.Classes.{OBJECT};
ghost use Rattle.jk_model_typing.specs.FrameTypes.{STRING};
ghost use Rattle.jk_model_frames.specs.Frames.{FrameState};
ghost use Rattle.jk_model_domains.specs.NumberRows.{ARITHMETIC_EXCEPTION};
ghost use Rattle.jk_model_domains.specs.Objects.{CAPABILITY, Plain, TASK, object_named};
ghost use Rattle.jk_model_heaps.specs.CalledFrames.{IsCalledFrame};
ghost use Rattle.jk_model_heaps.specs.Capabilities.{CapabilityIsA, capability_numbered};
ghost use Rattle.jk_model_heaps.specs.Examples.{BOX, CALLED, ELSEWHERE, IMPL, LOWER, MARK, array_of, begun_with, classes, code_with, first_inside, int_long_int, known, one_of_each, ranges, setting, with_exception};
ghost use Rattle.jk_model_heaps.specs.Instances.{IsA, IsInstance, RunsAs};
ghost use Rattle.jk_model_heaps.specs.SystemClasses.{REMOTE, SERIALIZABLE};
ghost use Rattle.jk_model_heaps.specs.Throwables.{IsRaised};
ghost use Rattle.jk_model_heaps.specs.Workings.{Inside};

/// A frame that is called with an int, a long and an int has the last one in its fourth local: the long takes two, of which the second is
/// unset, as are the locals after the arguments. So arguments aren't put in one local each.
pub fn arguments_in_locals()
    ensures more { IsCalledFrame CALLED (code_with 5) int_long_int
        (begun_with 5 (Held.Int (pos 1) ∷ Held.Long (pos 2) ∷ Held.Unset ∷ Held.Int (pos 3) ∷ Held.Unset ∷ [])) }
    ensures just { IsCalledFrame CALLED (code_with 4) int_long_int
        (begun_with 4 (Held.Int (pos 1) ∷ Held.Long (pos 2) ∷ Held.Unset ∷ Held.Int (pos 3) ∷ [])) }
    ensures too_few { (f : FrameState) → ¬ IsCalledFrame CALLED (code_with 3) int_long_int f }
{}

/// A throwable of the machine takes 5 words. Where they just fit, it is a new object whose message is null, and nothing else is raised;
/// where they don't, it is the standing OutOfMemoryError, and nothing changes.
pub fn throwable_that_just_fits()
    ensures fits { IsRaised (setting 49) first_inside (Raised.Fresh ARITHMETIC_EXCEPTION) with_exception 9 }
    ensures is_new { (new : Inside) (b : ℕ) → IsRaised (setting 49) first_inside (Raised.Fresh ARITHMETIC_EXCEPTION) new b
        → (object_named first_inside.heap b ≡ None)
        × (object_named new.heap b ≡ Some (Plain ARITHMETIC_EXCEPTION (Held.Null ∷ []))) }
    ensures lacks { IsRaised (setting 48) first_inside (Raised.Fresh ARITHMETIC_EXCEPTION) first_inside 1 }
    ensures nothing_else { (new : Inside) (b : ℕ) → IsRaised (setting 48) first_inside (Raised.Fresh ARITHMETIC_EXCEPTION) new b
        → (new ≡ first_inside) × (b ≡ 1) }
{}

/// What stands is raised as it stands, also where no word is left: each by its own name, in the order of `Standing`. So is an object.
pub fn standing_throwables()
    ensures stack { IsRaised (setting 44) first_inside (Raised.Standing Stands.StackOverflowError) first_inside 2 }
    ensures quota { IsRaised (setting 44) first_inside (Raised.Standing Stands.Quota) first_inside 4 }
    ensures security { IsRaised (setting 44) first_inside (Raised.Standing Stands.Security) first_inside 8 }
    ensures object { IsRaised (setting 44) first_inside (Raised.Object 7) first_inside 7 }
{}

/// An array of what implements an interface is an array of the interface, one that its class has from a class above or that is above
/// another interface too. An array of objects isn't one, though typing can't tell the two apart; nor is an array of the interface one of
/// the class, nor any array an instance of the interface.
pub fn arrays_of_interfaces()
    ensures listed { IsA classes (array_of 1 IMPL) (array_of 1 MARK) }
    ensures of_class_above { IsA classes (array_of 1 LOWER) (array_of 1 MARK) }
    ensures above_interface { IsA classes (array_of 2 LOWER) (array_of 2 REMOTE) }
    ensures objects { IsA classes (array_of 1 MARK) (array_of 1 OBJECT) }
    ensures no_interface { ¬ IsA classes (array_of 1 OBJECT) (array_of 1 MARK) }
    ensures no_class { ¬ IsA classes (array_of 1 MARK) (array_of 1 IMPL) }
    ensures no_array { ¬ IsA classes (array_of 1 IMPL) (array_of 0 MARK) }
{}

/// Numbers go by range, and then by the order of making. A number that is in a range and wasn't given out is no capability.
pub fn numbers_of_capabilities()
    ensures first { capability_numbered ranges (record { 0 = 0 })
        ≡ Some (record { owner = record { 0 = 0 }; capability = record { target = 7; class = IMPL; revoked = false } }) }
    ensures next { capability_numbered ranges (record { 0 = 1 })
        ≡ Some (record { owner = record { 0 = 0 }; capability = record { target = 7; class = ELSEWHERE; revoked = false } }) }
    ensures second_range { capability_numbered ranges (record { 0 = 2 })
        ≡ Some (record { owner = record { 0 = 1 }; capability = record { target = 7; class = IMPL; revoked = true } }) }
    ensures not_given_out { capability_numbered ranges (record { 0 = 3 }) ≡ None }
    ensures in_no_range { capability_numbered ranges (record { 0 = 5 }) ≡ None }
{}

/// A capability is an object, a jk/Capability, jk/Remote, and each remote interface of its target's class, also when it is revoked. It
/// isn't of that class, nor of another interface of it, and it is no array.
pub fn instances_that_capabilities_are()
    ensures object { CapabilityIsA classes known (record { 0 = 0 }) (array_of 0 OBJECT) }
    ensures capability { CapabilityIsA classes known (record { 0 = 0 }) (array_of 0 CAPABILITY) }
    ensures remote { CapabilityIsA classes known (record { 0 = 0 }) (array_of 0 REMOTE) }
    ensures shown { CapabilityIsA classes known (record { 0 = 0 }) (array_of 0 BOX) }
    ensures revoked { CapabilityIsA classes known (record { 0 = 2 }) (array_of 0 BOX) }
    ensures no_class { ¬ CapabilityIsA classes known (record { 0 = 0 }) (array_of 0 IMPL) }
    ensures not_remote { ¬ CapabilityIsA classes known (record { 0 = 2 }) (array_of 0 MARK) }
    ensures no_array { ¬ CapabilityIsA classes known (record { 0 = 0 }) (array_of 1 OBJECT) }
{}

/// A capability whose target's class isn't there shows what stands in for the class. Nothing stands in for a class that is there, and a
/// number that wasn't given out shows nothing.
pub fn capabilities_that_are_stood_in_for()
    ensures stands_in { CapabilityIsA classes known (record { 0 = 1 }) (array_of 0 BOX) }
    ensures not_shown { ¬ CapabilityIsA classes known (record { 0 = 1 }) (array_of 0 MARK) }
    ensures not_asked { ¬ CapabilityIsA classes known (record { 0 = 0 }) (array_of 0 MARK) }
    ensures not_given_out { ¬ CapabilityIsA classes known (record { 0 = 3 }) (array_of 0 BOX) }
{}

/// At an array the method that a call runs is looked for in java/lang/Object and not in the class of its elements, at a text in
/// java/lang/String, at a handle of a segment in jk/Task, and at a capability in jk/Capability and not in its target's class. It is one
/// class for each value, and none for null.
pub fn classes_of_receivers()
    ensures plain { (c : ClassId) → RunsAs one_of_each (Held.Obj 1) c → c ≡ IMPL }
    ensures array { (c : ClassId) → RunsAs one_of_each (Held.Obj 2) c → c ≡ OBJECT }
    ensures is_array { RunsAs one_of_each (Held.Obj 2) OBJECT }
    ensures text { (c : ClassId) → RunsAs one_of_each (Held.Obj 3) c → c ≡ STRING }
    ensures is_text { RunsAs one_of_each (Held.Obj 3) STRING }
    ensures task { (c : ClassId) → RunsAs one_of_each (Held.Obj 4) c → c ≡ TASK }
    ensures is_task { RunsAs one_of_each (Held.Obj 4) TASK }
    ensures capability { (c : ClassId) → RunsAs one_of_each (Held.Cap (record { 0 = 0 })) c → c ≡ CAPABILITY }
    ensures is_capability { RunsAs one_of_each (Held.Cap (record { 0 = 0 })) CAPABILITY }
    ensures null { (c : ClassId) → ¬ RunsAs one_of_each Held.Null c }
{}

/// Of no interface but those of arrays is an array an instance, and a text is of no class but its own and those above. Null is an instance
/// of nothing, not of java/lang/Object either.
pub fn instances_by_value()
    ensures array { IsInstance classes known one_of_each (Held.Obj 2) (array_of 1 MARK) }
    ensures array_of_no_interface { ¬ IsInstance classes known one_of_each (Held.Obj 2) (array_of 0 MARK) }
    ensures array_is_serializable { IsInstance classes known one_of_each (Held.Obj 2) (array_of 0 SERIALIZABLE) }
    ensures text { IsInstance classes known one_of_each (Held.Obj 3) (array_of 0 STRING) }
    ensures text_is_object { IsInstance classes known one_of_each (Held.Obj 3) (array_of 0 OBJECT) }
    ensures task { IsInstance classes known one_of_each (Held.Obj 4) (array_of 0 TASK) }
    ensures null { ¬ IsInstance classes known one_of_each Held.Null (array_of 0 OBJECT) }
{}
