//! What the definitions in `specs/` say of worked examples. The functions have no bodies: each stands for its clauses, and the examples
//! are in `specs/Examples.antt`.

ghost use Rattle.std.specs.Prelude.{[], ◌∷◌, Some, codes, true};
ghost use Rattle.jk_model.specs.declared.output.Line.TheVariants.{EndedBy};
ghost use Rattle.jk_model.specs.declared.values.Value.TheVariants as Held;
ghost use Rattle.jk_model_domains.specs.NumberRows.{ARITHMETIC_EXCEPTION};
ghost use Rattle.jk_model_unwinding.specs.Examples.{frame, thrown};
ghost use Rattle.jk_model_sharing.specs.Examples.{ann, bob, cid, segment};
ghost use Rattle.jk_model_sharing.specs.Segments.{as_orphan, with_revoked};
ghost use Rattle.jk_model_crossings.specs.Answers.{Returns};
ghost use Rattle.jk_model_crossings.specs.Examples.{BOOM, ann_with, bob_with, called_itself, calling, calls_itself, cid_with, machine_with, one, text, thread_with, with_frames};
ghost use Rattle.jk_model_crossings.specs.RemoteCalls.{Enters, RemoteCall};
ghost use Rattle.jk_model_crossings.specs.Throwing.{Throws};

/// An exception of a class that cid alone knows has left cid's segment. In bob a RemoteException arrives, which no frame catches. Bob's segment
/// is an orphan, so it is dropped there, and ann's segment has a RevokedException pending. Two segments are left.
pub fn an_orphan_drops_what_it_throws()
    ensures { Throws one 2
        (machine_with (ann_with [] ∷ bob_with [] ∷ cid_with (thrown 9 BOOM ∷ []) ∷ [])
        (thread_with (with_frames (segment 1 ann) (calling [] ∷ []) ∷ with_frames (as_orphan (segment 2 bob)) (calling [] ∷ [])
        ∷ with_frames (segment 3 cid) [] ∷ []) ∷ []))
        9 []
        (machine_with (ann_with [] ∷ bob_with [] ∷ cid_with (thrown 9 BOOM ∷ []) ∷ [])
        (thread_with (with_frames (with_revoked true (segment 1 ann)) (calling [] ∷ []) ∷ []) ∷ [])) }
{}

/// An exception of the system that leaves cid's segment arrives in bob as a copy, and in ann as a copy of that one. No frame catches it, and it
/// ends the thread by its class.
pub fn an_exception_goes_down_as_copies()
    ensures { Throws one 3
        (machine_with (ann_with [] ∷ bob_with [] ∷ cid_with (thrown 9 ARITHMETIC_EXCEPTION ∷ []) ∷ [])
        (thread_with (with_frames (segment 1 ann) (calling [] ∷ []) ∷ with_frames (segment 2 bob) (calling [] ∷ [])
        ∷ with_frames (segment 3 cid) [] ∷ []) ∷ []))
        9 (EndedBy one (codes "java/lang/ArithmeticException") ∷ [])
        (machine_with (ann_with (thrown 9 ARITHMETIC_EXCEPTION ∷ []) ∷ bob_with (thrown 9 ARITHMETIC_EXCEPTION ∷ [])
        ∷ cid_with (thrown 9 ARITHMETIC_EXCEPTION ∷ []) ∷ []) []) }
{}

/// A ThreadDeath, here the one that stands in bob, arrives in ann as a RemoteException.
pub fn a_thread_death_arrives_as_a_remote_exception()
    ensures { Throws one 2
        (machine_with (ann_with [] ∷ bob_with [] ∷ [])
        (thread_with (with_frames (segment 1 ann) (calling [] ∷ []) ∷ with_frames (segment 2 bob) [] ∷ []) ∷ []))
        7 (EndedBy one (codes "jk/RemoteException") ∷ []) (machine_with (ann_with [] ∷ bob_with [] ∷ []) []) }
{}

/// Ann has 20 free words. A text of 16 units comes back as a copy, and the frame that called goes on with it. One of 17 units doesn't fit, and
/// ann's OutOfMemoryError is raised in place of it.
pub fn results_come_back_where_they_fit()
    ensures fits { Returns
        (machine_with (ann_with [] ∷ bob_with (text 9 16 ∷ []) ∷ [])
        (thread_with (with_frames (segment 1 ann) (calling [] ∷ []) ∷ with_frames (segment 2 bob) [] ∷ []) ∷ []))
        one (Some (Held.Obj 9)) 1 []
        (machine_with (ann_with (text 9 16 ∷ []) ∷ bob_with (text 9 16 ∷ []) ∷ [])
        (thread_with (with_frames (segment 1 ann) (frame 1 2 (Held.Obj 9 ∷ []) ∷ []) ∷ []) ∷ [])) }
    ensures too_large { Returns
        (machine_with (ann_with [] ∷ bob_with (text 9 17 ∷ []) ∷ [])
        (thread_with (with_frames (segment 1 ann) (calling [] ∷ []) ∷ with_frames (segment 2 bob) [] ∷ []) ∷ []))
        one (Some (Held.Obj 9)) 2 (EndedBy one (codes "java/lang/OutOfMemoryError") ∷ [])
        (machine_with (ann_with [] ∷ bob_with (text 9 17 ∷ []) ∷ []) []) }
{}

/// A call at a capability of the caller's own domain is a call like any other: the argument is copied within the one heap, the receiver is the
/// target itself, and a new segment is on top.
pub fn a_domain_calls_itself()
    ensures { (c : RemoteCall calls_itself one) × Enters c called_itself }
{}
