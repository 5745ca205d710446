//! What the definitions in `specs/` say of worked examples. The functions have no bodies: each stands for its clauses, and the examples
//! are in `specs/Examples.antt`.

ghost use Rattle.std.specs.Prelude.{ℕ, [], ◌∷◌, codes, true};
ghost use Rattle.jk_model.specs.declared.output.Line.TheVariants.{EndedBy, StartRefused};
ghost use Rattle.jk_model_unwinding.specs.Examples.{frame};
ghost use Rattle.jk_model_sharing.specs.Examples.{ann, segment};
ghost use Rattle.jk_model_sharing.specs.Segments.{with_revoked, with_stop, with_suspended};
ghost use Rattle.jk_model_crossings.specs.Examples.{ann_with, bob_with, machine_with, one, thread_with, with_frames};
ghost use Rattle.jk_model_runs.specs.Examples.{four_words, start_of, startable, stepping, stopped_callee, with_steps};
ghost use Rattle.jk_model_runs.specs.Starts.{Starts};
ghost use Rattle.jk_model_runs.specs.Steps.{Steps};

/// A segment that is suspended does nothing, whatever is pending; nor does one whose domain has no steps left. With one step left it pays that
/// step and dies, though a RevokedException is pending too; with that alone it ends by it; and with nothing pending the need of its frame falls.
pub fn a_step_takes_the_first_rule()
    ensures suspended { Steps (stepping 0 (with_suspended true (with_stop true (with_revoked true (segment 1 ann))))) one []
        (stepping 0 (with_suspended true (with_stop true (with_revoked true (segment 1 ann))))) }
    ensures spent { Steps (stepping 0 (with_stop true (with_revoked true (segment 1 ann)))) one []
        (stepping 0 (with_stop true (with_revoked true (segment 1 ann)))) }
    ensures stopped { Steps (stepping 1 (with_stop true (with_revoked true (segment 1 ann)))) one (EndedBy one (codes "java/lang/ThreadDeath") ∷ [])
        (machine_with (with_steps 0 (ann_with []) ∷ []) []) }
    ensures revoked { Steps (stepping 1 (with_revoked true (segment 1 ann))) one (EndedBy one (codes "jk/RevokedException") ∷ [])
        (machine_with (with_steps 0 (ann_with []) ∷ []) []) }
    ensures acts { Steps (stepping 1 (segment 1 ann)) one []
        (machine_with (with_steps 0 (ann_with []) ∷ []) (thread_with (with_frames (segment 1 ann) (frame 1 0 [] ∷ []) ∷ []) ∷ [])) }
{}

/// The domain in which a step begins pays for it, and no other. Bob's segment is stopped, and a RemoteException leaves ann's too, whatever steps
/// ann has left, none among them.
pub fn the_domain_that_steps_pays()
    ensures { (n : ℕ) → Steps (stopped_callee n) one (EndedBy one (codes "jk/RemoteException") ∷ [])
        (machine_with (with_steps n (ann_with []) ∷ with_steps 0 (bob_with []) ∷ []) []) }
{}

/// A start is refused by the first rule that is broken: S1 and S2 where a name means nothing; S4 where there may be no thread, though the words
/// and the frame don't fit either; then S5, though the frame doesn't fit; and S6 where that alone doesn't.
pub fn a_start_takes_the_first_rule()
    ensures domain { Starts (startable 0 1) (start_of (codes "eve") (codes "Go") four_words) (StartRefused (codes "eve") 1 ∷ []) (startable 0 1) }
    ensures class { Starts (startable 0 1) (start_of (codes "ann") (codes "No") four_words) (StartRefused (codes "ann") 2 ∷ []) (startable 0 1) }
    ensures threads { Starts (startable 0 1) (start_of (codes "ann") (codes "Go") four_words) (StartRefused (codes "ann") 4 ∷ []) (startable 0 1) }
    ensures words { Starts (startable 1 1) (start_of (codes "ann") (codes "Go") four_words) (StartRefused (codes "ann") 5 ∷ []) (startable 1 1) }
    ensures chunks { Starts (startable 1 1) (start_of (codes "ann") (codes "Go") []) (StartRefused (codes "ann") 6 ∷ []) (startable 1 1) }
{}
