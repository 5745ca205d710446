//! What the definitions in `specs/` say by themselves. The functions have no bodies: each stands for its clauses.

ghost use Rattle.std.specs.Prelude.{◌≡◌, ◌≢◌, ℕ, [], ◌∷◌, List, Some, false, true};
ghost use Rattle.jk_model.specs.declared.identifiers.ThreadNo.{ThreadNo};
ghost use Rattle.jk_model.specs.declared.output.Line.{Line};
ghost use Rattle.jk_model.specs.declared.output.Line.TheVariants.{Said, StartRefused};
ghost use Rattle.jk_model.specs.declared.steps.Raise.TheVariants as Raised;
ghost use Rattle.jk_model.specs.declared.steps.Standing.TheVariants as Stands;
ghost use Rattle.jk_model_heaps.specs.Workings.{Run};
ghost use Rattle.jk_model_sharing.specs.Segments.{with_revoked, with_stop};
ghost use Rattle.jk_model_machine_state.specs.Machines.{Machine, paid};
ghost use Rattle.jk_model_machine_state.specs.Places.{RunningSegment, run_of, setting_of, with_flags, with_run};
ghost use Rattle.jk_model_crossings.specs.Throwing.{RaisesInThread};
ghost use Rattle.jk_model_running.specs.LocalSteps.{LocalStep};
ghost use Rattle.jk_model_running.specs.Ways.{GoesOn, Says};
ghost use Rattle.jk_model_runs.specs.Starts.{HasMain, HasManyThreads, LacksWords, Starts, StartWords};
ghost use Rattle.jk_model_runs.specs.Steps.{Acts, Deed, IsHeld, Rested, Steps, StepsBy, deed_of_raise};

/// What a segment does by itself is a step of the machine that it is a part of, once the step is paid, where nothing is pending for it.
pub fn local_steps_are_steps()
    ensures goes_on { (m : Machine) (t : ThreadNo) (p : RunningSegment m t) → (IsHeld p → ⊥) → p.home.domain.steps_left ≢ Some 0
        → (q : RunningSegment (paid p.segment.shared.domain m) t) → q.segment.shared.stop ≡ false → q.segment.shared.revoked ≡ false
        → (run : Run) → LocalStep (setting_of q) t (run_of q) run GoesOn → Steps m t [] (with_run q run) }
    ensures says { (m : Machine) (t : ThreadNo) (p : RunningSegment m t) → (IsHeld p → ⊥) → p.home.domain.steps_left ≢ Some 0
        → (q : RunningSegment (paid p.segment.shared.domain m) t) → q.segment.shared.stop ≡ false → q.segment.shared.revoked ≡ false
        → (run : Run) (text : List ℕ) → LocalStep (setting_of q) t (run_of q) run (Says text)
        → (after : RunningSegment (with_run q run) t) → Steps m t (Said after.home.domain.name text ∷ []) (with_run q run) }
{}

/// Of the rules of a step the first that applies is taken, whatever else applies too. Where the top segment is suspended or waits for a class,
/// and else where its domain has no steps left, nothing changes and nothing is paid. Else its domain pays one step and the segment acts.
pub fn first_rule_of_a_step_applies()
    ensures held { (m : Machine) (t : ThreadNo) (p : RunningSegment m t) (deed : Deed) (lines : List Line) (new : Machine)
        → IsHeld p → StepsBy m t deed lines new → (deed ≡ Rested) × (lines ≡ []) × (new ≡ m) }
    ensures spent { (m : Machine) (t : ThreadNo) (p : RunningSegment m t) (deed : Deed) (lines : List Line) (new : Machine)
        → p.home.domain.steps_left ≡ Some 0 → StepsBy m t deed lines new → (deed ≡ Rested) × (lines ≡ []) × (new ≡ m) }
    ensures pays { (m : Machine) (t : ThreadNo) (p : RunningSegment m t) (deed : Deed) (lines : List Line) (new : Machine)
        → (IsHeld p → ⊥) → p.home.domain.steps_left ≢ Some 0 → StepsBy m t deed lines new → Acts (paid p.segment.shared.domain m) t deed lines new }
{}

/// Where the segment acts, a stop that is pending comes before a RevokedException that is pending, and that before all else: the flag falls, and
/// a standing throwable is raised.
pub fn pending_flags_come_first()
    ensures stop { (m : Machine) (t : ThreadNo) (p : RunningSegment m t) (deed : Deed) (lines : List Line) (new : Machine)
        → p.segment.shared.stop ≡ true → Acts m t deed lines new
        → (n : ℕ) × (deed ≡ deed_of_raise n)
        × RaisesInThread (with_flags p (with_stop false p.segment.shared)) t (Raised.Standing Stands.ThreadDeath) n lines new }
    ensures revoked { (m : Machine) (t : ThreadNo) (p : RunningSegment m t) (deed : Deed) (lines : List Line) (new : Machine)
        → p.segment.shared.stop ≡ false → p.segment.shared.revoked ≡ true → Acts m t deed lines new
        → (n : ℕ) × (deed ≡ deed_of_raise n)
        × RaisesInThread (with_flags p (with_revoked false p.segment.shared)) t (Raised.Standing Stands.Revoked) n lines new }
{}

/// A start is refused by one rule at most, the first that applies, and begins nothing then. So it is S5 where the start words don't fit, whether
/// or not a segment and a frame fit.
pub fn first_rule_of_a_start_applies()
    ensures one_line { (m : Machine) (start : StartWords) (lines more : List Line) (new other : Machine)
        → Starts m start lines new → Starts m start more other → lines ≡ more }
    ensures words_first { (m : Machine) (start : StartWords) (lines : List Line) (new : Machine) (h : HasMain m start)
        → (HasManyThreads m h.in_class.in_domain.domain → ⊥)
        → LacksWords m h.in_class.in_domain.domain h.in_class.in_domain.inside start.words → Starts m start lines new
        → lines ≡ StartRefused start.domain 5 ∷ [] }
{}
