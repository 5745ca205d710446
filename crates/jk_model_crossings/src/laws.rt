//! What the definitions in `specs/` say by themselves. The functions have no bodies: each stands for its clauses.

ghost use Rattle.std.specs.Prelude.{◌≡◌};
ghost use Rattle.jk_model.specs.declared.identifiers.ThreadNo.{ThreadNo};
ghost use Rattle.jk_model.specs.declared.steps.Raise.{Raise};
ghost use Rattle.jk_model_machine_state.specs.Machines.{Machine};
ghost use Rattle.jk_model_crossings.specs.RemoteCalls.{Enters, Refuses, RemoteCall};

/// A call through a capability is refused by one rule at most, the first that applies, and where it is refused it doesn't enter.
pub fn remote_calls_are_refused_once()
    ensures once { (m : Machine) (t : ThreadNo) (c : RemoteCall m t) (r s : Raise) → Refuses c r → Refuses c s → r ≡ s }
    ensures not_entered { (m : Machine) (t : ThreadNo) (c : RemoteCall m t) (r : Raise) (new : Machine) → Refuses c r → Enters c new → ⊥ }
{}
