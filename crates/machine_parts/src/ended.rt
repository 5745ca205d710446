//! A law. The function has no body: it stands for its clause.

ghost use Rattle.machine_parts.specs.EndedParts.{EndsChangeMachines};

/// Where the world, the own states, what is shared and the stores are without a domain, it has ended in the machine, with its lines.
pub fn ends_change_machines()
    ensures { EndsChangeMachines }
{}
