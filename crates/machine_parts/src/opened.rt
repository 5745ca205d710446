//! The laws. The functions have no bodies: each stands for its clause.

ghost use Rattle.machine_parts.specs.OpenedParts.{OpensChangeMachines};
ghost use Rattle.machine_parts.specs.PoolsOfParts.{PoolsAreOfParts};

/// Where the world, the own states, what is shared and the stores have another domain, the machine has it.
pub fn opens_change_machines()
    ensures { OpensChangeMachines }
{}

/// The pools of the machine are those of the stores.
pub fn pools_are_of_parts()
    ensures { PoolsAreOfParts }
{}
