//! The laws. The functions have no bodies: each stands for its clause.

ghost use Rattle.machine_parts.specs.RunningParts.{RunningSegmentsAreOfParts};
ghost use Rattle.machine_parts.specs.RunsChanged.{RunsChangeMachines, TopsGoFromMachines};

/// A thread's running segment is the top segment of what domains share, with the frames that the store has for it.
pub fn running_segments_are_of_parts()
    ensures { RunningSegmentsAreOfParts }
{}

/// Where the frames of the running segment change in the store, or its flags in what is shared, they change in the machine.
pub fn runs_change_machines()
    ensures { RunsChangeMachines }
{}

/// Where a thread's top segment goes from what is shared and from the store, the machine is without it, and without the thread if it was the
/// lowest.
pub fn tops_go_from_machines()
    ensures { TopsGoFromMachines }
{}
