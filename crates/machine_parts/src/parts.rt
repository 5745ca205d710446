//! Laws of parts and machines. The functions have no bodies: each stands for its clause.

ghost use Rattle.machine_parts.specs.ChangedParts.{FramesChangeMachines, HeapsChangeMachines, LiveDomainsAreOfParts, OwnStatesChangeMachines, PaymentsChangeMachines, RunningFramesChange};
ghost use Rattle.machine_parts.specs.SharedInMachines.{CapsChangeMachines, FlagsChangeMachines, PopsChangeMachines, PushesChangeMachines, StartsChangeMachines};

/// A live domain's heap is that of the store, its table that of the world, and its quotas those that are shared.
pub fn live_domains_are_of_parts()
    ensures { LiveDomainsAreOfParts }
{}

/// Where the heap of a live domain becomes another one, the machine has that heap in the domain.
pub fn heaps_change_machines()
    ensures { HeapsChangeMachines }
{}

/// Where a live domain gets another own state, the machine has that state in the domain.
pub fn own_states_change_machines()
    ensures { OwnStatesChangeMachines }
{}

/// Where a step is paid in what is shared, it is paid in the machine.
pub fn payments_change_machines()
    ensures { PaymentsChangeMachines }
{}

/// Where a segment has other frames in the store, or goes from it, it has these frames in the machine, or none.
pub fn frames_change_machines()
    ensures { FramesChangeMachines }
{}

/// Where segments have different numbers, the running segment's frames are those of its number.
pub fn running_frames_change()
    ensures { RunningFramesChange }
{}

/// Where the flags of a segment change in what is shared, they change in the machine.
pub fn flags_change_machines()
    ensures { FlagsChangeMachines }
{}

/// Where a domain's capabilities change in what is shared, they change in the machine.
pub fn caps_change_machines()
    ensures { CapsChangeMachines }
{}

/// A segment that is put on top of a thread is a segment of the machine with the frame that the store has for it.
pub fn pushes_change_machines()
    ensures { PushesChangeMachines }
{}

/// So is the segment of a thread that starts.
pub fn starts_change_machines()
    ensures { StartsChangeMachines }
{}

/// Where a thread's top segment goes, the machine is without it, and without the thread if it was the lowest. Then its frames may go too.
pub fn pops_change_machines()
    ensures { PopsChangeMachines }
{}
