//! The laws. The functions have no bodies: each stands for its clauses.

ghost use Rattle.machine_laws.specs.KnownMachines.{IsKnownMachine};
ghost use Rattle.machine_laws.specs.LowestFrames.{LowestFramesGiveStill};
ghost use Rattle.machine_laws.specs.MachinesOfRuns.{KillsMayGrow, StartsMayGrow, StepsMayGrow};
ghost use Rattle.machine_laws.specs.RunsInMachines.{AnsweringRunsStayWhole, FirstMachinesAreWhole, KeptRunsStaySealed, PaidMachinesStayKnown};
ghost use Rattle.machine_laws.specs.SealedSteps.{FirstMachinesAreKnown, KillsStayKnown, LeftRunsStaySealed, RunningSegmentsActWell, StartsStayKnown, StartsStaySealed, StepsStayKnown, WaitingRunsStaySealed};
ghost use Rattle.machine_laws.specs.StepProgress.{GoingIsThere, RoundsAreThere, StepsAreThere, TurnsAreThere};

use crate::folders::system_classes_are_sound;
use row_laws::heap_rows::heap_rows_keep;
use row_laws::running::{local_steps_are_there, local_steps_keep};

/// Where each thread of such a machine has a step, and steps lead to such machines, there are whole turns and rounds.
pub fn turns_are_there()
    ensures turns { TurnsAreThere IsKnownMachine }
    ensures goes { GoingIsThere IsKnownMachine }
    ensures rounds { RoundsAreThere IsKnownMachine }
{}

/// The first machine is whole, and all is known of it.
pub fn first_machines_are_known()
    ensures whole { FirstMachinesAreWhole }
    ensures known { FirstMachinesAreKnown }
{
    system_classes_are_sound();
}

/// Of the running segment of a known machine is known what a segment that acts rests on, where no RevokedException is pending for it.
pub fn running_segments_act_well()
    ensures { RunningSegmentsActWell }
{}

/// Where a segment of a known machine has run, the machine is sealed where it goes on, where no frame of it is left, and, but for its thread, where
/// it waits for an answer. Where it goes on and its lowest frame gives what it gave, the machine is whole.
pub fn kept_runs_stay_sealed()
    ensures goes_on { KeptRunsStaySealed }
    ensures answers { AnsweringRunsStayWhole }
    ensures left { LeftRunsStaySealed }
    ensures waits { WaitingRunsStaySealed }
{}

/// Where a step is paid, all is known of the machine that was known.
pub fn paid_machines_stay_known()
    ensures { PaidMachinesStayKnown }
{}

/// Where a step of a segment leaves frames of it, its lowest frame gives what it gave.
pub fn lowest_frames_give_still()
    ensures { LowestFramesGiveStill }
{
    heap_rows_keep();
}

/// All is known of the machine to which a step leads of which all is known: whatever the step was, also where the thread entered another domain,
/// came back from one or asked for something, and where a domain ended.
pub fn steps_stay_known()
    ensures { StepsStayKnown }
{
    heap_rows_keep();
}

/// Where a domain is killed, all is known of the machine that was known.
pub fn kills_stay_known()
    ensures { KillsStayKnown }
{}

/// A start leads from a machine of which all is known to such a machine, and from a sealed one to a sealed one where classes and names are sound.
pub fn starts_stay_known()
    ensures known { StartsStayKnown }
    ensures sealed { StartsStaySealed }
{}

/// Where another domain may be opened, it may be opened after each start, step and kill.
pub fn machines_may_grow()
    ensures starts { StartsMayGrow }
    ensures steps { StepsMayGrow }
    ensures kills { KillsMayGrow }
{
    local_steps_keep();
}

/// Each thread of a machine of which all is known has a step.
pub fn steps_are_there()
    ensures { StepsAreThere }
{
    heap_rows_keep();
    local_steps_are_there();
    local_steps_keep();
}
