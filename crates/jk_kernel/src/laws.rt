//! Laws of the kernel's machine. The functions have no bodies but calls of other laws: each stands for its clauses.

ghost use Rattle.machine_laws.specs.KnownMachines.{IsKnownMachine};
ghost use Rattle.machine_laws.specs.MachinesOfRuns.{RoundsGoOn, ThreadsGoOn, TurnsGoOn};
ghost use Rattle.machine_laws.specs.SealedSteps.{StepsStayKnown};
ghost use Rattle.jk_kernel.specs.SoundMachines.{FirstMachinesAreSound, KillsKeepSound, OpeningsKeepSound, StartsKeepSound, StepsAreApart, StepsKeepSound};

use kernel_events::laws::numbers_rise;
use machine_laws::confined::steps_are_confined;
use machine_laws::machines::{
    first_machines_are_known, kills_stay_known, machines_may_grow, starts_stay_known,
    steps_are_there, steps_stay_known, turns_are_there,
};
use machine_laws::openings::{folders_may_be_loaded, machines_stay_whole, openings_stay_known};

/// What holds of the kernel's machine holds of the first one, and is kept by each start, step, kill and opening.
pub(crate) fn machines_stay_sound()
    ensures first { FirstMachinesAreSound }
    ensures starts { StartsKeepSound }
    ensures steps { StepsKeepSound }
    ensures kills { KillsKeepSound }
    ensures openings { OpeningsKeepSound }
{
    first_machines_are_known();
    machines_stay_whole();
    starts_stay_known();
    steps_stay_known();
    kills_stay_known();
    machines_may_grow();
    openings_stay_known();
    folders_may_be_loaded();
    numbers_rise();
}

/// From each machine of which all is known there are whole turns and rounds, and each step leads to such a machine.
pub(crate) fn machines_go_on()
    ensures steps { StepsStayKnown }
    ensures turns { TurnsGoOn IsKnownMachine }
    ensures threads { ThreadsGoOn IsKnownMachine }
    ensures rounds { RoundsGoOn IsKnownMachine }
{
    steps_are_there();
    steps_stay_known();
    turns_are_there();
}

/// Each step is confined to what its deed may change.
pub(crate) fn steps_are_apart()
    ensures { StepsAreApart }
{
    steps_are_confined();
}
