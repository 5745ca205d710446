//! The laws. The functions have no bodies: each stands for its clauses.

ghost use Rattle.machine_laws.specs.LoadingNext.{FirstMachinesLoadNext, FoldersMayLoad, KillsLoadNext, OpeningsLoadNext, StartsLoadNext, StepsLoadNext};
ghost use Rattle.machine_laws.specs.MachinesOfRuns.{OpeningsStayKnown};
ghost use Rattle.machine_laws.specs.OpenedMachines.{FirstMachinesMayGrow, OpeningsStayWhole};
ghost use Rattle.machine_laws.specs.SealedOpenings.{FramesStaySealed, InsidesStaySealed, OpeningsAreSealed, OpeningsAreThere};

use crate::folders::{accepted_folders_stay_sound, system_classes_are_sound};
use row_laws::running::local_steps_keep;

/// A domain can be opened wherever 44 words fit, and is sealed inside.
pub fn domains_open()
    ensures there { OpeningsAreThere }
    ensures sealed { OpeningsAreSealed }
{}

/// Domains that were there stay sealed inside with more classes behind closed ones and with more capabilities, and so do the frames of
/// their segments.
pub fn domains_stay_sealed()
    ensures insides { InsidesStaySealed }
    ensures frames { FramesStaySealed }
{}

/// A whole machine in which a folder is accepted and a domain is opened is whole, where its classes and names are sound then: no name
/// crosses between domains, and all calls are answered. It rests on what each machine of a run has, the first one to begin with.
pub fn machines_stay_whole()
    ensures opened { OpeningsStayWhole }
    ensures first { FirstMachinesMayGrow }
{}

/// All is known of a machine in which a domain is opened from accepted files, and another domain may be opened in it.
pub fn openings_stay_known()
    ensures { OpeningsStayKnown }
{
    accepted_folders_stay_sound();
}

/// All along a run another folder may be loaded: so it is in the first machine, and so it stays with each opening, start, step and kill.
pub fn folders_may_be_loaded()
    ensures may { FoldersMayLoad }
    ensures first { FirstMachinesLoadNext }
    ensures openings { OpeningsLoadNext }
    ensures starts { StartsLoadNext }
    ensures steps { StepsLoadNext }
    ensures kills { KillsLoadNext }
{
    system_classes_are_sound();
    local_steps_keep();
}
