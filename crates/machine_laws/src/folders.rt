//! The laws. The functions have no bodies: each stands for its clauses.

ghost use Rattle.machine_laws.specs.SoundFolders.{AcceptedFoldersStaySound, SystemClassesAreSound};

/// The system classes alone are sound and linked, where there is no domain.
pub fn system_classes_are_sound()
    ensures { SystemClassesAreSound }
{}

/// With the classes of an accepted folder behind the others, and the name table of its domain behind the others, the classes and names are
/// sound and linked as before.
pub fn accepted_folders_stay_sound()
    ensures { AcceptedFoldersStaySound }
{}
