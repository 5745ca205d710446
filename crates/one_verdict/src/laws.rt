//! The laws. The functions have no bodies: each stands for its clauses.

ghost use Rattle.one_verdict.specs.Verdicts.{FilesBringOneThing, FilesHaveOneFault, FoldersHaveOneFault, LoadedFilesHaveNoFault, LoadedFoldersHaveNoFault, ToldFilesAreOne};

/// Files break no rule, or have one fault: one rule, at one place. Files that break none bring one thing. Nothing is asked of the
/// world, nor of the files.
pub fn files_have_one_verdict()
    ensures loaded { LoadedFilesHaveNoFault }
    ensures fault { FilesHaveOneFault }
    ensures brought { FilesBringOneThing }
{}

/// A folder of a told tree has one list of files that count, and its files break no rule, or it has one fault.
pub fn folders_have_one_verdict()
    ensures files { ToldFilesAreOne }
    ensures loaded { LoadedFoldersHaveNoFault }
    ensures fault { FoldersHaveOneFault }
{}
