//! The sorts of what stands in a folder of a system.

ghost use Rattle.std.specs.Fs.{file_type};
ghost use Rattle.jk_outside.specs.FolderWalks.{IsSortOf};

use std::fs::Metadata;

/// What an entry is. A symbolic link counts as what it leads to.
#[derive(Clone, Copy)]
pub(crate) enum Sort {
    Folder,
    File,
    /// A pipe, a socket or a device, which is not listed.
    Other,
}

/// What the system says that it is.
pub(crate) fn sort_of(metadata: &Metadata) -> Sort
    ensures { IsSortOf (file_type metadata.now) result }
{
    if metadata.is_dir() {
        Sort::Folder
    } else if metadata.is_file() {
        Sort::File
    } else {
        Sort::Other
    }
}
