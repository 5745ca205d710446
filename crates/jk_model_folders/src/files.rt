//! The files of a folder that count.

use jk_model::{Bytes, List};

/// A class file of a folder.
#[derive(Debug, Drop)]
pub struct FolderFile {
    /// Its path below the folder in UTF-8, with `/` between names. It ends in `.class`.
    pub path: Bytes,
    pub bytes: Bytes,
}

/// The files of a folder that count.
#[derive(Debug, Drop)]
pub struct FolderFiles {
    /// In the order of the bytes of their paths.
    pub classes: List<FolderFile>,
    /// The bytes of `resolver.txt`; none where there is no such file.
    pub resolver: Bytes,
}
