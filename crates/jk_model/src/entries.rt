//! What a folder has in it.

use crate::lists::Bytes;

/// A file or a folder that stands in a folder.
#[derive(Debug, Drop)]
pub struct Entry {
    /// Its name in UTF-8, without the folders above it.
    pub name: Bytes,
    /// Whether it is a folder.
    pub folder: bool,
}
