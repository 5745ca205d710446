//! What is found below a folder.

use jk_model::Bytes;

/// An entry that stands below a folder, or that folder itself.
#[derive(Debug, Drop)]
pub struct Found {
    /// Its path below the folder in UTF-8, with `/` between names. The folder's own is empty.
    pub path: Bytes,
    /// How many levels down it stands.
    pub level: u32,
    pub folder: bool,
}
