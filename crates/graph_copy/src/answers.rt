//! How a copy ends.

/// How a copy ends.
#[derive(Clone, Copy, Debug, PartialEq, Eq)]
pub enum CopyAnswer {
    /// All that is reached was copied.
    Copied,
    /// An object that is reached may not be copied, by its name.
    NotCopiable(u32),
    /// All may be copied, and costs so many words together, which are more than are free.
    NoRoom(u64),
}
