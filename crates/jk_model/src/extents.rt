//! Runs of pages of a pool.

/// A run of pages of a pool, of 64 words each: the first, and how many.
#[derive(Clone, Copy, Debug, PartialEq, Eq)]
pub struct Extent {
    pub first: u32,
    pub pages: u32,
}
