//! The constant pool of a class file, the table of the names, numbers and references that all else in the file points to:
//! its entries, or the first index at which it is none.
#![tactic(auto)]

mod entries;
mod judge;
mod pool;
mod tags;

pub use judge::is_good_pool;
pub use pool::{Pool, PoolError, read_pool};
