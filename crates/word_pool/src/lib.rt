//! A pool of 32-bit words in one block of memory, which is taken once and not filled. A word can be read once it is cleared.
//! The heaps of all domains are to stand in one.
#![tactic(auto)]

mod block;
mod pool;

// A contract can name a pool only if the type of its field is exported.
#[doc(hidden)]
pub use block::Block;
pub use pool::WordPool;
