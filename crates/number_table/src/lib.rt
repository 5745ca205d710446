//! Tables from numbers to places, with a room for entries that only `make` and `reserve` take memory for: what has a number of its
//! own, as a segment, is found by it in constant time, and to enter or to take out a number can't fail. Tables stand on chains, which
//! serve others too: stacks of numbered nodes, among which nodes move.
#![tactic(auto)]

pub mod chains;
mod entry_table;
mod table;

pub use entry_table::Place;
pub use table::NumberTable;
