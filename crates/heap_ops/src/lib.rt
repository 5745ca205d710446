//! What the instructions do that work on objects, arrays, static fields and literals: they change a domain's heap, its own state and
//! the top frame of a segment, in whatever stores these stand. Nothing here takes memory.
#![tactic(auto)]

mod array_trees;
mod arrays;
mod casts;
mod constants;
mod entries;
mod fields;
mod here;
mod literals;
mod making;
mod statics;
mod steps;
mod stored;

pub use constants::set_constants;
pub use steps::{access, step};
