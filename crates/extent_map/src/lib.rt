//! Hands out runs of pages by first fit, and takes them back: which part of a pool is whose.
#![tactic(auto)]

mod free_runs;
mod map;
mod runs;

pub use jk_model::Extent;
pub use map::ExtentMap;
