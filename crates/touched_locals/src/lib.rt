//! The code of a method over the locals that it can touch: the first ones, which hold what a call gives, and those that an
//! instruction names, with the locals beside them. In every other local each least typing has nothing that could be used. So
//! a code has a typing exactly where it has one over these locals.
#![tactic(auto)]

mod kept;
pub mod laws;
mod renaming;

pub use renaming::narrow_code;
