//! The end of a domain, by the script or by itself: its lines are printed, and it goes from each of the parts of a kernel.
#![tactic(auto)]

mod ending;
mod lines;

pub use ending::end_domain;
