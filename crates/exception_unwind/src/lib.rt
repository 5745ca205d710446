//! Throwables: which object is raised, and which frame of a segment catches it, in whatever stores objects and frames stand.
#![tactic(auto)]

mod catching;
mod handlers;
mod leaving;
mod raising;
mod unwinding;

pub use catching::catch_here;
pub use raising::raised;
pub use unwinding::unwind;
