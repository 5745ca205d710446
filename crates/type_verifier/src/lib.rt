//! The verifier: whether a method's code has a typing, that is types for all places that agree with each instruction, and
//! the least one. It keeps the frames of leaders alone, the places at which control comes together; from each leader whose
//! frame rose it goes over the instructions up to the next one.
#![tactic(auto)]

mod covers;
mod handing;
mod jumping;
mod leading;
mod narrowing;
mod progress;
mod ranges;
mod storing;
mod tasks;
mod unrolling;
mod verifying;
mod visiting;

pub use verifying::{has_typing, verify};
