//! The types of frames: what the verifier knows of locals and operand stacks, and, in `specs/`, the definitions that
//! the contracts of the crates above cite: which type fits which, what an instruction asks of a frame and makes
//! of it, and when a method has a typing. The code here is that of plain types and of laws of the definitions.
#![tactic(auto)]

mod frames;
pub mod laws;

pub use frames::{Demand, FrameType, Typing, VType};
