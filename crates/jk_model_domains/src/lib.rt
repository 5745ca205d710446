//! One domain at run time: the states of its classes and other parts that a kernel keeps of it, and, in `specs/`, the
//! definitions that the contracts of the crates above cite: which value fits which type, objects and frames, what
//! they cost, a domain's own state, and what instructions do. The code here is that of plain types and of laws of the
//! definitions.
#![tactic(auto)]

pub mod laws;
mod states;

pub use states::{ClassState, LiteralImage, Look, OwnClass, OwnParts};
