//! Heaps and what works on them: in `specs/` the definitions of what objects cost and how they are made, of capabilities as
//! data, of instances, of what is raised, and of what an instruction works on and leaves to be done. The code is that of plain
//! types, and of laws and worked examples of the definitions.
#![tactic(auto)]

pub mod examples;
pub mod laws;
mod shapes;
pub mod system_classes;

pub use shapes::{Shape, Unwound};
