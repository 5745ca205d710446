//! The definitions of what one segment of one domain does in a step, in `specs/`: what an instruction does by the rows of all groups,
//! which class must be initialised before it, how a class is initialised, and what is raised. They speak of no other domain and of
//! no other segment. The only code is that of a law: a function that does nothing, whose contract is a theorem on the definitions.
#![tactic(auto)]

pub mod laws;
