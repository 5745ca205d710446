//! What steps of a machine rest on, below the rows of instructions: what loading says of the records of all classes, of their code, and of
//! what names mean in a domain; what is known where an instruction is done, and what it must keep; heaps that grow, in which no name loses
//! its object; objects as a store has them; and graphs of objects with their copies. There is no code here but that of laws: functions that
//! do nothing, whose contracts are theorems on the definitions.
#![tactic(auto)]

pub mod graphs;
pub mod grown_heaps;
pub mod stored_objects;
