//! Laws of the definitions of instructions: what an instruction makes of a frame is determined by what is before it, and two
//! objects that are made of one kind in one heap differ in their names alone. There is no code here but that of laws: functions
//! that do nothing, whose contracts are theorems on the definitions.
#![tactic(auto)]

pub mod laws;
