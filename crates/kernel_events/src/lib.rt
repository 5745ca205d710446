//! What the kernel's calls promise: the first machine, starts, steps, turns, rounds and kills, each with what is printed of it. There is no code
//! here but that of laws: functions that do nothing, whose contracts are theorems on the definitions.
#![tactic(auto)]

pub mod laws;
