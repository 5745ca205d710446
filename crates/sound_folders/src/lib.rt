//! The classes and names of an accepted folder may be put behind those that are there: with them, each reference still leads
//! where its domain's names say, and each method has its typing. There is no code here but that of laws: functions that do
//! nothing, whose contracts are theorems on the definitions.
#![tactic(auto)]

pub mod laws;
