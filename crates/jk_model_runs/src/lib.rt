//! The definitions of what a machine does, in `specs/`: one step of a thread, a start, a kill, a run over a list of events; and what holds
//! of it at every moment: that it is sealed. The only code is that of laws and of worked examples: functions that do nothing, whose contracts
//! are theorems on the definitions.
#![tactic(auto)]

pub mod examples;
pub mod laws;
