//! What the instructions of call do: in `specs/` which method a call runs, by the class of the receiver or from the running class's
//! parent upwards, and what becomes of the frame that calls. The only code is that of laws and worked examples: functions that do
//! nothing, whose contracts are theorems on the definitions.
#![tactic(auto)]

pub mod examples;
pub mod laws;
