//! What the instructions on objects, arrays, static fields and literals do: in `specs/` a row for each group of them. They say what
//! one instruction makes of the frame that runs it and of its domain's inside, and what is done next. The only code is that of laws and
//! worked examples: functions that do nothing, whose contracts are theorems on the definitions.
#![tactic(auto)]

pub mod examples;
pub mod laws;
