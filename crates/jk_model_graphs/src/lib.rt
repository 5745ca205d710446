//! Graphs of objects and their copies: in `specs/` the definitions of what values reach in a heap, of what may be copied from one
//! domain to another, and of when one graph is a copy of another. There is no code here but that of worked examples: functions that
//! do nothing, whose contracts are theorems on the definitions.
#![tactic(auto)]

pub mod examples;
pub mod laws;
