//! What the least typing of a method has in its frames: no interface, since instructions push none, and no class that the
//! method's classes don't mention, so that more classes behind leave it the least one. There is no code here but that of laws:
//! functions that do nothing, whose contracts are theorems on the definitions.
#![tactic(auto)]

pub mod laws;
