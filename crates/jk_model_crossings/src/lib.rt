//! The definitions of all that touches two domains at once, in `specs/`: a call through a capability and what refuses it, what goes back to
//! the segment below, a throwable on its way down, and the end of a domain. What passes from one domain to the other passes as a
//! copy; each half of it, that of the domain which gives and that of the domain which takes, is stated by itself. There is no code
//! here but that of worked examples and of a law: functions that do nothing, whose contracts are theorems on the definitions.
#![tactic(auto)]

pub mod examples;
pub mod laws;
