//! What the methods of the system classes do, in `specs/`: what each method of the table means, and what it makes of its receiver,
//! of its arguments and of what its domain has inside. They run in one step and without a frame. Of package jk the methods that
//! touch one domain alone are whole, and the others ask for what is done elsewhere. The code is that of plain types, of laws and of
//! worked examples.
#![tactic(auto)]

pub mod examples;
pub mod laws;
mod meanings;

pub use meanings::{Shown, SystemMeaning};
