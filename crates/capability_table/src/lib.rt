//! The table of capabilities, the references through which domains are to call one another: which were given out, whose they
//! are, what they lead to, and whether they are revoked.
#![tactic(auto)]

mod capability;
mod number_range;
mod table;

pub use jk_model::CapStatus;
pub use table::{CapabilityTable, CapsError};
