//! What the step crates share. The words in which they say what they do: what the two stores and the domain's own state hold of a
//! segment's run, what they become, when a step function may be called, and the setting in which it runs. And where a frame stands in its
//! method's code, what the instruction there leads to, which class it needs, and which of the step crates does it.
#![tactic(auto)]

mod kinds;
mod operands;
mod places;

pub use kinds::{Kind, is_access, kind_of};
pub use operands::{field_of, link_of, method_of, needed_by, text_of, type_named};
pub use places::{StandsAt, stands_at};
