//! The rules on the classes of a folder where they stand among all others: C20 to C27. `docs/RULES.md` states the rules.
#![tactic(auto)]

mod by_file;
mod code;
pub mod laws;
mod links;
mod shared;
mod sizes;
mod typings;

pub use code::code_fault;
pub use links::link_fault;
pub use shared::shared_fault;
