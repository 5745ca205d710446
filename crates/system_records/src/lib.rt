//! The records of the system classes, made from their table in the form in which loaded classes are kept: what loading has
//! as its first classes.
#![tactic(auto)]

mod members;
mod numbers;
mod records;
mod texts;
mod types;

pub use records::system_record;
