//! The parts of which a kernel is made: the classes and names of all domains, the own state of each live one, what they share, and the
//! two stores. Contracts see the machine for which they stand.
#![tactic(auto)]

mod main_type;
mod parts;

pub use parts::KernelParts;
