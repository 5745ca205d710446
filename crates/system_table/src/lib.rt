//! The system classes, those of `java.lang`, `java.io` and package `jk` that every domain knows: their order, members and
//! flags, and their numbers by name.
#![tactic(auto)]

mod entry;
mod find;
pub mod laws;
mod table;

pub use entry::{SystemClass, SystemField, SystemMethod};
pub use find::{class_named, count, system_class};
