//! From class files to the records of loaded classes: names become numbers of classes, byte offsets become places of
//! instructions, and references become the members that they find.
#![tactic(auto)]

mod classes;
mod code;
mod constants;
mod entry_names;
mod found;
mod kinds;
mod linking;
mod links;
mod marks;
mod members;
mod records;
mod references;
mod said;
mod scope;
mod thrown;
mod types;

pub use links::class_links;
pub use records::class_record;
pub use thrown::thrown_classes;
