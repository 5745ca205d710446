//! Writes class files, the way back from `class_reader`: which records are the record of one, and its bytes; and the bodies
//! of Code attributes. The assembler stands on it.
#![tactic(auto)]

mod class;
mod code;
mod entries;
pub mod laws;
mod lists;
mod numbers;
mod parts;
mod room;
mod slots;

pub use class::{is_writable, write_class};
pub use code::write_code;
pub use lists::append_list;
pub use numbers::{append_u2, append_u4};
pub use parts::Part;
