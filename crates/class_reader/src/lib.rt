//! Reads class files: which bytes are one, which record they stand for, and the first fault of bytes that are none. The
//! bodies of Code attributes are read too.
#![tactic(auto)]

mod class;
mod code;
mod sections;

pub use class::{MAGIC, ReadRefusal, is_version, read_class};
pub use code::{CodeRefusal, read_code};
