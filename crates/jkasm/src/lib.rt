//! The assembler: makes class files from a text, so that tests can have any class file, a malformed one too.
//! `docs/FORMATS.md` has its grammar.
#![tactic(auto)]

mod assembler;
mod class_builder;
mod code_writer;
mod field_builder;
mod labels;
mod method_builder;
mod pool;

pub use assembler::{AsmError, assemble};
