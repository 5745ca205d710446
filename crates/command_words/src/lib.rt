//! The words after the program's name, read with `clap`: a folder and a script, or the seed of the demo.
//! The command is a simple one of that crate, without help and version: `CommandLine` has it, and says what words it takes.
#![tactic(auto)]

mod calls;
mod command;
mod error;

pub use calls::{Call, call_of};
pub use error::CallError;
