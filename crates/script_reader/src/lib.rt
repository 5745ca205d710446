//! Reads scripts, which say what happens in a run: the events that the lines stand for, or the first line at fault and what
//! is wrong with it. `docs/FORMATS.md` has the grammar.
#![tactic(auto)]

mod commands;
mod error;
mod line;
mod number;
mod options;
mod script;
mod words;

pub use error::ScriptError;
pub use number::number_within;
pub use script::read_script;
