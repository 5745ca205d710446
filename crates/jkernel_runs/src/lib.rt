//! Runs a script over a tree of folders, a domain each, or the demo of a seed: words, files and two sinks in, a status out.
//! The contract of `jkernel` says that what is printed is the text of a run of the machine that the definitions describe.
//! `run_on` is such a run on the words and the files of the system, over two sinks that the caller hands in: a program
//! hands in its streams.
#![tactic(auto)]

mod demo;
mod ends;
mod events;
mod opening;
mod program;
mod scripts;
mod status;
mod stop;
mod system_run;

pub use program::jkernel;
pub use status::Status;
pub use system_run::run_on;
