//! The files of a domain's folder that count: its class files at all depths, in the order of their paths, and
//! `resolver.txt`. What is too large or too deep is refused as soon as that is seen, and the rest isn't read.
#![tactic(auto)]

mod class_files;
mod found;
mod listing;
mod paths;
mod reading;
mod walk;

pub use reading::{FolderError, read_folder};
