//! Folders of class files: the plain types in which they are read, and, in `specs/`, the definitions that the contracts of
//! the crates above cite: what stands in a folder, the record that a class file gives, in which order the classes of a
//! folder are put behind those that are loaded, the first rule that a folder breaks, and what an accepted folder adds.
#![tactic(auto)]

mod files;

pub use files::{FolderFile, FolderFiles};
