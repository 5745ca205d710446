//! The class files of a folder, each read and judged by itself: the first of the rules C1 to C17 that one of them breaks, or
//! all of them with the texts of their pools.
#![tactic(auto)]

mod faults;
mod folder_class;
mod judging;
mod reading;
mod whole;

pub use faults::{ClassFilesError, FileFault};
pub use folder_class::FolderClass;
pub use whole::class_files;
