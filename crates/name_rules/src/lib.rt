//! The rules on the names of classes in a folder: C18, a class that isn't known, and C19, what a class may not extend or
//! list; and the order in which the classes of a folder are put behind those that are loaded.
#![tactic(auto)]

mod edges;
mod folder_order;
mod heights;
mod hierarchies;
mod known_names;
mod marks;
mod mentions;
mod names;
mod rings;
mod scope;

pub use folder_order::class_order;
pub use hierarchies::first_bad_hierarchy;
pub use known_names::first_missing_class;
