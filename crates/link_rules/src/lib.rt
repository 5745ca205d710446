//! The rules on what the references of a class find, judged where all classes of its folder have records: C20, members that
//! are missing or of the wrong sort; C21, access; C22, final methods that are overridden.
#![tactic(auto)]

mod access;
mod final_fields;
mod final_methods;
mod folder_finals;
mod made_classes;
mod members;
mod met_finals;
mod missing_members;
mod numbers;
mod refused_entries;
mod spans;
mod wrong_members;

pub use access::access_fault;
pub use folder_finals::FolderFinals;
pub use members::member_fault;
