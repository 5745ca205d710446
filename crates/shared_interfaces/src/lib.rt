//! The rules on classes that domains share, C25 and C26, and on the shape of remote interfaces, C27, over the classes of a
//! folder that is loaded. Nothing here takes memory. `docs/RULES.md` states the rules.
#![tactic(auto)]

mod class_rule;
mod earliest;
pub mod laws;
mod path_order;
mod references;
mod remote;
mod remote_numbers;
mod share;

pub use jk_model_classes::ClassFault;
pub use path_order::is_path_before;
pub use remote::remote_fault;
pub use share::share_fault;
