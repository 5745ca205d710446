//! Stubs. A capability shows of its target's class only the remote interfaces, those below `jk/Remote`; the stub of a class
//! lists them. Also which method of the target a call through a capability runs.
#![tactic(auto)]

mod remote;
mod stubs;
mod targets;

pub use jk_model_classes::Stub;
pub use stubs::stub_of;
pub use targets::target_of;
