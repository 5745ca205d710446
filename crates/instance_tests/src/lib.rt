//! Which values are instances of which types, by the real hierarchy, interfaces included: as casts, stores into arrays, catches and
//! copies of arrays ask. Nothing here takes memory.
#![tactic(auto)]

mod objects;
mod types;
mod values;

pub use objects::{is_object_a, type_of};
pub use types::{class_type, is_a};
pub use values::{CapabilityTests, is_instance, is_null_or_instance, run_class};
