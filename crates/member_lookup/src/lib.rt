//! How members are found by name and type, who may access them, and which method a call runs: the Java Virtual
//! Machine Specification, 5.4.3, 5.4.4, and section 6 on invokevirtual. Nothing here takes memory.
#![tactic(auto)]

mod access;
mod find;
mod flags;
mod packages;
mod records;
mod selection;

pub use access::{may_access, may_access_class};
pub use find::{find_field, find_field_by, find_method, find_method_by};
pub use jk_model_classes::Member;
pub use packages::in_one_package;
pub use records::{field_record, is_interface, method_record};
pub use selection::{overrides, select};
