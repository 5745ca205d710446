//! Members of a class by name and type: where the next field or method of a name and a type stands, without
//! a walk over the others. An index is in the order of fingerprints, so that a search is a search in order
//! whatever names a class has, and nothing long is compared but what is found.
#![tactic(auto)]

mod entries;
mod field_index;
mod keys;
mod marks;
mod method_index;

pub use field_index::FieldIndex;
pub use keys::{FieldKey, MethodKey};
pub use method_index::MethodIndex;
