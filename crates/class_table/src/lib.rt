//! The records of all classes: what stands above a class, what an object of it is made of, and where a class
//! has a member. A class stands after its parent and its interfaces, so what is worked out of them when a
//! class is added stays true.
#![tactic(auto)]

mod entry;
pub mod laws;
mod layouts;
mod new_entry;
mod own_places;
mod places;
mod reading;
mod table;
mod upwards;
mod walks;

pub use layouts::Layout;
pub use member_index::{FieldKey, MethodKey};
pub use table::ClassTable;
