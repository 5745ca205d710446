//! Descriptors of class files, as `(IJ)V`: from their UTF-16 units to the types of fields and methods, or how far they go
//! well.
#![tactic(auto)]

mod argument_slots;
mod error;
mod fields;
pub mod laws;
mod letters;
mod methods;
mod names;

pub use argument_slots::slots;
pub use error::DescriptorError;
pub use fields::field_type;
pub use methods::method_type;
