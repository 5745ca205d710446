//! What a domain has for itself beside its heap: how far each of its classes is initialised, their static fields, the text
//! objects of its literals, and the objects that stand in its heap from the opening on.
#![tactic(auto)]

mod class_parts;
mod first_fields;
mod in_order;
mod known_texts;
mod literals;
mod looking;
mod making;
mod missing_texts;
mod own;
mod statics;

pub use looking::look;
pub use own::Own;
