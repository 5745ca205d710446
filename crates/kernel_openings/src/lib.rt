//! Domains that are opened, and threads that start, over the parts of a kernel.
#![tactic(auto)]

mod adding;
mod answers;
mod class_names;
mod first_segments;
mod joining;
mod main_methods;
mod opening;
mod standing_objects;
mod start_words;
mod starting;
mod store_rooms;

pub use adding::add_domain;
pub use answers::{AddAnswer, Beginning};
pub use starting::start;
