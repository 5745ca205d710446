//! Loops over a store of objects, each proved once for every store. Nothing here takes memory, and each call takes time in proportion
//! to the units, items or words that it is about.
#![tactic(auto)]

mod array_trees;
mod fits;
mod items;
mod texts;

pub use array_trees::{arrays_words, element_of, make_arrays};
pub use fits::fitting_items;
pub use items::copy_items;
pub use texts::{copy_units, make_text, text_len, write_units};
