//! The lines of a text and the words of a line, one after the other, for whoever reads a script or a `resolver.txt`.
//! Both are views of the bytes that are handed in: nothing is copied, and no memory is taken.
#![tactic(auto)]

mod lines;
mod words;

pub use lines::next_line;
pub use words::next_word;
