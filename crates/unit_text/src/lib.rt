//! Texts of class files. A class file spells names and literals in modified UTF-8, a form of Java's own; here it is read as
//! the UTF-16 code units that the texts stand for, or the place is found at which it is none.
#![tactic(auto)]

mod judge;
mod units;

pub use judge::bad_encoding;
pub use units::{UnitsError, units_of};
