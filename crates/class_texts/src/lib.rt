//! The texts of a class file's pool, each decoded once and kept with its fingerprint, so that names are looked up, shared and
//! compared without going over their bytes again.
#![tactic(auto)]

mod texts;

pub use texts::ClassTexts;
