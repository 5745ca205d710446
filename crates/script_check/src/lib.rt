//! Tests of `script_reader`, `command_words` and `ring_demo`, in a crate of their own, so that these are not proved a second time for them.
#![tactic(auto)]

#[cfg(test)]
mod command_tests;
#[cfg(test)]
mod demo_tests;
#[cfg(test)]
mod demo_texts;
#[cfg(test)]
mod rows;
#[cfg(test)]
mod script_tests;
