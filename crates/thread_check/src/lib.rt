//! Tests of what domains share: which threads end with a domain and what its end leaves of the others, what is refused to a domain and
//! to a thread, and what is made anew of plain lists. The crate has tests alone.
#![tactic(auto)]

#[cfg(test)]
mod acts;
#[cfg(test)]
mod answers;
#[cfg(test)]
mod asking;
#[cfg(test)]
mod ending_tests;
#[cfg(test)]
mod playing;
#[cfg(test)]
mod questions;
#[cfg(test)]
mod rebuilding_tests;
#[cfg(test)]
mod refusal_tests;
#[cfg(test)]
mod rows;
