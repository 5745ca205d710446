//! Copies between two heaps and within one, over a store that keeps its objects in vectors: a table of cases, and random graphs. Each
//! copy is held beside its source by a table of pairs, which the copy itself doesn't have. The crate has tests alone.
#![tactic(auto)]

#[cfg(test)]
mod case_tests;
#[cfg(test)]
mod heaps;
#[cfg(test)]
mod pairs;
#[cfg(test)]
mod places;
#[cfg(test)]
mod random_tests;
#[cfg(test)]
mod worlds;
