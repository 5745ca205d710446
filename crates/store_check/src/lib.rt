//! Tests of the stores of words, of pages, of capabilities and of objects. The crate has tests alone, so that none of those crates
//! is proved a second time for its tests.
#![tactic(auto)]

#[cfg(test)]
mod capability_table_tests;
#[cfg(test)]
mod extent_map_tests;
#[cfg(test)]
mod plain_store_tests;
#[cfg(test)]
mod word_pool_tests;
