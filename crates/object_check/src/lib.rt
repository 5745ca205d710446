//! Tests of the tables of numbers, of which types are below which, and of what arrays of arrays cost. The crate has tests alone.
#![tactic(auto)]

#[cfg(test)]
mod number_table_tests;
#[cfg(test)]
mod type_tests;
