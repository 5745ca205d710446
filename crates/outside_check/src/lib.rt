//! Tests of the crates that meet the world outside: files in memory and on a disk, sinks of bytes, lines that go out, and folders
//! that are read. The crate has tests alone, so that none of those crates is proved a second time for its tests.
#![tactic(auto)]

#[cfg(test)]
mod files_tests;
#[cfg(test)]
mod folder_reader_tests;
#[cfg(test)]
mod sinks_tests;
