//! Whole runs over files and sinks in memory with what `case_check` can't say: other words than a root and a script, reads and writes that
//! fail, and the demo. The crate has tests alone.
#![tactic(auto)]

#[cfg(test)]
mod demo_tests;
#[cfg(test)]
mod run_tests;
#[cfg(test)]
mod test_classes;
