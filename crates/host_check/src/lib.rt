//! A host that calls the kernel itself and has no script: it opens domains, starts threads, gives each live thread a budget of steps, and ends
//! a guest that doesn't let go. Beside each call stands what it answers, and beside all of them what is printed. The crate has tests alone.
#![tactic(auto)]

#[cfg(test)]
mod guests;
#[cfg(test)]
mod host;
#[cfg(test)]
mod host_tests;
#[cfg(test)]
mod round_tests;
