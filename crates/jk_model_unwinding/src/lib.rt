//! Where a throwable is caught, in `specs/`: which handler of a frame catches it, what becomes of the frames that it leaves, and how the
//! unwinding of a segment ends. The code is that of worked examples of the definitions.
#![tactic(auto)]

pub mod examples;
