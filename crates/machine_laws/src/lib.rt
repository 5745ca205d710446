//! The laws of whole machines. `folders`: with the classes and names of an accepted folder behind them, classes and names stay sound.
//! `openings`: there is an opened domain wherever 44 words fit, with it all is known of the machine that was known, and another folder may be
//! loaded after it. `crossings` and `progress`: calls from one domain to another, what comes back from them, requests of package jk and ends of
//! domains. `machines`: the first machine, starts, a segment that has run, and whole steps; and, as long as no folder refers to package jk, turns
//! and rounds. `confined`: what a whole step changes outside of its own domain. There is no code here but that of laws: functions that do nothing,
//! whose contracts are theorems on the definitions.
//!
//! `specs/` says more than is proved: the functions of these modules have what is proved.
#![tactic(auto)]

pub mod confined;
pub mod crossings;
pub mod folders;
pub mod machines;
pub mod openings;
pub mod progress;
