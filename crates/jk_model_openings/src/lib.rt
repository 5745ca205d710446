//! The definitions of how a domain is opened, in `specs/`: what a `domain` event does by the files of its folder and by what is free, and
//! what a domain has as it begins. The code is that of a worked example.
#![tactic(auto)]

pub mod examples;
