//! The rules L6 and L7 on the lines of a folder's `resolver.txt`, which says what a domain shares and imports; and what
//! names mean outside of the folder: the system classes, and what the lines bring in. `docs/RULES.md` states the rules.
#![tactic(auto)]

mod folder;
mod grammar;
mod imports;
mod judged;
mod outer;
mod system_names;

pub use outer::{OuterNames, ResolverFault, outer_names};
