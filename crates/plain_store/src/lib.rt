//! A store of objects that keeps the objects of each domain in vectors of its own.
#![tactic(auto)]

mod domain_heap;
mod store;
mod zeros;

pub use store::PlainStore;
