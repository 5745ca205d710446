//! Stores of objects. A heap belongs to one domain, which pays for each object in words. The trait `ObjectStore` says what a store
//! holds and what its calls do.
#![tactic(auto)]

mod store;

pub use store::ObjectStore;
