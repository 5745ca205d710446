//! Which catch entries cover which places of a code, as a tree over the places. On level 0 of the tree each place is a node,
//! and a node of a higher level stands over two of the level below. Each entry stands at a few nodes, which are over
//! exactly the places that it covers: so what holds at a place is handed to all its entries on one way up, however many
//! entries cover however many places.
#![tactic(auto)]

mod tree;

pub use tree::CoverTree;
