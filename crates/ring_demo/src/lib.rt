//! The demo of a seed: folders of class files in memory, and the events of a script over them. Some domains stand in a ring, and each offers a
//! capability to the one before it. In each a program makes a ring of nodes and hands it on around the domains, on copies; it comes back with a
//! greater sum. `DemoTree` and `DemoEvents` say what the folders and the events are, and `Measures` what a seed decides.
#![tactic(auto)]

mod class_files;
mod events;
mod files;
mod measures;
mod tree;

pub use class_files::{GO_CLASS, HOP_CLASS, IMPL_CLASS, MAIN_CLASS, NODE_CLASS};
pub use events::demo_events;
pub use files::DemoFiles;
pub use measures::MAX_SEED;
pub use tree::{ROOT, demo_files};
