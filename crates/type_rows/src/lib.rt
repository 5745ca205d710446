//! The verifier's row of each instruction: what it asks of the types in the frame before it, and which it leaves.
#![tactic(auto)]

mod code_view;
mod demands;
mod entries;
mod fresh;
mod groups;
mod instructions;
mod locals;
mod operands;
mod rows;
mod shapes;
mod stacks;
mod starts;

pub use code_view::CodeView;
pub use groups::{is_store, leaves_line};
pub use rows::step;
pub use starts::{caught_value, start_frame};
