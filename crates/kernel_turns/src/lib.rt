//! One step of one thread over the parts of a kernel. `laws`: what its top segment does over the contents of the stores, the payment, the flags
//! that fall, and what follows of the thread are together a step of the machine for which the parts stand, and the parts are sound after it;
//! functions that do nothing, whose contracts are theorems on the definitions. `stepping`: a step in which something is pending, and one in
//! which the segment acts. `whole_steps`: a whole step, whatever it is. `frame_steps`: as many steps as the top segment does alone,
//! without a look at the other parts. `running`: where a thread runs. `own_states`: what is done in a domain's own state among those of all.
//! `following`: what follows where a segment was left, calls another domain, or ends its own. `going_down`: how what is raised goes from
//! segment to segment.
#![tactic(auto)]

mod following;
mod frame_steps;
mod going_down;
pub mod laws;
mod own_states;
mod running;
mod stepping;
mod whole_steps;

pub use frame_steps::{Ran, run_segment};
pub use whole_steps::step;
