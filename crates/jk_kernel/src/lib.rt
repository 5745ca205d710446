//! The kernel: classes, domains with heaps of their own, and threads, and the calls that make the events of a script happen. Its contracts
//! say that each call does what the definition of its event says, and that the machine is whole at every moment: it is sealed, so that what
//! a domain holds names nothing of another's heap, and its calls are answered.
#![tactic(auto)]

mod kernel;
mod killing;
mod laws;
mod next_threads;
mod opening;
mod rounds;
mod starting;
mod turns;

pub use kernel::Kernel;
pub use kernel_openings::AddAnswer;
