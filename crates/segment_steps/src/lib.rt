//! One step of one segment, over the stores and the domain's own state: what its thread meets there, and what the need or the
//! instruction of the top frame does. What reaches past the segment is the caller's: a call through a capability, a lowest frame
//! that is left, and the end of the domain.
#![tactic(auto)]

mod acting;
mod falling_needs;
mod in_frame;
mod instructions;
mod leaving;
mod meeting;
mod needed_classes;
mod raising;
mod returning;
mod went;
mod working;

pub use acting::act;
pub use in_frame::{run_in_frame, stand};
pub use leaving::leave;
pub use meeting::{Meeting, Runs, meet};
pub use raising::raise_here;
pub use went::Went;
pub use working::{Worked, work};
