//! What domains share as plain lists, from which it can be made anew: what an image of a machine has of it.

use jk_model::{CapId, ClassId, DomainId, List, Quotas, Units};
use thread_stacks::ThreadPart;

/// What domains share, but for the stubs.
#[derive(Drop)]
pub struct SharedParts {
    /// The numbers of the next thread and of the next segment.
    pub next_thread: u32,
    pub next_segment: u64,
    /// All that were ever admitted, each at its number.
    pub domains: List<DomainPart>,
    /// All that were given out, rising by number.
    pub caps: List<CapPart>,
    /// In the order of binding.
    pub names: List<NamePart>,
    /// The live ones, rising by number.
    pub threads: List<ThreadPart>,
}

/// A domain.
#[derive(Drop)]
pub struct DomainPart {
    pub live: bool,
    pub quotas: Quotas,
    /// The first number of its range of capabilities.
    pub first_cap: u32,
    /// None where it has no budget.
    pub steps_left: Option<u32>,
}

/// A capability.
#[derive(Drop)]
pub struct CapPart {
    pub number: CapId,
    pub owner: DomainId,
    /// The name of an object in the owner's heap.
    pub target: u32,
    pub revoked: bool,
    /// The class of the target.
    pub class: ClassId,
}

/// A bound name.
#[derive(Drop)]
pub struct NamePart {
    pub text: Units,
    pub cap: CapId,
    pub binder: DomainId,
}
