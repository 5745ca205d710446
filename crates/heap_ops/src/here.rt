//! Where an instruction runs.

use domain_resolver::World;
use jk_model::{DomainId, SegmentNo};
use step_contents::StandsAt;

/// Where an instruction runs: in which world, domain and segment, and at which place of its method's code.
#[derive(Clone, Copy)]
pub(crate) struct Here<'a> {
    pub(crate) world: &'a World,
    pub(crate) domain: DomainId,
    pub(crate) segment: SegmentNo,
    pub(crate) at: &'a StandsAt<'a>,
}
