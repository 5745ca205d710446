//! Where a method of the system is called.

use domain_resolver::World;
use jk_model::{DomainId, SegmentNo};

/// Where a method is called: in which world, domain and segment.
#[derive(Clone, Copy)]
pub(crate) struct Here<'a> {
    pub(crate) world: &'a World,
    pub(crate) domain: DomainId,
    pub(crate) segment: SegmentNo,
}
