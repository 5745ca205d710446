//! What is counted of each domain.

ghost use Rattle.std.specs.Prelude.{◌≡◌, ◌<◌, ◌≤◌, IfOk, length, slice_get, Some, sum_by};
ghost use Rattle.thread_segments.specs.declared.domains.DomainEntry.{DomainEntry as AnEntry};
ghost use Rattle.jk_model.specs.Capabilities.{last_number};
ghost use Rattle.thread_segments.specs.StateParts.{entry_parts, numbers_of};
ghost use Rattle.thread_segments.specs.DomainsEnding.{CountsEnd, EndsEntry};

use crate::parts::DomainPart;
use jk_model::{DomainId, List, OutOfMemory, Quotas};
use std::alloc::Global;

/// A domain that was admitted.
#[derive(Drop)]
pub(crate) struct DomainEntry {
    /// False after its end.
    pub(crate) live: bool,
    pub(crate) quotas: Quotas,
    /// How many steps it may still take; none where it has no budget.
    pub(crate) steps_left: Option<u32>,
    /// How many live threads were started in it.
    pub(crate) threads: u32,
    /// How many names it bound.
    pub(crate) names: u32,
}

/// Domains as a plain list. The range of each begins directly behind that of the one before it, and the first at 1.
pub(crate) fn domain_parts(
    alloc: Global,
    domains: &[DomainEntry],
) -> Result<List<DomainPart>, OutOfMemory>
    requires { sum_by numbers_of domains.now ≤ last_number }
    ensures { IfOk result (λ parts. parts ≡ entry_parts 1 domains.now) }
{
    let mut parts = List::new(alloc);
    let mut first = 1;
    for entry in domains {
        parts.push(DomainPart {
            live: entry.live,
            quotas: entry.quotas,
            first_cap: first,
            steps_left: entry.steps_left,
        })?;
        first += entry.quotas.caps;
    }
    Ok(parts)
}

/// The room that a domain leaves when it ends.
#[derive(Clone, Copy)]
pub(crate) struct RoomLeft {
    /// For threads that it did not start.
    pub(crate) threads: u32,
    pub(crate) segments: u32,
    pub(crate) names: u32,
}

/// Counts a thread of a domain no longer, and answers how much room it leaves: where the domain has ended before, no other takes its place.
pub(crate) fn count_end(domains: &mut Vec<DomainEntry>, home: DomainId) -> u32
    requires there { home.0 < length domains.old.items }
    requires some { (e : AnEntry) → slice_get domains.old.items home.0 ≡ Some e → 0 < e.threads }
    ensures { CountsEnd domains.old.items domains.new.items home result }
{
    let entry = &mut domains[home.0 as usize];
    entry.threads -= 1;
    if entry.live { 0 } else { 1 }
}

/// Ends the entry of a domain, whose segments and names are gone, and answers the room that it leaves.
pub(crate) fn end_entry(domains: &mut Vec<DomainEntry>, d: DomainId) -> RoomLeft
    requires there { d.0 < length domains.old.items }
    requires within { (e : AnEntry) → slice_get domains.old.items d.0 ≡ Some e → e.threads ≤ e.quotas.threads }
    ensures { EndsEntry domains.old.items domains.new.items d result }
{
    let entry = &mut domains[d.0 as usize];
    entry.live = false;
    entry.names = 0;
    RoomLeft {
        threads: entry.quotas.threads - entry.threads,
        segments: entry.quotas.chunks,
        names: entry.quotas.names,
    }
}
