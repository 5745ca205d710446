//! How the end of a domain takes its segments out of all threads.

ghost use Rattle.std.specs.Prelude.{◌≡◌, ◌<◌, List};
ghost use Rattle.jk_model_heaps.specs.Capabilities.{CapRange};
ghost use Rattle.thread_segments.specs.DomainEntries.{AreCounted};
ghost use Rattle.thread_segments.specs.DomainsEnding.{AreRecounted, after_end, with_most};

use crate::domains::{DomainEntry, count_end};
use jk_model::DomainId;
use thread_stacks::Threads;

/// Takes the segments of a domain out of all threads, and counts the threads that end with them where they were started. Where that is a
/// domain that has ended, there is room for one thread fewer. It takes a logarithm for each of these segments.
pub(crate) fn take_out_all(threads: &mut Threads, domains: &mut Vec<DomainEntry>, d: DomainId)
    requires counted { (ranges : List CapRange) × AreCounted domains.old.items ranges threads.old }
    requires home { d.0 < threads.old.domains }
    ensures left { threads.new ≡ with_most threads.new.most (after_end d threads.old) }
    ensures recounted { AreRecounted domains.old.items domains.new.items threads.old threads.new }
{
    while let Some(taken) = threads.take_out(d) {
        if let Some(home) = taken.ended {
            let room = count_end(domains, home);
            threads.release_threads(room);
        }
    }
}
