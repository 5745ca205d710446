//! The lines of a domain that ends.

ghost use Rattle.std.specs.Prelude.{◌≡◌, ◌++◌, List as AList, Some};
ghost use Rattle.jk_model.specs.declared.output.Line.{Line};
ghost use Rattle.jk_model_classes.specs.Worlds.{DomainRecord, domain_of};
ghost use Rattle.machine_parts.specs.EndedParts.{ended_threads, lines_of_end};
ghost use Rattle.thread_segments.specs.Asked.{IsLiveDomain};
ghost use Rattle.kernel_events.specs.PrintedLines.{Prints, SinkState, sink};
ghost use Rattle.domain_ends.specs.EndingLines.{lines_of_threads};
ghost use Rattle.domain_ends.specs.FollowingLines.{PrintsMore};

use domain_resolver::World;
use jk_model::DomainId;
use jk_outside::{LineRef, Sink, SinkFailed, print_next};
use thread_segments::Shared;

/// Prints that a live domain was killed, and then which threads the end of it ends, in rising number. Where the sink fails, nothing more is
/// printed.
pub(crate) fn tell_end<S: Sink>(
    w: &World,
    shared: &Shared,
    d: DomainId,
    out: &mut S,
) -> Result<(), SinkFailed>
    requires named { (names : DomainRecord) × (domain_of w.now d ≡ Some names) }
    requires live { IsLiveDomain shared.now d }
    ensures whole { (names : DomainRecord) → domain_of w.now d ≡ Some names
        → Prints (sink (S.bytes out.old) (S.pieces out.old) (S.faults out.old)) (sink (S.bytes out.new) (S.pieces out.new) (S.faults out.new))
        result (lines_of_end names.name (ended_threads d shared.now)) }
    ensures more { (names : DomainRecord) → domain_of w.now d ≡ Some names
        → PrintsMore (sink (S.bytes out.old) (S.pieces out.old) (S.faults out.old))
        (sink (S.bytes out.new) (S.pieces out.new) (S.faults out.new)) result (lines_of_end names.name (ended_threads d shared.now)) }
{
    shared.is_sound();
    let Some(names) = w.domain(d) else {
        unreachable!();
    };
    let domain = names.name().as_slice();
    let so_far = print_next(Ok(()), LineRef::Killed { domain }, out);
    tell_ended(shared, d, so_far, out)
}

/// Prints which threads the end of a live domain ends, in rising number, after other lines. `so_far` is what came of those.
fn tell_ended<S: Sink>(
    shared: &Shared,
    d: DomainId,
    so_far: Result<(), SinkFailed>,
    out: &mut S,
) -> Result<(), SinkFailed>
    requires live { IsLiveDomain shared.now d }
    ensures { (from : SinkState) (before : AList Line)
        → Prints from (sink (S.bytes out.old) (S.pieces out.old) (S.faults out.old)) so_far before
        → Prints from (sink (S.bytes out.new) (S.pieces out.new) (S.faults out.new)) result (before ++ lines_of_threads (ended_threads d shared.now)) }
{
    shared.is_sound();
    let mut told = so_far;
    let mut above = 0;
    while let Some(thread) = shared.next_ending(d, above) {
        told = print_next(told, LineRef::EndedByKill { thread }, out);
        above = thread.0;
    }
    told
}
