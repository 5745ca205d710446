//! The end of a domain in the parts of a kernel.

ghost use Rattle.std.specs.Prelude.{◌≡◌, ◌<◌, List as AList, None, length, slice_set};
ghost use Rattle.jk_model.specs.declared.descriptors.MethodType.{MethodType};
ghost use Rattle.jk_model.specs.declared.output.Line.{Line};
ghost use Rattle.jk_model_machine_state.specs.Places.{LiveDomain};
ghost use Rattle.jk_model_crossings.specs.DomainEnds.{Terminates};
ghost use Rattle.machine_parts.specs.FittingParts.{AreFittingParts};
ghost use Rattle.kernel_parts.specs.SoundKernels.{AreKernelParts, kernel_machine, parts_of};
ghost use Rattle.kernel_events.specs.PrintedLines.{Prints, sink};
ghost use Rattle.domain_ends.specs.FollowingLines.{PrintsMore};
ghost use Rattle.domain_ends.specs.TidyParts.{AreTidyParts, content_of};

use crate::lines::tell_end;
use class_init::Own;
use domain_resolver::World;
use frame_store::FrameStore;
use jk_model::DomainId;
use jk_outside::{Sink, SinkFailed};
use object_store::ObjectStore;
use thread_segments::Shared;

/// Ends a live domain, and prints its lines: that it was killed, and which threads end with it, in rising number. Its heap goes back whole, its
/// capabilities are revoked, the names that it bound are removed, and its segments are taken out of every thread. Where the sink fails, the
/// domain has ended. It takes no memory, and time in proportion to the domain's segments, with a logarithm, to its capabilities and to the names
/// that are bound.
pub fn end_domain<H: ObjectStore, F: FrameStore, S: Sink>(
    w: &mut World,
    owns: &mut Vec<Option<Own>>,
    shared: &mut Shared,
    heap: &mut H,
    frames: &mut F,
    d: DomainId,
    out: &mut S,
) -> Result<(), SinkFailed>
    requires may { (main : MethodType)
        × AreFittingParts (parts_of (content_of w.old owns.old.items shared.old (H.content heap.old) (F.content frames.old) main))
        × LiveDomain (kernel_machine (content_of w.old owns.old.items shared.old (H.content heap.old) (F.content frames.old) main)) d }
    ensures event { (lines : AList Line)
        × Prints (sink (S.bytes out.old) (S.pieces out.old) (S.faults out.old)) (sink (S.bytes out.new) (S.pieces out.new) (S.faults out.new))
        result lines
        × PrintsMore (sink (S.bytes out.old) (S.pieces out.old) (S.faults out.old))
        (sink (S.bytes out.new) (S.pieces out.new) (S.faults out.new)) result lines
        × ((main : MethodType)
        (l : LiveDomain (kernel_machine (content_of w.old owns.old.items shared.old (H.content heap.old) (F.content frames.old) main)) d)
        → AreFittingParts (parts_of (content_of w.old owns.old.items shared.old (H.content heap.old) (F.content frames.old) main))
        → Terminates (kernel_machine (content_of w.old owns.old.items shared.old (H.content heap.old) (F.content frames.old) main)) l.domain lines
        (kernel_machine (content_of w.new owns.new.items shared.new (H.content heap.new) (F.content frames.new) main))) }
    ensures tidy { (main : MethodType) → AreTidyParts (content_of w.old owns.old.items shared.old (H.content heap.old) (F.content frames.old) main)
        → AreTidyParts (content_of w.new owns.new.items shared.new (H.content heap.new) (F.content frames.new) main) }
    ensures parts { (main : MethodType) → AreKernelParts (content_of w.old owns.old.items shared.old (H.content heap.old) (F.content frames.old) main)
        → AreKernelParts (content_of w.new owns.new.items shared.new (H.content heap.new) (F.content frames.new) main) }
{
    shared.list_endings(d);
    let told = tell_end(w, shared, d, out);
    shared.drop_domain(frames, d);
    heap.close(d);
    forget(owns, d);
    w.end_domain(d);
    told
}

/// Lets the own state of a domain go.
fn forget(owns: &mut Vec<Option<Own>>, d: DomainId)
    requires { d.0 < length owns.old.items }
    ensures { owns.new.items ≡ slice_set owns.old.items d.0 None }
{
    owns[d.0 as usize] = None;
}
