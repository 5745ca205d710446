//! Where a thread runs.

ghost use Rattle.std.specs.Prelude.{◌≡◌, None, IfNone, IfSome};
ghost use Rattle.jk_model_sharing.specs.Segments.{top_segment};
ghost use Rattle.kernel_turns.specs.LiveThreads.{AreApart, IsRunning};

use jk_model::ThreadNo;
use segment_steps::Runs;
use thread_segments::{SegmentInfo, Shared};

/// A live thread: its top segment, and what is pending there.
#[derive(Clone, Copy)]
pub(crate) struct Running {
    pub(crate) runs: Runs,
    pub(crate) info: SegmentInfo,
}

/// Where a thread runs; none where it isn't live. It takes time in proportion to log n for n live threads.
#[inline(always)]
pub(crate) fn run_of(shared: &Shared, thread: ThreadNo) -> Option<Running>
    requires { AreApart shared.now.threads }
    ensures some { IfSome result (λ x. IsRunning shared.now.threads thread x) }
    ensures none { IfNone result (top_segment shared.now.threads thread ≡ None) }
{
    let segment = shared.top(thread)?;
    let Some(info) = shared.segment(segment) else {
        unreachable!();
    };
    let runs = Runs {
        thread,
        domain: info.domain,
        segment,
    };
    Some(Running { runs, info })
}
