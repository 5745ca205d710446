//! Live threads by their numbers, in order.

ghost use Rattle.std.specs.Prelude.{◌<◌, IfNone, IfSome};
ghost use Rattle.jk_model.specs.declared.identifiers.ThreadNo.{ThreadNo as AThreadNo};
ghost use Rattle.jk_model_machine_state.specs.Machines.{IsLiveThread};
ghost use Rattle.kernel_events.specs.KernelCalls.{IsNextLive};

use crate::kernel::Kernel;
use frame_store::FrameStore;
use kernel_parts::KernelParts;
use object_store::ObjectStore;

impl<H: ObjectStore + Drop, F: FrameStore + Drop> Kernel<H, F> {
    /// The least live thread above a number; none where there is none. It takes time in proportion to log n for n live threads.
    pub fn next_live(&self, above: u32) -> Option<u32>
        ensures some { IfSome result (λ t. IsNextLive self.now above t) }
        ensures none { IfNone result ((u : AThreadNo) → above < u.0 → IsLiveThread self.now u → ⊥) }
    {
        next_live_in(&self.parts, above)
    }
}

/// The same of the kernel's parts.
fn next_live_in<H: ObjectStore + Drop, F: FrameStore + Drop>(
    k: &KernelParts<H, F>,
    above: u32,
) -> Option<u32>
    ensures some { IfSome result (λ t. IsNextLive k.now above t) }
    ensures none { IfNone result ((u : AThreadNo) → above < u.0 → IsLiveThread k.now u → ⊥) }
{
    k.shared.next_live(above)
}
