//! The rooms of a domain in the two stores.

ghost use Rattle.std.specs.Prelude.{◌≡◌, ◌≤◌, ◌⊎◌, None, Err, OnErr, OnOk};
ghost use Rattle.jk_model.specs.declared.stores.AdmitError.TheVariants as Why;
ghost use Rattle.jk_model_frames.specs.Pools.{HasNoPlace};
ghost use Rattle.object_store.specs.HeapContents.{Admits as AdmitsHeap, HasFewDomains as HasFewHeaps, IsAdmitted as IsHeapAdmitted, IsSame as IsSameHeap, pages_for, pool_of as heap_pool};
ghost use Rattle.frame_store.specs.FrameContents.{Admits as AdmitsFrames, HasFewDomains as HasFewStacks, IsSame as AreSameFrames, pool_of as stack_pool};

use frame_store::FrameStore;
use jk_model::{AdmitError, DomainId, Quotas};
use object_store::ObjectStore;

/// Gives a domain its words and its chunks. `NoExtent` comes exactly where a store has no room for them, unless memory runs out.
/// After an error all is as before.
pub(crate) fn admit_stores<H: ObjectStore, F: FrameStore>(
    heap: &mut H,
    frames: &mut F,
    d: DomainId,
    quotas: &Quotas,
) -> Result<(), AdmitError>
    requires new_heap { (H.content heap.old).quota d ≡ None }
    requires new_stack { (F.content frames.old).quota d ≡ None }
    requires few_heaps { HasFewHeaps (H.content heap.old) }
    requires few_stacks { HasFewStacks (F.content frames.old) }
    requires words { (1 ≤ quotas.now.heap) × (quotas.now.heap ≤ 16777216) }
    requires chunks { (1 ≤ quotas.now.chunks) × (quotas.now.chunks ≤ 262144) }
    ensures heap { OnOk result (AdmitsHeap (H.content heap.old) (H.content heap.new) d quotas.now.heap) }
    ensures stack { OnOk result (AdmitsFrames (F.content frames.old) (F.content frames.new) d quotas.now.chunks) }
    ensures same_heap { OnErr result (IsSameHeap (H.content heap.old) (H.content heap.new)) }
    ensures same_stack { OnErr result (AreSameFrames (F.content frames.old) (F.content frames.new)) }
    ensures no_extent { result ≡ Err Why.NoExtent
        → HasNoPlace (heap_pool (H.content heap.old)) (pages_for quotas.now.heap) ⊎ HasNoPlace (stack_pool (F.content frames.old)) quotas.now.chunks }
    ensures only_no_extent { HasNoPlace (heap_pool (H.content heap.old)) (pages_for quotas.now.heap)
        ⊎ HasNoPlace (stack_pool (F.content frames.old)) quotas.now.chunks → (result ≡ Err Why.NoExtent) ⊎ (result ≡ Err Why.OutOfMemory) }
{
    heap.admit(d, quotas.heap)?;
    if let Err(e) = frames.admit(d, quotas.chunks) {
        heap.close(d);
        return Err(e);
    }
    Ok(())
}
