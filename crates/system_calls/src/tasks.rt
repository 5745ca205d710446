//! The methods of jk/Task that ask of the segment of a Task.

ghost use Rattle.jk_model.specs.declared.identifiers.SegmentNo.{SegmentNo as ASegmentNo};
ghost use Rattle.jk_model_domains.specs.Objects.{Task};
ghost use Rattle.object_store.specs.HeapContents.{IsLive};
ghost use Rattle.system_calls.specs.MethodGroups.{IsOfTasks};
ghost use Rattle.system_calls.specs.MethodsDone.{MayAnswer, MethodDone};

use crate::answers::Answer;
use crate::given::object_alone;
use crate::here::Here;
use jk_model::{SegmentNo, Value};
use jk_model_heaps::Shape;
use jk_model_system_rows::SystemMeaning;
use object_store::ObjectStore;
use thread_segments::Shared;

/// Lets the segment of a Task rest, or rest no longer, or lets ThreadDeath be pending in it. Nothing changes where it isn't there.
pub(crate) fn task_answer<H: ObjectStore>(
    heap: &H,
    shared: &mut Shared,
    here: &Here<'_>,
    meaning: SystemMeaning,
    given: &[Value],
) -> Answer
    requires may { MayAnswer (H.content heap.now) shared.old here.now meaning given.now }
    requires group { IsOfTasks meaning }
    ensures { MethodDone (H.content heap.now) (H.content heap.now) shared.old shared.new here.now meaning given.now result }
{
    let s = segment_of(heap, here, object_alone(given));
    match meaning {
        SystemMeaning::SuspendsTask => shared.suspend(s),
        SystemMeaning::ResumesTask => shared.resume(s),
        SystemMeaning::StopsTask => shared.stop(s),
        _ => unreachable!(),
    }
    Ok(None)
}

/// The segment of a Task.
fn segment_of<H: ObjectStore>(heap: &H, here: &Here<'_>, task: u32) -> SegmentNo
    requires { (n : ASegmentNo) × IsLive (H.content heap.now) here.now.domain task (Task n) }
    ensures { IsLive (H.content heap.now) here.now.domain task (Task result) }
{
    match heap.shape(here.domain, task) {
        Shape::Task(s) => s,
        _ => unreachable!(),
    }
}
