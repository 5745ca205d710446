//! The methods of jk/Domain and jk/Task that touch their own domain's heap alone.

ghost use Rattle.std.specs.Prelude.{◌≡◌, ◌+◌, ◌<◌, ◌≤◌, List, [], length, IfOk, OnErr, OnOk, Some};
ghost use Rattle.jk_model_classes.specs.Worlds.{DomainRecord, domain_of};
ghost use Rattle.jk_model_domains.specs.Objects.{Text};
ghost use Rattle.jk_model_sharing.specs.SharedStates.{SharedState};
ghost use Rattle.heap_loops.specs.TextChanges.{HasUnits, WritesUnits};
ghost use Rattle.row_laws.specs.GivenValues.{GivenFor};
ghost use Rattle.system_calls.specs.MethodGroups.{IsOfOwnDomain};
ghost use Rattle.system_calls.specs.MethodsDone.{MethodDone};
ghost use Rattle.jk_model_classes.specs.declared.records.ClassRecord.{ClassRecord};
ghost use Rattle.jk_model_heaps.specs.Heaps.{heap_words};
ghost use Rattle.jk_model_heaps.specs.Workings.{Inside, Setting, with_heap};
ghost use Rattle.jk_model_system_rows.specs.declared.meanings.SystemMeaning.TheVariants as Means;
ghost use Rattle.jk_model_system_rows.specs.Answers.{with_answer};
ghost use Rattle.jk_model_system_rows.specs.SystemRows.{SystemRow};
ghost use Rattle.object_store.specs.HeapContents.{HeapBecomes, IsAdmitted, IsSame, MakesObject, words_left};
ghost use Rattle.system_calls.specs.DoneRows.{Does, IsFor, IsReady, answer_of};

use crate::answers::{Answer, NO_MEMORY};
use crate::here::Here;
use class_table::ClassTable;
use jk_model::{DomainId, NoRoom, SegmentNo, Value};
use jk_model_heaps::Shape;
use jk_model_system_rows::SystemMeaning;
use object_store::ObjectStore;

/// No heap has as many words as a text of more units would cost.
const MOST_UNITS: usize = 16_777_216;

/// What a method of jk/Domain or jk/Task answers that touches its own domain's heap alone.
pub(crate) fn domain_answer<H: ObjectStore>(
    heap: &mut H,
    here: &Here<'_>,
    meaning: SystemMeaning,
    given: &[Value],
) -> Answer
    requires ready { IsReady (H.content heap.old) here.now.world.now.classes here.now.domain }
    requires group { IsOfOwnDomain meaning }
    requires given { GivenFor ((H.content heap.old).heap here.now.domain) meaning given.now }
    requires domain { (names : DomainRecord) × (domain_of here.now.world.now here.now.domain ≡ Some names) }
    ensures { (shared : SharedState) → MethodDone (H.content heap.old) (H.content heap.new) shared shared here.now meaning given.now result }
{
    let (t, d) = (here.world.classes(), here.domain);
    match meaning {
        SystemMeaning::NamesDomain => domain_name(heap, here),
        SystemMeaning::CountsFreeWords => free_words(heap, d),
        SystemMeaning::GetsTask => current_task(heap, t, d, here.segment),
        _ => unreachable!(),
    }
}

/// A new text: the name of the running domain, in ASCII.
fn domain_name<H: ObjectStore>(heap: &mut H, here: &Here<'_>) -> Answer
    requires ready { IsReady (H.content heap.old) here.now.world.now.classes here.now.domain }
    requires domain { (names : DomainRecord) × (domain_of here.now.world.now here.now.domain ≡ Some names) }
    ensures becomes { HeapBecomes (H.content heap.old) (H.content heap.new) here.now.domain ((H.content heap.new).heap here.now.domain)
        (heap_words here.now.world.now.classes ((H.content heap.new).heap here.now.domain)) }
    ensures row { (x : Setting) (inside : Inside) (names : DomainRecord)
        → IsFor (H.content heap.old) here.now.world.now.classes here.now.domain x inside
        → domain_of here.now.world.now here.now.domain ≡ Some names → x.name ≡ names.name
        → SystemRow x Means.NamesDomain [] inside
        (with_answer (with_heap inside ((H.content heap.new).heap here.now.domain)) (answer_of result)) }
{
    let Some(names) = here.world.domain(here.domain) else {
        unreachable!();
    };
    let name = names.name().as_slice();
    match make_ascii(heap, here.world.classes(), here.domain, name) {
        Ok(a) => Ok(Some(Value::Obj(a))),
        Err(_) => Err(NO_MEMORY),
    }
}

/// Makes a text whose units are these bytes. It fails exactly where the text costs more words than are free, and then all is as before.
fn make_ascii<H: ObjectStore>(
    heap: &mut H,
    t: &ClassTable,
    d: DomainId,
    bytes: &[u8],
) -> Result<u32, NoRoom>
    requires admitted { IsAdmitted (H.content heap.old) d }
    ensures ok { IfOk result (λ a. MakesObject (H.content heap.old) (H.content heap.new) t.now d a (Text bytes.now)) }
    ensures err { OnErr result (IsSame (H.content heap.old) (H.content heap.new)) }
    ensures room { OnOk result (4 + length bytes.now ≤ words_left (H.content heap.old) d) }
    ensures no_room { OnErr result (words_left (H.content heap.old) d < 4 + length bytes.now) }
{
    if bytes.len() > MOST_UNITS {
        return Err(NoRoom);
    }
    let a = heap.make(t, d, Shape::Text(bytes.len() as u32))?;
    write_bytes(heap, t, d, a, bytes);
    Ok(a)
}

/// Writes bytes over the first units of a text.
fn write_bytes<H: ObjectStore>(heap: &mut H, t: &ClassTable, d: DomainId, a: u32, bytes: &[u8])
    requires { HasUnits (H.content heap.old) d a (length bytes.now) }
    ensures { WritesUnits (H.content heap.old) (H.content heap.new) d a 0 bytes.now }
{
    for (i, byte) in bytes.iter().enumerate() {
        let v = Value::Int(i32::from(*byte));
        heap.write(t, d, a, i as u32, v);
    }
}

/// How many words of the running domain's heap are free.
pub(crate) fn free_words<H: ObjectStore>(heap: &H, d: DomainId) -> Answer
    requires { IsAdmitted (H.content heap.now) d }
    ensures { (classes : List ClassRecord) → IsReady (H.content heap.now) classes d
        → Does (H.content heap.now) (H.content heap.now) classes d Means.CountsFreeWords [] (answer_of result) }
{
    Ok(Some(Value::Int(heap.free(d) as i32)))
}

/// A new handle of the running segment.
pub(crate) fn current_task<H: ObjectStore>(
    heap: &mut H,
    t: &ClassTable,
    d: DomainId,
    s: SegmentNo,
) -> Answer
    requires { IsReady (H.content heap.old) t.now d }
    ensures becomes { HeapBecomes (H.content heap.old) (H.content heap.new) d ((H.content heap.new).heap d)
        (heap_words t.now ((H.content heap.new).heap d)) }
    ensures row { (x : Setting) (inside : Inside) → IsFor (H.content heap.old) t.now d x inside → x.segment ≡ s
        → SystemRow x Means.GetsTask [] inside (with_answer (with_heap inside ((H.content heap.new).heap d)) (answer_of result)) }
{
    match heap.make(t, d, Shape::Task(s)) {
        Ok(a) => Ok(Some(Value::Obj(a))),
        Err(_) => Err(NO_MEMORY),
    }
}
