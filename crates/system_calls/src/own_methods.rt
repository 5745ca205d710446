//! Methods that touch their own domain's heap alone, by their meanings, at what they are given.

ghost use Rattle.std.specs.Prelude.{◌≡◌};
ghost use Rattle.std.specs.List.{AllByRecursion};
ghost use Rattle.jk_model_heaps.specs.Heaps.{heap_words};
ghost use Rattle.jk_model_heaps.specs.Workings.{Inside, Setting, with_heap};
ghost use Rattle.jk_model_system_rows.specs.declared.meanings.SystemMeaning.TheVariants as Means;
ghost use Rattle.jk_model_system_rows.specs.Answers.{with_answer};
ghost use Rattle.jk_model_system_rows.specs.ArrayCopies.{CopiesArray};
ghost use Rattle.object_store.specs.HeapContents.{HeapBecomes};
ghost use Rattle.row_laws.specs.GivenValues.{GivenFor};
ghost use Rattle.system_calls.specs.DoneRows.{Does, IsFor, IsReady, answer_of};
ghost use Rattle.system_calls.specs.FoundArrays.{KnowsItems, NamesObject};
ghost use Rattle.system_calls.specs.MethodGroups.{IsOfBuffers, IsOfObjects, IsOfTexts};

use crate::answers::Answer;
use crate::array_copies::copy_array;
use crate::buffers::{append, begin, begin_with, buffer_length, buffer_text};
use crate::given::{
    five_values, int_of, object_alone, object_and_two, object_and_value, two_values, value_alone,
};
use crate::int_texts::parse_int;
use crate::messages::{message, set_message};
use crate::references::is_same;
use crate::texts::{char_at, concat, is_same_text, substring, text_length, value_of};
use class_table::ClassTable;
use instance_tests::CapabilityTests;
use jk_model::{DomainId, Value};
use jk_model_system_rows::SystemMeaning;
use object_store::ObjectStore;

/// What a method of java/lang/String answers.
pub(crate) fn text_answer<H: ObjectStore>(
    heap: &mut H,
    t: &ClassTable,
    d: DomainId,
    meaning: SystemMeaning,
    given: &[Value],
) -> Answer
    requires ready { IsReady (H.content heap.old) t.now d }
    requires group { IsOfTexts meaning }
    requires given { GivenFor ((H.content heap.old).heap d) meaning given.now }
    requires named { AllByRecursion (NamesObject (H.content heap.old) d) given.now }
    ensures { Does (H.content heap.old) (H.content heap.new) t.now d meaning given.now (answer_of result) }
{
    match meaning {
        SystemMeaning::TextLength => text_length(heap, d, object_alone(given)),
        SystemMeaning::CharAt => {
            let (text, place) = object_and_value(given);
            char_at(heap, t, d, text, int_of(place))
        }
        SystemMeaning::IsSameText => {
            let (text, v) = object_and_value(given);
            is_same_text(heap, t, d, text, v)
        }
        SystemMeaning::Concat => {
            let (text, v) = object_and_value(given);
            concat(heap, t, d, text, v)
        }
        SystemMeaning::Substring => {
            let (text, begin, end) = object_and_two(given);
            substring(heap, t, d, text, int_of(begin), int_of(end))
        }
        SystemMeaning::TextOf(shown) => value_of(heap, t, d, shown, value_alone(given)),
        _ => unreachable!(),
    }
}

/// What a method of java/lang/StringBuffer or java/lang/StringBuilder answers.
pub(crate) fn buffer_answer<H: ObjectStore>(
    heap: &mut H,
    t: &ClassTable,
    d: DomainId,
    meaning: SystemMeaning,
    given: &[Value],
) -> Answer
    requires ready { IsReady (H.content heap.old) t.now d }
    requires group { IsOfBuffers meaning }
    requires given { GivenFor ((H.content heap.old).heap d) meaning given.now }
    ensures { Does (H.content heap.old) (H.content heap.new) t.now d meaning given.now (answer_of result) }
{
    match meaning {
        SystemMeaning::BufferInitialises => begin(heap, t, d, object_alone(given)),
        SystemMeaning::BufferInitialisesWith => {
            let (buffer, v) = object_and_value(given);
            begin_with(heap, t, d, buffer, v)
        }
        SystemMeaning::BufferLength => buffer_length(heap, t, d, object_alone(given)),
        SystemMeaning::BufferText => buffer_text(heap, t, d, object_alone(given)),
        SystemMeaning::Appends(shown) => {
            let (buffer, v) = object_and_value(given);
            append(heap, t, d, shown, buffer, v)
        }
        _ => unreachable!(),
    }
}

/// What a method of java/lang/Object, java/lang/Integer or a throwable answers.
pub(crate) fn object_answer<H: ObjectStore>(
    heap: &mut H,
    t: &ClassTable,
    d: DomainId,
    meaning: SystemMeaning,
    given: &[Value],
) -> Answer
    requires ready { IsReady (H.content heap.old) t.now d }
    requires group { IsOfObjects meaning }
    requires given { GivenFor ((H.content heap.old).heap d) meaning given.now }
    ensures { Does (H.content heap.old) (H.content heap.new) t.now d meaning given.now (answer_of result) }
{
    match meaning {
        SystemMeaning::Initialises => Ok(None),
        SystemMeaning::IsSame => {
            let (receiver, v) = two_values(given);
            is_same(receiver, v)
        }
        SystemMeaning::ParsesInt => parse_int(heap, t, d, value_alone(given)),
        SystemMeaning::SetsMessage => {
            let (throwable, v) = object_and_value(given);
            set_message(heap, t, d, throwable, v)
        }
        SystemMeaning::GetsMessage => message(heap, t, d, object_alone(given)),
        _ => unreachable!(),
    }
}

/// What `arraycopy` of java/lang/System answers.
pub(crate) fn copy_answer<H: ObjectStore, C: CapabilityTests>(
    heap: &mut H,
    caps: &C,
    t: &ClassTable,
    d: DomainId,
    given: &[Value],
) -> Answer
    requires ready { IsReady (H.content heap.old) t.now d }
    requires given { GivenFor ((H.content heap.old).heap d) Means.CopiesArray given.now }
    requires named { AllByRecursion (NamesObject (H.content heap.old) d) given.now }
    requires known { KnowsItems (H.content heap.old) (C.known caps.now).ranges d }
    requires right { C.agrees caps.now t.now }
    ensures becomes { HeapBecomes (H.content heap.old) (H.content heap.new) d ((H.content heap.new).heap d)
        (heap_words t.now ((H.content heap.new).heap d)) }
    ensures row { (x : Setting) (inside : Inside) → IsFor (H.content heap.old) t.now d x inside → x.caps ≡ C.known caps.now
        → CopiesArray x given.now inside (with_answer (with_heap inside ((H.content heap.new).heap d)) (answer_of result)) }
{
    let (source, from, target, to, count) = five_values(given);
    copy_array(
        heap,
        caps,
        t,
        d,
        source,
        int_of(from),
        target,
        int_of(to),
        int_of(count),
    )
}
