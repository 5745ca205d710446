//! The words with which a thread starts, as an array of texts.

ghost use Rattle.std.specs.Prelude.{◌≡◌, ◌+◌, ◌≤◌, length};
ghost use Rattle.jk_model_classes.specs.Classes.{HasClass};
ghost use Rattle.jk_model_domains.specs.Objects.{Text};
ghost use Rattle.jk_model_runs.specs.Starts.{start_words_cost};
ghost use Rattle.object_store.specs.HeapContents.{IsAdmitted, MakesObject, words_left};
ghost use Rattle.kernel_openings.specs.FirstFrames.{MakesStartWords};
ghost use Rattle.kernel_openings.specs.StartedThreads.{AreStartWords};

use crate::class_names::{MOST_BYTES, widen};
use class_table::ClassTable;
use heap_loops::make_text;
use jk_model::{Bytes, DomainId, NoRoom, Value};
use jk_model_classes::{BaseRef, TypeRef};
use jk_model_heaps::Shape;
use jk_model_heaps::system_classes::STRING;
use object_store::ObjectStore;

/// What an object costs beside its payload, in words.
const HEADER_WORDS: u64 = 4;

/// The type of a text.
const TEXT: TypeRef = TypeRef {
    dims: 0,
    base: BaseRef::Class(STRING),
};

/// How many words the array of these words costs, with a text for each.
pub(crate) fn words_cost(words: &[Bytes]) -> u64
    requires { AreStartWords words.now }
    ensures { result ≡ start_words_cost words.now }
{
    let mut cost = HEADER_WORDS + words.len() as u64;
    for word in words {
        cost += HEADER_WORDS + word.len() as u64;
    }
    cost
}

/// Makes the array of these words, with a text for each, and answers its name. There is room for all.
pub(crate) fn make_words<H: ObjectStore>(
    heap: &mut H,
    t: &ClassTable,
    d: DomainId,
    words: &[Bytes],
) -> u32
    requires admitted { IsAdmitted (H.content heap.old) d }
    requires string { HasClass t.now STRING }
    requires words { AreStartWords words.now }
    requires room { start_words_cost words.now ≤ words_left (H.content heap.old) d }
    ensures { MakesStartWords (H.content heap.old) (H.content heap.new) t.now d words.now result }
{
    let Ok(array) = heap.make(t, d, Shape::Array(TEXT, words.len() as u32)) else {
        unreachable!();
    };
    for (i, word) in words.iter().enumerate() {
        let text = make_word(heap, t, d, word.as_slice());
        heap.write(t, d, array, i as u32, Value::Obj(text));
    }
    array
}

/// Makes a text of bytes, each as one unit. There is room for it.
fn make_word<H: ObjectStore>(heap: &mut H, t: &ClassTable, d: DomainId, bytes: &[u8]) -> u32
    requires admitted { IsAdmitted (H.content heap.old) d }
    requires short { length bytes.now ≤ 255 }
    requires room { 4 + length bytes.now ≤ words_left (H.content heap.old) d }
    ensures { MakesObject (H.content heap.old) (H.content heap.new) t.now d result (Text bytes.now) }
{
    let mut units = [0u16; MOST_BYTES];
    widen(bytes, &mut units);
    match make_text(heap, t, d, &units[..bytes.len()]) {
        Ok(a) => a,
        Err(NoRoom) => unreachable!(),
    }
}
