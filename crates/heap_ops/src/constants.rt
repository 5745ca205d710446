//! The constant texts of a class's static fields, which are set as the class is initialised.

ghost use Rattle.std.specs.Prelude.{◌≡◌, ℕ, ◌≤◌, Contains, IsSome, List, MatchOption, OnErr, OnOk, length, sum_by};
ghost use Rattle.jk_model.specs.declared.identifiers.SegmentNo.{SegmentNo};
ghost use Rattle.jk_model_classes.specs.declared.records.FieldRecord.{FieldRecord as AField};
ghost use Rattle.jk_model_domains.specs.OwnStates.{literal_named};
ghost use Rattle.jk_model_heap_rows.specs.Constants.{new_texts, with_constants};
ghost use Rattle.jk_model_sharing.specs.SharedStates.{SharedState};
ghost use Rattle.class_init.specs.MissingTexts.{HasTextConstant, text_words};
ghost use Rattle.frame_store.specs.FrameContents.{FrameContent};
ghost use Rattle.object_store.specs.HeapContents.{IsAdmitted, IsSame, words_left};
ghost use Rattle.step_contents.specs.Contents.{contents_of, here_at};
ghost use Rattle.heap_ops.specs.ConstantTexts.{HasStaticsOf, MakesTexts, TextsCall};
ghost use Rattle.heap_ops.specs.ConstantsSet.{ConstantsLack, ConstantsSet, MaySetConstants};

use crate::literals::literal_object;
use class_init::Own;
use class_table::ClassTable;
use domain_resolver::World;
use jk_model::{AccessFlags, ClassId, DomainId, MemberId, NoRoom, Value, has};
use jk_model_classes::{ClassRecord, FieldRecord, Link};
use object_store::ObjectStore;
use shared_values::Text;

/// Sets each static field of a class whose constant is a text to the object of that text. It fails exactly where the objects that
/// have to be made, equal texts once, don't fit together, and then all is as before. It takes no memory, and time in proportion to
/// n log m for n fields and m texts of the domain, and to the units of the texts whose objects are made.
pub fn set_constants<H: ObjectStore>(
    heap: &mut H,
    own: &mut Own,
    w: &World,
    d: DomainId,
    c: ClassId,
) -> Result<(), NoRoom>
    requires { (frames : FrameContent) × (shared : SharedState) × (s : SegmentNo)
        × MaySetConstants (contents_of (H.content heap.old) frames own.old) (here_at w.now shared d s) c }
    ensures ok { OnOk result ((frames : FrameContent) (shared : SharedState) (s : SegmentNo)
        → ConstantsSet (contents_of (H.content heap.old) frames own.old) (contents_of (H.content heap.new) frames own.new)
        (here_at w.now shared d s) c) }
    ensures err { OnErr result ((frames : FrameContent) (shared : SharedState) (s : SegmentNo)
        → ConstantsLack (contents_of (H.content heap.old) frames own.old) (here_at w.now shared d s) c) }
    ensures as_before { OnErr result (IsSame (H.content heap.old) (H.content heap.new) × (own.new ≡ own.old)) }
{
    let t = w.classes();
    t.ordered();
    let Some(class) = t.class(c) else {
        unreachable!();
    };
    let words = own.missing_words(class.fields.as_slice());
    if words > u64::from(heap.free(d)) {
        return Err(NoRoom);
    }
    make_missing(heap, own, t, d, class);
    store_texts(own, c, class);
    Ok(())
}

/// Makes the objects of the constant texts of a class's static fields that have none yet. They fit together.
fn make_missing<H: ObjectStore>(
    heap: &mut H,
    own: &mut Own,
    t: &ClassTable,
    d: DomainId,
    class: &ClassRecord,
)
    requires admitted { IsAdmitted (H.content heap.old) d }
    requires known { (f : AField) (text : List ℕ) → Contains class.now.fields f → HasTextConstant f text → Contains own.old.rooms text }
    requires fits { sum_by text_words (new_texts own.old.state class.now) ≤ words_left (H.content heap.old) d }
    ensures { let x : TextsCall = record {
      heaps = H.content heap.old;
      new_heaps = H.content heap.new;
      own = own.old;
      new_own = own.new;
      domain = d;
    } in MakesTexts x t.now (new_texts own.old.state class.now) }
{
    let fields = class.fields.as_slice();
    for field in fields {
        if let Some(text) = text_constant(field) {
            let Ok(_) = literal_object(heap, own, t, d, text) else {
                unreachable!();
            };
        }
    }
}

/// Sets each static field of a class whose constant is a text to the object of that text, which there is.
fn store_texts(own: &mut Own, c: ClassId, class: &ClassRecord)
    requires few { length class.now.fields ≤ 65535 }
    requires statics { HasStaticsOf own.old.state c class.now }
    requires named { (f : AField) (text : List ℕ) → Contains class.now.fields f → HasTextConstant f text
        → IsSome (literal_named own.old.state text) }
    ensures { own.new ≡ record own.old { state = with_constants c class.now own.old.state } }
{
    let fields = class.fields.as_slice();
    for (i, field) in fields.iter().enumerate() {
        if let Some(text) = text_constant(field) {
            let Some(a) = own.literal(text) else {
                unreachable!();
            };
            let m = MemberId {
                class: c,
                index: i as u16,
            };
            own.set_static(m, Value::Obj(a));
        }
    }
}

/// The text that is the constant of a static field; none where it is no static field, or has no text for its constant.
fn text_constant(field: &FieldRecord) -> Option<&Text>
    ensures { MatchOption result ((text : List ℕ) → HasTextConstant field.now text → ⊥) (λ text. HasTextConstant field.now text.now) }
{
    match &field.constant {
        Link::Text(text) if has(field.flags, AccessFlags::STATIC) => Some(text),
        _ => None,
    }
}
