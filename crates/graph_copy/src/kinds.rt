//! What a copy has to know of objects of a shape. It is worked out once for objects of one class that come one after another.

ghost use Rattle.std.specs.Prelude.{◌≡◌, ◌^◌, ◌<◌, ◌⊎◌, ℕ, length, Some, true, IfSome};
ghost use Rattle.jk_model_classes.specs.Classes.{HasClass};
ghost use Rattle.jk_model_heaps.specs.Heaps.{field_records};
ghost use Rattle.jk_model_heaps.specs.declared.shapes.Shape.TheVariants as Of;
ghost use Rattle.object_store.specs.HeapContents.{HasShapeClasses};
ghost use Rattle.graph_copy.specs.declared.kinds.KnownClass.{KnownClass as AKnownClass};
ghost use Rattle.graph_copy.specs.Kinds.{IsKindOf, IsKnown, IsKnownOf};
ghost use Rattle.graph_copy.specs.Places.{is_kept_at, place_count};

use crate::places::{is_place_kept, places, reference_places};
use class_table::ClassTable;
use jk_model::ClassId;
use jk_model_heaps::Shape;
use object_costs::shape_words;

/// What a copy has to know of objects of a shape.
#[derive(Clone, Copy)]
pub(crate) struct Kind {
    /// How many places they have.
    pub(crate) places: u32,
    /// How many of these, from the first on, may hold references: all or none.
    pub(crate) references: u32,
    /// What each costs, in words.
    pub(crate) words: u64,
    /// A copy keeps what stands at each place. Where this is false, each place is asked for.
    pub(crate) keeps_all: bool,
}

/// A class, and the kind of its objects.
#[derive(Clone, Copy)]
pub(crate) struct KnownClass {
    pub(crate) class: ClassId,
    pub(crate) kind: Kind,
}

/// The kind of a shape, where that is of the class that is known; else none.
#[inline(always)]
pub(crate) fn known_kind(shape: &Shape, last: &Option<KnownClass>) -> Option<Kind>
    ensures { IfSome result (IsKnownOf last.now shape.now) }
{
    let Shape::Plain(c) = shape else {
        return None;
    };
    match last {
        Some(known) if known.class == *c => Some(known.kind),
        _ => None,
    }
}

/// The kind of a shape. Where that is of another class than the one that is known, it is worked out, in time in proportion to the class's
/// fields, and that class is known afterwards.
#[inline(always)]
pub(crate) fn kind_of(t: &ClassTable, shape: &Shape, last: &mut Option<KnownClass>) -> Kind
    requires classes { HasShapeClasses t.now shape.now }
    requires few { place_count t.now shape.now < 2 ^ 32 }
    requires known { IsKnown t.now last.old }
    ensures kind { IsKindOf t.now shape.now result }
    ensures known { IsKnown t.now last.new }
    ensures learnt { (k : AKnownClass) → last.new ≡ Some k → (last.old ≡ Some k) ⊎ (shape.now ≡ Of.Plain k.class) }
{
    match known_kind(shape, last) {
        Some(kind) => kind,
        None => learn(t, shape, last),
    }
}

/// The kind of a shape. Where that is of a class, this is known afterwards.
#[inline(never)]
fn learn(t: &ClassTable, shape: &Shape, last: &mut Option<KnownClass>) -> Kind
    requires classes { HasShapeClasses t.now shape.now }
    requires few { place_count t.now shape.now < 2 ^ 32 }
    requires known { IsKnown t.now last.old }
    ensures kind { IsKindOf t.now shape.now result }
    ensures known { IsKnown t.now last.new }
    ensures learnt { (k : AKnownClass) → last.new ≡ Some k → (last.old ≡ Some k) ⊎ (shape.now ≡ Of.Plain k.class) }
{
    let kind = new_kind(t, shape);
    match shape {
        Shape::Plain(c) => {
            *last = Some(KnownClass { class: *c, kind });
            kind
        }
        _ => kind,
    }
}

/// The kind of a shape.
fn new_kind(t: &ClassTable, shape: &Shape) -> Kind
    requires classes { HasShapeClasses t.now shape.now }
    requires few { place_count t.now shape.now < 2 ^ 32 }
    ensures { IsKindOf t.now shape.now result }
{
    Kind {
        places: places(t, shape),
        references: reference_places(t, shape),
        words: shape_words(t, shape),
        keeps_all: keeps_all(t, shape),
    }
}

/// Whether a copy keeps what stands at each place of objects of a shape.
fn keeps_all(t: &ClassTable, shape: &Shape) -> bool
    requires classes { HasShapeClasses t.now shape.now }
    requires few { place_count t.now shape.now < 2 ^ 32 }
    ensures { result ≡ true → (i : ℕ) → i < place_count t.now shape.now → is_kept_at t.now shape.now i ≡ true }
{
    match shape {
        Shape::Plain(_) => keeps_all_fields(t, shape),
        _ => true,
    }
}

/// Whether a copy keeps what stands at each place of objects of a shape, by asking for each.
fn keeps_all_fields(t: &ClassTable, shape: &Shape) -> bool
    requires classes { HasShapeClasses t.now shape.now }
    requires few { place_count t.now shape.now < 2 ^ 32 }
    ensures { result ≡ true → (i : ℕ) → i < place_count t.now shape.now → is_kept_at t.now shape.now i ≡ true }
{
    for i in 0..places(t, shape) {
        if !is_place_kept(t, shape, i) {
            return false;
        }
    }
    true
}

/// Whether a copy keeps what stands at a place of objects of a shape, of which this is the kind.
pub(crate) fn is_kept(t: &ClassTable, shape: &Shape, kind: &Kind, i: u32) -> bool
    requires classes { HasShapeClasses t.now shape.now }
    requires place { i < place_count t.now shape.now }
    requires kind { IsKindOf t.now shape.now kind.now }
    ensures { result ≡ is_kept_at t.now shape.now i }
{
    kind.keeps_all || is_place_kept(t, shape, i)
}
