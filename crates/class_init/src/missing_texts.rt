//! The texts of constants that have no object in a domain yet, and what their objects cost.

ghost use Rattle.std.specs.Prelude.{◌≡◌, ◌+◌, ◌-◌, ◌^◌, ◌<◌, ◌⊎◌, ◌↔◌, ℕ, List as AList, MatchOption, length, min, replicate, slice_get, slice_set, sum_by, true, false};
ghost use Rattle.class_init.specs.MissingTexts.{HasTextConstant, IsMissingAt, IsMissingOfSome, IsMissingPlace, marked, text_words};

use crate::first_fields::is_static;
use crate::known_texts::KnownTexts;
use indexmap::IndexMap;
use jk_model_classes::{FieldRecord, Link};
use shared_values::Text;

/// How many words each object takes beside its payload.
const HEADER_WORDS: u64 = 4;

/// Marks the texts that are constants of static fields among these and have no object yet, and answers what their objects cost,
/// where no text is marked before. It takes time in proportion to n log m for n fields and m texts.
pub(crate) fn mark_missing(
    texts: &KnownTexts,
    names: &IndexMap<usize, u32>,
    marks: &mut [bool],
    fields: &[FieldRecord],
) -> u64
    requires { marks.old ≡ replicate (length texts.now) false }
    ensures marks { (place : ℕ) → (slice_get marks.new place ≡ Some true) ↔ IsMissingOfSome texts.now names.now.entries fields.now place }
    ensures size { length marks.new ≡ length texts.now }
    ensures words { result ≡ min (sum_by text_words (marked texts.now marks.new)) (2 ^ 64 - 1) }
{
    let mut words = 0u64;
    for field in fields {
        words = words.saturating_add(mark_field(texts, names, marks, field));
    }
    words
}

/// Takes the marks of these fields' texts away, where no others have one. It takes the time that `mark_missing` does.
pub(crate) fn unmark_missing(
    texts: &KnownTexts,
    names: &IndexMap<usize, u32>,
    marks: &mut [bool],
    fields: &[FieldRecord],
)
    requires size { length marks.old ≡ length texts.now }
    requires marks { (place : ℕ) → slice_get marks.old place ≡ Some true → IsMissingOfSome texts.now names.now.entries fields.now place }
    ensures { marks.new ≡ replicate (length texts.now) false }
{
    for field in fields {
        unmark_field(texts, names, marks, field);
    }
}

/// Marks the text that is the constant of a static field and has no object yet, if there is one; what its object costs, or 0 where
/// no text is newly marked.
fn mark_field(
    texts: &KnownTexts,
    names: &IndexMap<usize, u32>,
    marks: &mut [bool],
    field: &FieldRecord,
) -> u64
    requires { length marks.old ≡ length texts.now }
    ensures marks { (place : ℕ) → (slice_get marks.new place ≡ Some true)
        ↔ ((slice_get marks.old place ≡ Some true) ⊎ IsMissingAt texts.now names.now.entries field.now place) }
    ensures size { length marks.new ≡ length texts.now }
    ensures words { sum_by text_words (marked texts.now marks.new) ≡ sum_by text_words (marked texts.now marks.old) + result }
{
    match missing_place(texts, names, field) {
        Some(place) => mark_text(texts, marks, place),
        None => 0,
    }
}

/// Marks the text at a place; what its object costs, or 0 where it was marked.
fn mark_text(texts: &KnownTexts, marks: &mut [bool], place: usize) -> u64
    requires within { place < length texts.now }
    requires size { length marks.old ≡ length texts.now }
    ensures marks { marks.new ≡ slice_set marks.old place true }
    ensures words { sum_by text_words (marked texts.now marks.new) ≡ sum_by text_words (marked texts.now marks.old) + result }
{
    if marks[place] {
        return 0;
    }
    marks[place] = true;
    words_of(texts.at(place))
}

/// What the object of a text costs.
fn words_of(text: &Text) -> u64
    ensures { result ≡ text_words text.now }
{
    HEADER_WORDS + text.as_slice().len() as u64
}

/// Takes the mark of the text away that is the constant of a static field and has no object yet.
fn unmark_field(
    texts: &KnownTexts,
    names: &IndexMap<usize, u32>,
    marks: &mut [bool],
    field: &FieldRecord,
)
    requires { length marks.old ≡ length texts.now }
    ensures marks { (place : ℕ) → slice_get marks.new place ≡ Some true
        → (slice_get marks.old place ≡ Some true) × (IsMissingAt texts.now names.now.entries field.now place → ⊥) }
    ensures size { length marks.new ≡ length texts.now }
{
    if let Some(place) = missing_place(texts, names, field) {
        marks[place] = false;
    }
}

/// Where the text stands that is the constant of a static field and has no object yet; none where there is no such text.
fn missing_place(
    texts: &KnownTexts,
    names: &IndexMap<usize, u32>,
    field: &FieldRecord,
) -> Option<usize>
    ensures { MatchOption result ((place : ℕ) → IsMissingAt texts.now names.now.entries field.now place → ⊥)
        (IsMissingPlace texts.now names.now.entries field.now) }
{
    let text = text_constant(field)?;
    let place = texts.place_of(text.as_slice(), text.fingerprint())?;
    texts.differ();
    match names.contains_key(&place) {
        true => None,
        false => Some(place),
    }
}

/// The text that is the constant of a static field; none where it is no static field, or has no text for its constant.
fn text_constant(field: &FieldRecord) -> Option<&Text>
    ensures { MatchOption result ((text : AList ℕ) → HasTextConstant field.now text → ⊥) (λ text. HasTextConstant field.now text.now) }
{
    match &field.constant {
        Link::Text(text) if is_static(field) => Some(text),
        _ => None,
    }
}
