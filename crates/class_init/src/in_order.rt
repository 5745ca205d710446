//! Parts of classes and literals as plain lists, in the order of the units of their names and texts.

ghost use Rattle.std.specs.Prelude.{◌≡◌, IfOk, IsPermutation, map};
ghost use Rattle.std.specs.Ordering.{nat_cmp};
ghost use Rattle.std.specs.Cmp.Lexicographic.{slice_cmp};
ghost use Rattle.jk_model_domains.specs.OwnStates.{own_class};
ghost use Rattle.class_init.specs.Parts.{class_part};
ghost use Rattle.class_init.specs.InOrder.{AreByName, AreByText, AreNamedParts, IsNamedPart, part_of_named};

use crate::class_parts::Part;
use class_table::ClassTable;
use jk_model::{List, OutOfMemory};
use jk_model_domains::{LiteralImage, OwnClass};
use shared_values::Text;
use std::alloc::Global;
use std::cmp::Ordering;

/// A part with the name of its class.
#[derive(Drop)]
struct NamedPart {
    name: Text,
    part: OwnClass,
}

/// The parts as a list, in the order of the units of their classes' names. It takes time in proportion to n log n comparisons.
pub(crate) fn classes_in_order(
    alloc: Global,
    t: &ClassTable,
    parts: &[Part],
) -> Result<List<OwnClass>, OutOfMemory>
    ensures same { IfOk result (λ list. IsPermutation (map own_class (map class_part parts.now)) list) }
    ensures sorted { IfOk result (λ list. AreByName t.now list) }
{
    let mut named = with_names(alloc, t, parts)?;
    named.sort_unstable_by(|a, b| by_name(a, b));
    without_names(alloc, named)
}

/// The images in the order of the units of their texts.
pub(crate) fn literals_in_order(
    alloc: Global,
    mut images: Vec<LiteralImage>,
) -> Result<List<LiteralImage>, OutOfMemory>
    ensures same { IfOk result (λ list. IsPermutation images.items list) }
    ensures sorted { IfOk result AreByText }
{
    images.sort_unstable_by(|a, b| by_text(a, b));
    let mut list = List::new(alloc);
    for image in images {
        list.push(image)?;
    }
    Ok(list)
}

/// The parts, each with the name of its class.
fn with_names(alloc: Global, t: &ClassTable, parts: &[Part]) -> Result<Vec<NamedPart>, OutOfMemory>
    ensures parts { IfOk result (λ named. map part_of_named named.items ≡ map own_class (map class_part parts.now)) }
    ensures names { IfOk result (λ named. AreNamedParts t.now named.items) }
{
    let mut named = Vec::new(alloc);
    for part in parts {
        named.push(named_part(alloc, t, part)?)?;
    }
    Ok(named)
}

/// A part with the name of its class; without units where there is no such class.
fn named_part(alloc: Global, t: &ClassTable, part: &Part) -> Result<NamedPart, OutOfMemory>
    ensures part { IfOk result (λ named. named.part ≡ own_class (class_part part.now)) }
    ensures name { IfOk result (λ named. IsNamedPart t.now named) }
{
    let name = match t.class(part.class) {
        Some(class) => class.name.share()?,
        None => Text::new(alloc, &[])?,
    };
    let part = OwnClass {
        class: part.class,
        state: part.state,
        statics: part.statics.values(alloc)?,
    };
    Ok(NamedPart { name, part })
}

/// The parts alone.
fn without_names(alloc: Global, named: Vec<NamedPart>) -> Result<List<OwnClass>, OutOfMemory>
    ensures { IfOk result (λ list. list ≡ map part_of_named named.items) }
{
    let mut list = List::new(alloc);
    for entry in named {
        list.push(entry.part)?;
    }
    Ok(list)
}

/// How the names of two parts' classes are ordered.
fn by_name(a: &NamedPart, b: &NamedPart) -> Ordering
    ensures { result ≡ slice_cmp nat_cmp a.now.name b.now.name }
{
    a.name.as_slice().cmp(&b.name.as_slice())
}

/// How the texts of two images are ordered.
fn by_text(a: &LiteralImage, b: &LiteralImage) -> Ordering
    ensures { result ≡ slice_cmp nat_cmp a.now.text b.now.text }
{
    a.text.as_slice().cmp(&b.text.as_slice())
}
