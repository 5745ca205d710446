//! What is known of each text of a pool. A text is judged once, however many entries and members use it.

ghost use Rattle.std.specs.Prelude.{◌≡◌, ◌<◌, ◌^◌, ℕ, List, IfOk, length};
ghost use Rattle.std.specs.List.{AllByRecursion};
ghost use Rattle.jk_model.specs.declared.class_file.PoolEntry.{PoolEntry};
ghost use Rattle.jk_model.specs.ClassFile.{IsEntry, IsGoodEntry};
ghost use Rattle.jk_model.specs.Text.{IsModifiedUtf8, Spells};
ghost use Rattle.class_rules.specs.SeenTexts.{IsJudged, IsKept, IsAdded, IsText, known_of};
ghost use Rattle.class_rules.specs.Texts.{AreFacts};

mod names;
mod shapes;
mod words;

use jk_model::{List, OutOfMemory, PoolEntry, Units};
use names::{begins_array, has_angle, is_class_name, is_name};
use shapes::{field_shape_of, method_shape_of};
use std::alloc::Global;
use std::collections::BTreeMap;
use unit_text::{UnitsError, units_of};
use words::word_of;

/// A text that means something by itself.
#[derive(Clone, Copy, PartialEq, Eq)]
pub(crate) enum Word {
    /// `<init>`
    Init,
    /// `<clinit>`
    Clinit,
    /// `Code`
    Code,
    /// `ConstantValue`
    ConstantValue,
    /// `Exceptions`
    Exceptions,
    /// `()V`
    NothingToNothing,
}

/// What a constant of a type would be.
#[derive(Clone, Copy)]
pub(crate) enum Kind {
    /// byte, char, int, short, boolean
    Int,
    Long,
    Float,
    Double,
    /// `java/lang/String`
    Text,
    /// Any other class.
    Other,
}

/// What the rules ask of a field's type.
#[derive(Clone, Copy)]
pub(crate) struct FieldShape {
    pub dims: u8,
    pub kind: Kind,
}

/// What the rules ask of a method's type.
#[derive(Clone, Copy)]
pub(crate) struct MethodShape {
    /// The slots of the parameters, without a receiver.
    pub slots: u32,
    pub has_result: bool,
    /// A parameter or the result is of float or double, or of an array of them.
    pub has_float: bool,
}

/// What is known of a text.
#[derive(Clone, Copy)]
pub(crate) struct TextFacts {
    /// The least index at which the pool has a text of the same units.
    pub first: u16,
    pub word: Option<Word>,
    /// It has the form of a name.
    pub is_name: bool,
    /// It has a `<` or a `>`.
    pub has_angle: bool,
    /// Its first unit is `[`, as that of an array's name.
    pub begins_array: bool,
    /// It has the form of a class's name.
    pub is_class_name: bool,
    /// Its type, where it is the descriptor of a field.
    pub field: Option<FieldShape>,
    /// Its type, where it is the descriptor of a method.
    pub method: Option<MethodShape>,
}

/// What is known of a text whose units stand first at this index.
fn judge(alloc: Global, units: &[u16], first: u16) -> Result<TextFacts, OutOfMemory>
    requires { length units.now < 2 ^ 16 }
    ensures { IfOk result (IsJudged units.now first) }
{
    Ok(TextFacts {
        first,
        word: word_of(units),
        is_name: is_name(units),
        has_angle: has_angle(units),
        begins_array: begins_array(units),
        is_class_name: is_class_name(units),
        field: field_shape_of(alloc, units)?,
        method: method_shape_of(alloc, units)?,
    })
}

/// What is known of a text at this index. Units that weren't seen before are judged.
fn known_or_judged(
    alloc: Global,
    seen: &mut BTreeMap<Vec<u16>, TextFacts>,
    units: &[u16],
    index: u16,
) -> Result<TextFacts, OutOfMemory>
    requires { length units.now < 2 ^ 16 }
    ensures { IfOk result (λ facts. IsAdded units.now index facts (known_of seen.old) (known_of seen.new)) }
{
    if let Some(known) = seen.get(units) {
        return Ok(*known);
    }
    let facts = judge(alloc, units, index)?;
    seen.insert(Vec::from_slice(alloc, units)?, facts)?;
    Ok(facts)
}

/// The units of a text that is known to be one.
fn units_of_text(alloc: Global, bytes: &[u8]) -> Result<Units, OutOfMemory>
    requires short { length bytes.now < 2 ^ 16 }
    requires text { IsModifiedUtf8 bytes.now }
    ensures spelt { IfOk result (λ units. Spells bytes.now units) }
    ensures short { IfOk result (λ units. length units < 2 ^ 16) }
{
    match units_of(alloc, bytes) {
        Ok(units) => Ok(units),
        Err(UnitsError::BadForm(_)) => unreachable!(),
        Err(UnitsError::OutOfMemory) => Err(OutOfMemory),
    }
}

/// What is known of the entry at this index, where the texts before it were seen.
fn facts_at(
    alloc: Global,
    seen: &mut BTreeMap<Vec<u16>, TextFacts>,
    entry: &PoolEntry,
    index: u16,
) -> Result<Option<TextFacts>, OutOfMemory>
    requires fits { IsEntry entry.now }
    requires text { IsText entry.now }
    ensures { IfOk result (λ facts. IsKept entry.now index facts (known_of seen.old) (known_of seen.new)) }
{
    let PoolEntry::Utf8(bytes) = entry else {
        return Ok(None);
    };
    let units = units_of_text(alloc, bytes.as_slice())?;
    Ok(Some(known_or_judged(alloc, seen, units.as_slice(), index)?))
}

/// What is known of each text of a pool, by its index.
pub(crate) fn facts_of(
    alloc: Global,
    pool: &[PoolEntry],
) -> Result<List<Option<TextFacts>>, OutOfMemory>
    requires few { length pool.now < 2 ^ 16 }
    requires entries { AllByRecursion IsEntry pool.now }
    requires good { AllByRecursion (IsGoodEntry pool.now) pool.now }
    ensures { IfOk result (AreFacts pool.now) }
{
    let mut seen = BTreeMap::new(alloc);
    let mut table = List::new(alloc);
    for (i, entry) in pool.iter().enumerate() {
        table.push(facts_at(alloc, &mut seen, entry, i as u16)?)?;
    }
    Ok(table)
}
