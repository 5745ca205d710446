//! C22 over the classes of a folder, each of which is asked once for final methods that were met above it.

ghost use Rattle.std.specs.Prelude.{◌≡◌, ◌+◌, ◌<◌, ◌⊎◌, ◌↔◌, ℕ, IfNone, IfOk, IfSome, IsTrue, OnOk, Option, Some, slice_get};
ghost use Rattle.jk_model_classes.specs.declared.records.ClassRecord.{ClassRecord as AClass};
ghost use Rattle.link_rules.specs.FinalMethods.{IsFinalFault, IsFirstPlace, IsInside, OverridesWhere};
ghost use Rattle.link_rules.specs.FolderFinals.{AreJudged, AreNumbers, IsMetAt, IsReadyAt, IsWithin};

use crate::final_methods::{earlier, final_fault, first_overriding, number_of, overrides_from};
use crate::met_finals::{MetFinals, keep_finals, may_override, number_of_package};
use crate::spans::{Span, downwards, spans_from};
use class_table::ClassTable;
use jk_model::{ClassId, OutOfMemory};
use jk_model_classes::{ClassRecord, MethodRecord};
use std::alloc::Global;
use std::collections::BTreeMap;
use std::marker::Model;

/// What C22 says of the classes of a folder, which stand from one on in a table. A contract sees the table.
#[derive(Drop)]
pub struct FolderFinals<'t> {
    t: &'t ClassTable,
    first: ClassId,
    /// For each class of the folder its least number, where it was judged with the others.
    numbers: Vec<Option<Option<u32>>>,
}

impl<'t> Model for FolderFinals<'t> {
    ghost use Rattle.std.specs.Prelude.{List};
    ghost use Rattle.jk_model_classes.specs.declared.records.ClassRecord.{ClassRecord};
    ghost use Rattle.link_rules.specs.FolderFinals.{AreNumbers};

    ghost Value = { List ClassRecord };

    ghost view = { λ f. f.t.now };

    ghost invariant = { λ f. AreNumbers f.t.now f.first f.numbers.items };
}

impl<'t> FolderFinals<'t> {
    ghost use Rattle.std.specs.Prelude.{◌≡◌};
    ghost use Rattle.link_rules.specs.FinalMethods.{IsFinalFault};

    /// Judges the classes from `first` on. It takes time in proportion to n log n for their n methods, and to their names. For each
    /// class it takes a step for each class above, or a search there where the class breaks the rule; and at most a search for each
    /// of its methods in each class above that stands before `first`. It takes memory in proportion to the classes and their final
    /// methods. Where it finds none, `fault` judges each class by itself.
    pub fn new(alloc: Global, t: &'t ClassTable, first: ClassId) -> FolderFinals<'t>
        ensures { result ≡ t.now }
    {
        let numbers = numbers_or_none(alloc, t, first);
        FolderFinals { t, first, numbers }
    }

    /// The least number of a method of the class that overrides a final one of a class above; none where there is none. It takes
    /// no memory, and constant time for a class that was judged.
    pub fn fault(&self, class: ClassId) -> Option<u32>
        ensures { IsFinalFault self.now class result }
    {
        match number_at(self.numbers.as_slice(), self.first, class) {
            Some(number) => number,
            None => final_fault(self.t, class),
        }
    }
}

/// The place of a class among those from `first` on.
fn place_of(first: ClassId, class: ClassId) -> Option<usize>
    ensures none { IfNone result (class.0 < first.0) }
    ensures some { IfSome result (λ place. class.0 ≡ first.0 + place) }
{
    let place = class.0.checked_sub(first.0)?;
    Some(place as usize)
}

/// The number of a class that was judged.
fn number_at(numbers: &[Option<Option<u32>>], first: ClassId, class: ClassId) -> Option<Option<u32>>
    ensures { IfSome result (λ number. (place : ℕ) × (class.0 ≡ first.0 + place) × (slice_get numbers.now place ≡ Some (Some number))) }
{
    numbers.get(place_of(first, class)?).copied()?
}

/// The span of a class.
fn span_at(spans: &[Span], first: ClassId, class: ClassId) -> Option<Span>
    ensures { IfSome result (λ span. (place : ℕ) × (class.0 ≡ first.0 + place) × (slice_get spans.now place ≡ Some span)) }
{
    spans.get(place_of(first, class)?).copied()
}

/// The numbers of the classes from `first` on, where there is memory to judge them together.
fn numbers_or_none(alloc: Global, t: &ClassTable, first: ClassId) -> Vec<Option<Option<u32>>>
    ensures { AreNumbers t.now first result.items }
{
    match numbers_from(alloc, t, first) {
        Ok(numbers) => numbers,
        Err(OutOfMemory) => Vec::new(alloc),
    }
}

/// The numbers of the classes from `first` on.
fn numbers_from(
    alloc: Global,
    t: &ClassTable,
    first: ClassId,
) -> Result<Vec<Option<Option<u32>>>, OutOfMemory>
    ensures { IfOk result (λ numbers. AreNumbers t.now first numbers.items) }
{
    let spans = spans_from(alloc, t, first)?;
    let order = downwards(alloc, first, spans.as_slice())?;
    let mut met = BTreeMap::new(alloc);
    let mut numbers = vec![in alloc; None; spans.len()]?;
    for i in 0..order.len() {
        let numbers = numbers.as_mut_slice();
        judge(t, first, order[i], spans.as_slice(), &mut met, numbers)?;
    }
    Ok(numbers)
}

/// Judges a class, if its parent was judged or stands before the folder's classes, and keeps its final methods.
fn judge(
    t: &ClassTable,
    first: ClassId,
    class: ClassId,
    spans: &[Span],
    met: &mut MetFinals,
    numbers: &mut [Option<Option<u32>>],
) -> Result<(), OutOfMemory>
    requires { AreJudged t.now first spans.now met.old numbers.old }
    ensures { OnOk result (AreJudged t.now first spans.now met.new numbers.new) }
{
    t.ordered();
    let Some(r) = t.class(class) else {
        return Ok(());
    };
    let Some(span) = span_at(spans, first, class) else {
        return Ok(());
    };
    if !is_ready(r.parent, span, first, spans, numbers) {
        return Ok(());
    }
    let package_number = number_of_package(r.name.as_slice());
    let above = Above {
        t,
        first,
        class,
        package_number,
        least: span.from + 1,
        met,
    };
    let number = number_below(&above, r);
    keep_finals(met, span.until, package_number, r.methods.as_slice())?;
    set_number(numbers, first, class, number);
    Ok(())
}

/// Gives a class its number, where there is room for it.
fn set_number(
    numbers: &mut [Option<Option<u32>>],
    first: ClassId,
    class: ClassId,
    number: Option<u32>,
)
    ensures { (place : ℕ) (n : Option ℕ) → slice_get numbers.new place ≡ Some (Some n)
        → (slice_get numbers.old place ≡ Some (Some n)) ⊎ ((class.0 ≡ first.0 + place) × (n ≡ number)) }
{
    let Some(place) = place_of(first, class) else {
        return;
    };
    if place < numbers.len() {
        numbers[place] = Some(number);
    }
}

/// Whether the numbers of a class with this parent are among those of the parent, which was judged, or the parent stands before
/// the folder's classes.
fn is_ready(
    parent: Option<ClassId>,
    span: Span,
    first: ClassId,
    spans: &[Span],
    numbers: &[Option<Option<u32>>],
) -> bool
    ensures { IsTrue result → IsReadyAt first spans.now numbers.now parent span }
{
    if span.from >= span.until {
        return false;
    }
    match parent {
        Some(p) => p.0 < first.0 || is_within(p, span, first, spans, numbers),
        None => true,
    }
}

/// Whether a class of the folder was judged, and its span ends no earlier than this one.
fn is_within(
    p: ClassId,
    span: Span,
    first: ClassId,
    spans: &[Span],
    numbers: &[Option<Option<u32>>],
) -> bool
    ensures { IsTrue result → IsWithin first spans.now numbers.now p span }
{
    let Some(above) = span_at(spans, first, p) else {
        return false;
    };
    number_at(numbers, first, p).is_some() && span.until <= above.until
}

/// A class, and the final methods that were met above it.
#[derive(Drop)]
struct Above<'a> {
    t: &'a ClassTable,
    first: ClassId,
    class: ClassId,
    /// The number of its package.
    package_number: u64,
    /// What was met above it was met up to this number, or a greater one.
    least: u32,
    met: &'a MetFinals,
}

/// The least number of a method of the class that overrides a final one.
fn number_below(above: &Above<'_>, r: &ClassRecord) -> Option<u32>
    requires { IsMetAt above.now r.now }
    ensures { IsFinalFault above.now.t.now above.now.class result }
{
    above.t.ordered();
    let methods = r.methods.as_slice();
    let outside = first_overriding(above.t, above.class, above.first, methods);
    let inside = first_inside(above, methods);
    number_of(above.t, above.class, r, earlier(outside, inside))
}

/// The place of the first of the class's methods that overrides a final one of the folder's classes.
fn first_inside(above: &Above<'_>, methods: &[MethodRecord]) -> Option<usize>
    requires { (r : AClass) × IsMetAt above.now r }
    ensures { IsFirstPlace (OverridesWhere (IsInside above.now.first) above.now.t.now above.now.class) methods.now result }
{
    for i in 0..methods.len() {
        if overrides_met(above, &methods[i]) {
            return Some(i);
        }
    }
    None
}

/// Whether a method of the class overrides a final one of the folder's classes. None is looked for where none was met.
fn overrides_met(above: &Above<'_>, method: &MethodRecord) -> bool
    requires { (r : AClass) × IsMetAt above.now r }
    ensures { IsTrue result ↔ OverridesWhere (IsInside above.now.first) above.now.t.now above.now.class method.now }
{
    if !may_override(above.met, above.least, above.package_number, method) {
        return false;
    }
    overrides_from(above.t, above.class, above.first, method)
}
