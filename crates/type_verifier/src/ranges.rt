//! Ranges of locals: those that may have risen.

ghost use Rattle.std.specs.Prelude.{◌≡◌, ℕ, ◌+◌, ◌-◌, pos, IsTrue};
ghost use Rattle.jk_model_typing.specs.Typing.{is_store};
ghost use Rattle.type_verifier.specs.Ranges.{IsClipped, IsLeft, IsNoteAt, IsWithin, RangeAt};

use jk_model::Instr;
use jk_model::opcodes::{INVOKESPECIAL, NEW};
use type_rows::is_store;

/// The locals from `first` up to `end`; none where `end` isn't past `first`.
#[derive(Clone, Copy)]
pub(crate) struct LocalRange {
    pub first: usize,
    pub end: usize,
}

/// No locals: a range that widens no other.
pub(crate) fn no_locals() -> LocalRange
    ensures { result.end ≡ 0 }
{
    LocalRange {
        first: usize::MAX,
        end: 0,
    }
}

/// The least range with the locals of both.
pub(crate) fn hull(a: LocalRange, b: LocalRange) -> LocalRange
    ensures left { IsWithin a result }
    ensures right { IsWithin b result }
{
    LocalRange {
        first: a.first.min(b.first),
        end: a.end.max(b.end),
    }
}

/// The range that is noted for a place; no locals where none is.
pub(crate) fn range_at(rose: &[LocalRange], place: usize) -> LocalRange
    ensures { RangeAt rose.now place result }
{
    match rose.get(place) {
        Some(range) => *range,
        None => no_locals(),
    }
}

/// Notes a range for a place.
pub(crate) fn note(rose: &mut Vec<LocalRange>, place: usize, range: LocalRange)
    ensures { IsNoteAt rose.old.items place range rose.new.items }
{
    if place < rose.len() {
        rose[place] = range;
    }
}

/// The locals that a store may change: the one that it names and those beside it.
fn stored_by(i: &Instr) -> LocalRange
    requires { (n : ℕ) × (i.now.a ≡ pos n) }
    ensures { (n : ℕ) → i.now.a ≡ pos n → (result.first ≡ n - 1) × (result.end ≡ n + 2) }
{
    let local = i.a as usize;
    LocalRange {
        first: local.saturating_sub(1),
        end: local + 2,
    }
}

/// The locals that may differ after an instruction, of so many, where those of a range may differ before it.
pub(crate) fn left_by(i: &Instr, range: LocalRange, count: usize) -> LocalRange
    requires { IsTrue (is_store i.now.op) → (n : ℕ) × (i.now.a ≡ pos n) }
    ensures { IsLeft i.now range count result }
{
    if i.op == NEW || i.op == INVOKESPECIAL {
        return LocalRange {
            first: 0,
            end: count,
        };
    }
    if is_store(i.op) {
        return clipped(hull(range, stored_by(i)), count);
    }
    clipped(range, count)
}

/// A range, as far as there are so many locals.
pub(crate) fn clipped(range: LocalRange, count: usize) -> LocalRange
    ensures { IsClipped range count result }
{
    LocalRange {
        first: range.first,
        end: range.end.min(count),
    }
}
