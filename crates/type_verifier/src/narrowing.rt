//! Which locals of a range rise: only these are joined and noted.

ghost use Rattle.std.specs.Prelude.{◌≡◌, ◌<◌, ◌≤◌, length};
ghost use Rattle.type_frames.specs.FrameJoins.{FitOutside};

use crate::ranges::{LocalRange, no_locals};
use class_table::ClassTable;
use jk_model_typing::VType;
use type_frames::fits;

/// The least range with the locals of a range that don't fit those below them.
pub(crate) fn narrowed(
    t: &ClassTable,
    from: &[VType],
    into: &[VType],
    range: LocalRange,
) -> LocalRange
    requires length { length into.now ≡ length from.now }
    requires within { range.end ≤ length from.now }
    requires outside { FitOutside t.now range.first range.end from.now into.now }
    ensures within { result.end ≤ length from.now }
    ensures outside { FitOutside t.now result.first result.end from.now into.now }
{
    let first = first_rise(t, from, into, range);
    let end = end_of_rises(t, from, into, first, range.end);
    if first < end {
        LocalRange { first, end }
    } else {
        no_locals()
    }
}

/// The first local of a range that doesn't fit; one past the range where all fit.
fn first_rise(t: &ClassTable, from: &[VType], into: &[VType], range: LocalRange) -> usize
    requires length { length into.now ≡ length from.now }
    requires within { range.end ≤ length from.now }
    requires outside { FitOutside t.now range.first range.end from.now into.now }
    ensures outside { FitOutside t.now result range.end from.now into.now }
{
    let mut first = range.first;
    while first < range.end {
        if !fits(t, &from[first], &into[first]) {
            return first;
        }
        first += 1;
    }
    first
}

/// One past the last local of a range that doesn't fit; at most its first where all fit.
fn end_of_rises(t: &ClassTable, from: &[VType], into: &[VType], first: usize, end: usize) -> usize
    requires length { length into.now ≡ length from.now }
    requires within { end ≤ length from.now }
    requires outside { FitOutside t.now first end from.now into.now }
    ensures within { result ≤ length from.now }
    ensures outside { FitOutside t.now first result from.now into.now }
{
    let mut end = end;
    while first < end {
        let last = end - 1;
        if !fits(t, &from[last], &into[last]) {
            return end;
        }
        end = last;
    }
    end
}
