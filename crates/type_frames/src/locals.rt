//! Joins of locals, of which a part alone is looked at.

ghost use Rattle.std.specs.Prelude.{◌≡◌, ℕ, ◌<◌, ◌≤◌, false, IsTrue, length};
ghost use Rattle.std.specs.Prelude.{List as AList};
ghost use Rattle.jk_model_typing.specs.declared.frames.VType.{VType as AType};
ghost use Rattle.jk_model_typing.specs.FrameTypes.{EachFits};
ghost use Rattle.type_frames.specs.FrameJoins.{FitOutside, IsRaisedAt};
ghost use Rattle.type_frames.specs.Heights.{heights};

use crate::types::join;
use class_table::ClassTable;
use jk_model::List;
use jk_model_typing::VType;

/// Joins locals into others, and says whether these changed. Only the places from `first` up to `end` are looked at: at the
/// others the locals fit already.
pub fn raise_locals(
    t: &ClassTable,
    into: &mut List<VType>,
    from: &[VType],
    first: usize,
    end: usize,
) -> bool
    requires length { length into.old ≡ length from.now }
    requires within { end ≤ length from.now }
    requires outside { FitOutside t.now first end from.now into.old }
    ensures left { EachFits t.now into.old into.new }
    ensures right { EachFits t.now from.now into.new }
    ensures least { (d : AList AType) → EachFits t.now into.old d → EachFits t.now from.now d → EachFits t.now into.new d }
    ensures same { result ≡ false → into.new ≡ into.old }
    ensures falls { IsTrue result → heights t.now into.new < heights t.now into.old }
{
    t.ordered();
    let mut changed = false;
    for i in first..end {
        changed |= raise_at(t, into, i, &from[i]);
    }
    changed
}

/// Joins a type into the one at a place of a list, and says whether this one changed.
fn raise_at(t: &ClassTable, into: &mut List<VType>, i: usize, from: &VType) -> bool
    requires { i < length into.old }
    ensures raised { IsRaisedAt t.now i from.now into.old into.new }
    ensures same { result ≡ false → into.new ≡ into.old }
    ensures falls { IsTrue result → heights t.now into.new < heights t.now into.old }
{
    let Some(old) = into.get(i) else {
        unreachable!()
    };
    let new = join(t, old, from);
    let changed = new != *old;
    if changed {
        into.replace(i, new);
    }
    changed
}
