//! Classes above classes.

ghost use Rattle.std.specs.Prelude.{◌≡◌, ℕ, MatchOption};
ghost use Rattle.std.specs.Option.{option_to_list};
ghost use Rattle.jk_model.specs.declared.identifiers.ClassId.{ClassId as AClassId};
ghost use Rattle.jk_model_classes.specs.Classes.{IsSubclass, parents_of};
ghost use Rattle.type_frames.specs.TypesAbove.{IsNearest};

use class_table::ClassTable;
use jk_model::ClassId;

/// The parent of a class; none where it has none, and where there is no such class.
fn parent_of(t: &ClassTable, c: ClassId) -> Option<ClassId>
    ensures { parents_of t.now c ≡ option_to_list result }
{
    t.class(c)?.parent
}

/// The nearest class that is above both or one of them; none where there is none.
pub(crate) fn common_class(t: &ClassTable, a: ClassId, b: ClassId) -> Option<ClassId>
    ensures { MatchOption result ((c : AClassId) → IsSubclass t.now a c → IsSubclass t.now b c → ⊥) (IsNearest t.now a b) }
{
    t.ordered();
    let mut left = a;
    let mut right = b;
    while left != right {
        if left.0 > right.0 {
            left = parent_of(t, left)?;
        } else {
            right = parent_of(t, right)?;
        }
    }
    Some(left)
}
