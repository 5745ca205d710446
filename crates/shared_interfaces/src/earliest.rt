//! Of classes that break a rule, the one whose path comes first.

ghost use Rattle.std.specs.Prelude.{◌↔◌, IsTrue};
ghost use Rattle.jk_model_classes.specs.SharedRules.{IsPathBefore};
ghost use Rattle.shared_interfaces.specs.Earliest.{IsEarlier};

use crate::path_order::is_path_before;
use class_table::ClassTable;
use jk_model::ClassId;

/// A class that breaks a rule, and the least number where it does.
pub(crate) type Breach = (ClassId, u32);

/// Whether the path of one class comes before that of another.
fn comes_before(classes: &ClassTable, a: ClassId, b: ClassId) -> bool
    ensures { IsTrue result ↔ IsPathBefore classes.now a b }
{
    let Some(of_a) = classes.class(a) else {
        return false;
    };
    let Some(of_b) = classes.class(b) else {
        return false;
    };
    is_path_before(of_a.name.as_slice(), of_b.name.as_slice())
}

/// Of the best breach so far and that of class c at a number, if there is one, the one whose path comes first. The one so far
/// stays where no path comes before the other.
pub(crate) fn earlier(
    classes: &ClassTable,
    best: Option<Breach>,
    c: ClassId,
    number: Option<u32>,
) -> Option<Breach>
    ensures { IsEarlier classes.now best c number result }
{
    let Some(number) = number else {
        return best;
    };
    match best {
        Some((other, _)) if !comes_before(classes, c, other) => best,
        _ => Some((c, number)),
    }
}
