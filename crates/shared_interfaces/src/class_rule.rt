//! Rules that each class of a folder keeps or breaks by itself, and the first class that breaks one.

ghost use Rattle.std.specs.Prelude.{◌≡◌, ◌≤◌, ℕ, List, Some};
ghost use Rattle.jk_model.specs.declared.identifiers.ClassId.{ClassId as AClass};
ghost use Rattle.jk_model_classes.specs.declared.records.ClassRecord.{ClassRecord as ARecord};
ghost use Rattle.jk_model_classes.specs.Classes.{record_of};
ghost use Rattle.jk_model_classes.specs.SharedRules.{IsOfFolder, methods_before};
ghost use Rattle.shared_interfaces.specs.Earliest.{IsEarliest, IsLeast};

use crate::earliest::{Breach, earlier};
use class_table::ClassTable;
use jk_model::ClassId;
use jk_model_classes::ClassRecord;

/// A rule that each class of a folder keeps or breaks by itself.
pub(crate) trait ClassRule {
    // the records of all classes
    ghost classes: { Self → List ARecord };

    // the first class of the folder
    ghost first: { Self → AClass };

    // what the rule takes for granted
    ghost is_ready: { Self → Type 0 };

    // a class breaks the rule at a number
    ghost breaks: { Self → AClass → ℕ → Type 0 };

    /// The least number at which a class of the folder breaks the rule. So many methods stand before those of this
    /// class in the folder.
    fn least_number(&self, c: ClassId, class: &ClassRecord, passed: usize) -> Option<u32>
        requires ready { is_ready self.now }
        requires folder { (first self.now).0 ≤ c.0 }
        requires known { record_of (classes self.now) c ≡ Some class.now }
        requires place { passed ≡ methods_before (classes self.now) (first self.now) c.0 }
        ensures { IsLeast (breaks self.now c) result };
}

/// The first class of a folder that breaks a rule, with the least number where it does. It asks each class once.
pub(crate) fn first_to_break<R: ClassRule>(
    rule: &R,
    classes: &ClassTable,
    first: ClassId,
) -> Option<Breach>
    requires classes { R.classes rule.now ≡ classes.now }
    requires first { R.first rule.now ≡ first }
    requires ready { R.is_ready rule.now }
    requires folder { (c : AClass) (n : ℕ) → R.breaks rule.now c n → IsOfFolder classes.now first c }
    ensures { IsEarliest classes.now (R.breaks rule.now) result }
{
    classes.ordered();
    let mut best = None;
    let mut passed = 0;
    for number in first.0..classes.len() as u32 {
        let c = ClassId(number);
        let Some(class) = classes.class(c) else {
            unreachable!();
        };
        best = earlier(classes, best, c, rule.least_number(c, class, passed));
        passed += class.methods.len();
    }
    best
}
