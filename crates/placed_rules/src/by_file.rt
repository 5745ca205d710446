//! Rules that are read of each class of a folder, and the first file whose class breaks one.

ghost use Rattle.std.specs.Prelude.{◌≡◌, ℕ, List, Some, length, slice_get};
ghost use Rattle.jk_model_classes.specs.Items.{Spot};
ghost use Rattle.link_rules.specs.LinkFaults.{IsLeastNumber};
ghost use Rattle.placed_rules.specs.FirstFiles.{IsFirstFault, first_file};

use class_files::FileFault;
use jk_model::Rule;

/// A rule that each class of a folder keeps or breaks.
pub(crate) trait ClassRule {
    // the places of the files, in the order of their classes
    ghost order: { Self → List ℕ };

    // what the rule takes for granted
    ghost is_ready: { Self → Type 0 };

    // the class at a place of the order breaks the rule at a spot
    ghost breaks: { Self → ℕ → Spot → Type 0 };

    /// The least number at which the class at a place of the order, which is that of this file, breaks the rule.
    fn least_number(&self, place: usize, file: usize) -> Option<u32>
        requires ready { is_ready self.now }
        requires there { slice_get (order self.now) place ≡ Some file }
        ensures { IsLeastNumber (breaks self.now place) result };
}

/// Of the fault so far and that of another file, the one of the earlier file.
pub(crate) fn earlier(best: Option<FileFault>, next: FileFault) -> FileFault
    ensures { result ≡ first_file best next }
{
    let Some(fault) = best else {
        return next;
    };
    if next.file < fault.file { next } else { fault }
}

/// The first file whose class breaks a rule, with the least number where it does. It asks each class once.
pub(crate) fn first_broken<R: ClassRule>(
    rule: Rule,
    judged: &R,
    order: &[usize],
) -> Option<FileFault>
    requires order { R.order judged.now ≡ order.now }
    requires ready { R.is_ready judged.now }
    ensures { IsFirstFault rule (length order.now) order.now (R.breaks judged.now) result }
{
    let mut best = None;
    for (place, file) in order.iter().enumerate() {
        let file = *file;
        if let Some(number) = judged.least_number(place, file) {
            best = Some(earlier(best, FileFault { rule, file, number }));
        }
    }
    best
}
