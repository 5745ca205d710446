//! C25 and C26.

ghost use Rattle.std.specs.Prelude.{◌≤◌, length, IfNone, IfSome};
ghost use Rattle.jk_model_classes.specs.SharedRules.{BreaksC25, HasNoShareFault, IsShareFault};
ghost use Rattle.shared_interfaces.specs.Earliest.{IsLeast};
ghost use Rattle.shared_interfaces.specs.Shapes.{IsStaticAt};

use crate::class_rule::{ClassRule, first_to_break};
use crate::references::first_exposed;
use class_table::ClassTable;
use domain_resolver::{Offers, World};
use jk_model::{AccessFlags, ClassId, DomainId, Rule, has};
use jk_model_classes::{ClassFault, ClassRecord, FieldRecord};

/// The first of C25 and C26 that the shared classes of a folder break, with the class whose file comes first and the least
/// member; none where they break neither. The classes from `first` on are those of the folder, `home` is the number of the
/// domain that is loaded, and `offers` is what it offers. It takes no memory, and time in proportion to the classes and
/// fields of the folder, to the offers, and to the references of each class that is offered, in each of which it makes a
/// search in order. A reference that isn't of the system, nor offered to all, takes a search for each offer of the class
/// that refers to it, up to the first with which it doesn't go along, which ends the search for that class. So a reference
/// takes no more than the class has offers, and, where no two of these are the same, at most one more than the reference
/// has itself.
pub fn share_fault(
    w: &World,
    home: DomainId,
    first: ClassId,
    offers: &Offers,
) -> Option<(ClassId, ClassFault)>
    ensures fault { IfSome result (λ f. IsShareFault w.now home first offers.now f.0 f.1) }
    ensures no_fault { IfNone result (HasNoShareFault w.now home first offers.now) }
{
    let classes = w.classes();
    let rule = NoStatics {
        classes,
        first,
        offers,
    };
    match first_to_break(&rule, classes, first) {
        Some((c, number)) => Some((
            c,
            ClassFault {
                rule: Rule::C25,
                number,
            },
        )),
        None => {
            let (c, number) = first_exposed(w, home, first, offers)?;
            Some((
                c,
                ClassFault {
                    rule: Rule::C26,
                    number,
                },
            ))
        }
    }
}

/// C25: a shared class has no static field.
#[derive(Drop)]
struct NoStatics<'w> {
    classes: &'w ClassTable,
    first: ClassId,
    offers: &'w Offers,
}

impl ClassRule for NoStatics<'_> {
    ghost classes = { λ s. s.classes.now };

    ghost first = { λ s. s.first };

    ghost is_ready = { λ _. Unit {0} };

    ghost breaks = { λ s. BreaksC25 s.classes.now s.first s.offers.now };

    fn least_number(&self, c: ClassId, class: &ClassRecord, _passed: usize) -> Option<u32> {
        self.classes.ordered();
        if !self.offers.has_class(c) {
            return None;
        }
        first_static(class.fields.as_slice())
    }
}

/// The number of the first static field, where fields count from 1.
fn first_static(fields: &[FieldRecord]) -> Option<u32>
    requires { length fields.now ≤ 65535 }
    ensures { IsLeast (IsStaticAt fields.now) result }
{
    for (i, field) in fields.iter().enumerate() {
        if has(field.flags, AccessFlags::STATIC) {
            return Some(i as u32 + 1);
        }
    }
    None
}
