//! C23: methods whose code has no typing.

ghost use Rattle.std.specs.Prelude.{◌≡◌, ◌+◌, ◌<◌, ◌≤◌, IfNone, IfOk, IfSome, IsTrue, Some, not, length};
ghost use Rattle.jk_model_classes.specs.declared.records.ClassRecord.{ClassRecord as ARecord};
ghost use Rattle.jk_model_classes.specs.Classes.{record_of};
ghost use Rattle.jk_model_classes.specs.Lookups.{MethodIs};
ghost use Rattle.jk_model_typing.specs.Typing.{BreaksC23};
ghost use Rattle.link_rules.specs.LinkFaults.{IsLeastNumber};
ghost use Rattle.placed_rules.specs.Codes.{AreShort, AreShortFrom, AreTypedBefore, AtMember, IsFirstUntyped, IsShort, IsTypedAt, IsUntypedAt};
ghost use Rattle.placed_rules.specs.FirstFiles.{IsFirstFault};
ghost use Rattle.placed_rules.specs.PlacedFaults.{AreTypedFrom, class_at};
ghost use Rattle.jk_model.specs.declared.output.Rule.TheVariants as Named;

use crate::by_file::earlier;
use class_files::FileFault;
use class_table::ClassTable;
use jk_model::{ClassId, MemberId, OutOfMemory, Rule};
use jk_model_classes::{Body, MethodRecord};
use std::alloc::Global;
use type_verifier::has_typing;

/// The first file whose class has a method whose code has no typing, with the least number of such a method; none where each
/// is typed. It asks each class once.
pub(crate) fn first_untyped_file(
    alloc: Global,
    t: &ClassTable,
    order: &[usize],
    first: ClassId,
) -> Result<Option<FileFault>, OutOfMemory>
    requires count { length t.now ≡ first.0 + length order.now }
    requires short { AreShortFrom t.now first (length order.now) }
    ensures fault { IfOk result (λ found. IsFirstFault Named.C23 (length order.now) order.now (λ k. AtMember (BreaksC23 t.now (class_at first k))) found) }
    ensures typed { IfOk result (λ found. IfNone found (AreTypedFrom t.now first)) }
{
    let _count = t.len();
    let mut best = None;
    for (place, file) in order.iter().enumerate() {
        let file = *file;
        if let Some(number) = untyped(alloc, t, ClassId(first.0 + place as u32))? {
            best = Some(earlier(
                best,
                FileFault {
                    rule: Rule::C23,
                    file,
                    number,
                },
            ));
        }
    }
    Ok(best)
}

/// The least number of a method of the class whose code has no typing; none where each is typed.
fn untyped(alloc: Global, t: &ClassTable, class: ClassId) -> Result<Option<u32>, OutOfMemory>
    requires short { (r : ARecord) → record_of t.now class ≡ Some r → AreShort r.methods }
    ensures number { IfOk result (λ found. IsLeastNumber (AtMember (BreaksC23 t.now class)) found) }
    ensures typed { IfOk result (λ found. IfNone found ((r : ARecord) → record_of t.now class ≡ Some r → AreTypedBefore t.now class (length r.methods))) }
{
    t.ordered();
    let Some(r) = t.class(class) else {
        return Ok(None);
    };
    match first_untyped(alloc, t, class, r.methods.as_slice())? {
        Some(i) => Ok(Some((r.fields.len() + i + 1) as u32)),
        None => Ok(None),
    }
}

/// The place of the first of the class's methods whose code has no typing.
fn first_untyped(
    alloc: Global,
    t: &ClassTable,
    class: ClassId,
    methods: &[MethodRecord],
) -> Result<Option<usize>, OutOfMemory>
    requires own { (r : ARecord) × (record_of t.now class ≡ Some r) × (r.methods ≡ methods.now) }
    requires short { AreShort methods.now }
    requires few { length methods.now ≤ 65535 }
    ensures { IfOk result (λ found. IsFirstUntyped t.now class methods.now found) }
{
    for i in 0..methods.len() {
        let m = MemberId {
            class,
            index: i as u16,
        };
        if !is_typed(alloc, t, m, &methods[i])? {
            return Ok(Some(i));
        }
    }
    Ok(None)
}

/// Whether a method has no code, or code that has a typing.
fn is_typed(
    alloc: Global,
    t: &ClassTable,
    m: MemberId,
    method: &MethodRecord,
) -> Result<bool, OutOfMemory>
    requires method { MethodIs t.now m method.now }
    requires short { IsShort method.now }
    ensures typed { IfOk result (λ typed. IsTrue typed → IsTypedAt t.now m) }
    ensures untyped { IfOk result (λ typed. IsTrue (not typed) → IsUntypedAt t.now m method.now) }
{
    match &method.body {
        Body::Linked(_) => has_typing(alloc, t, m),
        _ => Ok(true),
    }
}
