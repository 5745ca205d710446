//! Which rule on the typing of code the methods of a class break.

ghost use Rattle.std.specs.Prelude.{◌≡◌, ◌<◌, ◌^◌, length, IfSome};
ghost use Rattle.jk_model_typing.specs.Scopes.{CodeScope, IsScopeOf};

use class_table::ClassTable;
use jk_model::{ClassId, MemberId, OutOfMemory, Rule};
use jk_model_classes::{Body, LinkedCode};
use member_lookup::method_record;
use std::alloc::Global;
use type_verifier::verify;

/// The most slots that the frames of a code may have together.
const MOST_SLOTS: usize = 4_194_304;

/// The most instructions of a code.
const MOST_INSTRS: usize = 65_535;

/// The code of a method; none where it has none.
fn code_of(table: &ClassTable, method: MemberId) -> Option<&LinkedCode>
    ensures { IfSome result (λ code. (s : CodeScope) → IsScopeOf table.now method s → code.now ≡ s.code) }
{
    match &method_record(table, method)?.body {
        Body::Linked(code) => Some(code),
        Body::Absent | Body::System(_) => None,
    }
}

/// Whether the frames of a code would have too many slots.
fn is_large(code: &LinkedCode) -> bool {
    let slots = usize::from(code.max_locals) + usize::from(code.max_stack);
    code.instrs.len().saturating_mul(slots) > MOST_SLOTS
}

/// Whether a method has a code without a typing. A code has at most 65,535 bytes, and so no more instructions.
fn is_untyped(alloc: Global, table: &ClassTable, method: MemberId) -> Result<bool, OutOfMemory> {
    match code_of(table, method) {
        Some(code) if code.instrs.len() <= MOST_INSTRS => {
            Ok(verify(alloc, table, method)?.is_none())
        }
        Some(_) => Ok(true),
        None => Ok(false),
    }
}

/// The place of the first method of a class, of so many, whose code is too large.
fn first_large(table: &ClassTable, class: ClassId, count: u16) -> Option<u16> {
    (0..count).find(|index| {
        let method = MemberId {
            class,
            index: *index,
        };
        code_of(table, method).is_some_and(is_large)
    })
}

/// The place of the first method of a class, of so many, that has a code without a typing.
fn first_untyped(
    alloc: Global,
    table: &ClassTable,
    class: ClassId,
    count: u16,
) -> Result<Option<u16>, OutOfMemory> {
    for index in 0..count {
        if is_untyped(alloc, table, MemberId { class, index })? {
            return Ok(Some(index));
        }
    }
    Ok(None)
}

/// The number of the method at a place, after so many fields.
fn number_of(fields: usize, place: u16) -> u32
    requires { fields < 2 ^ 16 }
{
    fields as u32 + u32::from(place) + 1
}

/// The first rule that the methods of a class break, and the number of the least method that breaks it.
pub(crate) fn first_broken(
    alloc: Global,
    table: &ClassTable,
    class: ClassId,
) -> Result<Option<(Rule, u32)>, OutOfMemory> {
    table.ordered();
    let Some(record) = table.class(class) else {
        return Ok(None);
    };
    let fields = record.fields.len();
    let methods = record.methods.len() as u16;
    if let Some(place) = first_large(table, class, methods) {
        return Ok(Some((Rule::C24, number_of(fields, place))));
    }
    match first_untyped(alloc, table, class, methods)? {
        Some(place) => Ok(Some((Rule::C23, number_of(fields, place)))),
        None => Ok(None),
    }
}
