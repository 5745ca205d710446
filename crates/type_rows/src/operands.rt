//! What an instruction's operands lead to.

ghost use Rattle.std.specs.Prelude.{◌≡◌, ℕ, ◌↔◌, IsTrue, MatchOption, pos};
ghost use Rattle.jk_model_typing.specs.Scopes.{NamesClass};
ghost use Rattle.type_rows.specs.CodeViews.{scope_of};
ghost use Rattle.type_rows.specs.Operands.{HasNoField, HasNoLink, HasNoMethod, IsField, IsLink, IsMethod};

use crate::code_view::CodeView;
use jk_model::{ClassId, Instr, MemberId};
use jk_model_classes::{BaseRef, FieldRecord, Link, MethodRecord, TypeRef};
use member_lookup::{field_record, method_record};

/// A field that an instruction names: by which class, and the one found.
#[derive(Clone, Copy)]
pub(crate) struct UsedField<'a> {
    pub(crate) named: ClassId,
    pub(crate) member: MemberId,
    pub(crate) record: &'a FieldRecord,
}

/// A method that an instruction names: by which class, and the one found.
#[derive(Clone, Copy)]
pub(crate) struct UsedMethod<'a> {
    pub(crate) named: ClassId,
    pub(crate) member: MemberId,
    pub(crate) record: &'a MethodRecord,
}

/// An operand that isn't negative, as a number.
pub(crate) fn number_of(operand: i32) -> Option<u32>
    ensures { MatchOption result ((n : ℕ) → operand ≡ pos n → ⊥) (λ n. operand ≡ pos n) }
{
    if operand >= 0 {
        Some(operand as u32)
    } else {
        None
    }
}

/// What the first operand leads to in the pool.
pub(crate) fn link_of<'a>(view: &CodeView<'a>, i: &Instr) -> Option<&'a Link>
    ensures { MatchOption result (HasNoLink (scope_of view.now) i.now) (λ link. IsLink (scope_of view.now) i.now link.now) }
{
    view.links.get(number_of(i.a)? as usize)
}

/// Whether it is the link of a type.
fn is_class(link: &Link, t: TypeRef) -> bool
    ensures { IsTrue result ↔ (link.now ≡ Link.Class t) }
{
    match link {
        Link::Class(named) => *named == t,
        _ => false,
    }
}

/// Whether the first operand names a class, which is no array.
pub(crate) fn names_class(view: &CodeView<'_>, i: &Instr, c: ClassId) -> bool
    ensures { IsTrue result ↔ NamesClass (scope_of view.now) i.now c }
{
    let t = TypeRef {
        dims: 0,
        base: BaseRef::Class(c),
    };
    match link_of(view, i) {
        Some(link) => is_class(link, t),
        None => false,
    }
}

/// The field that the first operand leads to.
pub(crate) fn used_field<'a>(view: &CodeView<'a>, i: &Instr) -> Option<UsedField<'a>>
    ensures { MatchOption result (HasNoField (scope_of view.now) i.now) (λ used. IsField (scope_of view.now) i.now used) }
{
    match link_of(view, i)? {
        Link::Field(named, m) => Some(UsedField {
            named: *named,
            member: *m,
            record: field_record(view.table, *m)?,
        }),
        _ => None,
    }
}

/// The method that the first operand leads to.
pub(crate) fn used_method<'a>(view: &CodeView<'a>, i: &Instr) -> Option<UsedMethod<'a>>
    ensures { MatchOption result (HasNoMethod (scope_of view.now) i.now) (λ used. IsMethod (scope_of view.now) i.now used) }
{
    match link_of(view, i)? {
        Link::Method(named, m) => Some(UsedMethod {
            named: *named,
            member: *m,
            record: method_record(view.table, *m)?,
        }),
        _ => None,
    }
}
