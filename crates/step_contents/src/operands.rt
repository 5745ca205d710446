//! What an instruction's operands lead to.

ghost use Rattle.std.specs.Prelude.{◌≡◌, ℕ, List as AList, IfNone, IfSome, MatchOption, pos};
ghost use Rattle.std.specs.Option.{option_map};
ghost use Rattle.jk_model.specs.declared.identifiers.ClassId.{ClassId as AClassId};
ghost use Rattle.jk_model.specs.declared.identifiers.MemberId.{MemberId as AMemberId};
ghost use Rattle.jk_model_classes.specs.declared.records.Link.TheVariants as To;
ghost use Rattle.jk_model_classes.specs.declared.records.TypeRef.{TypeRef as ATypeRef};
ghost use Rattle.jk_model_typing.specs.Scopes.{LeadsToLink, NamesClass};
ghost use Rattle.type_rows.specs.CodeViews.{scope_of};
ghost use Rattle.type_rows.specs.Operands.{HasNoLink, IsLink};
ghost use Rattle.step_contents.specs.Operands.{Leads, LeadsToField, LeadsToMethod, LeadsToText, LeadsToType, NeedsClass};
ghost use Rattle.step_contents.specs.StandingFrames.{place_of};

use crate::places::StandsAt;
use jk_model::opcodes::{GETSTATIC, INVOKESTATIC, NEW, PUTSTATIC};
use jk_model::{ClassId, MemberId};
use jk_model_classes::{BaseRef, Link, TypeRef};
use shared_values::Text;

/// An operand that isn't negative, as a number.
#[inline(always)]
fn number_of(operand: i32) -> Option<u32>
    ensures { MatchOption result ((n : ℕ) → operand ≡ pos n → ⊥) (λ n. operand ≡ pos n) }
{
    if operand >= 0 {
        Some(operand as u32)
    } else {
        None
    }
}

/// What the first operand of an instruction leads to, and that it leads to nothing else.
#[inline(always)]
fn only_link<'a>(at: &StandsAt<'a>) -> Option<&'a Link>
    ensures { MatchOption result (HasNoLink (scope_of at.now.code) at.now.instr.now) (λ link. IsLink (scope_of at.now.code) at.now.instr.now link.now) }
{
    at.code.links.get(number_of(at.instr.a)? as usize)
}

/// What the first operand of an instruction leads to in the pool of its class; none where it leads nowhere.
pub fn link_of<'a>(at: &StandsAt<'a>) -> Option<&'a Link>
    ensures { Leads (place_of at.now) (option_map (λ link. link.now) result) }
{
    match only_link(at) {
        Some(link) => Some(link),
        None => None,
    }
}

/// The text to which the first operand leads; none where it leads to something else.
pub fn text_of<'a>(at: &StandsAt<'a>) -> Option<&'a Text>
    ensures { LeadsToText (place_of at.now) (option_map (λ text. text.now) result) }
{
    match only_link(at) {
        Some(link) => match link {
            Link::Text(text) => Some(text),
            _ => None,
        },
        None => None,
    }
}

/// The field that an instruction names: the one that was found. The operand leads to a field.
#[inline(always)]
pub fn field_of(at: &StandsAt<'_>) -> MemberId
    requires { (m : AMemberId) × LeadsToField (place_of at.now) m }
    ensures { LeadsToField (place_of at.now) result }
{
    match only_link(at) {
        Some(link) => match link {
            Link::Field(_, m) => *m,
            _ => unreachable!(),
        },
        None => unreachable!(),
    }
}

/// The method that an instruction names: the one that was found. The operand leads to a method.
pub fn method_of(at: &StandsAt<'_>) -> MemberId
    requires { (m : AMemberId) × LeadsToMethod (place_of at.now) m }
    ensures { LeadsToMethod (place_of at.now) result }
{
    match only_link(at) {
        Some(link) => match link {
            Link::Method(_, m) => *m,
            _ => unreachable!(),
        },
        None => unreachable!(),
    }
}

/// The class or array type that an instruction names. The operand leads to one.
pub fn type_named<'a>(at: &StandsAt<'a>) -> &'a TypeRef
    requires { (t : ATypeRef) × LeadsToType (place_of at.now) t }
    ensures { LeadsToType (place_of at.now) result.now }
{
    match only_link(at) {
        Some(link) => match link {
            Link::Class(t) => t,
            _ => unreachable!(),
        },
        None => unreachable!(),
    }
}

/// The class of the field that an instruction names; none where it names no field.
#[inline(always)]
fn field_class(at: &StandsAt<'_>) -> Option<ClassId>
    ensures none { IfNone result ((c : AClassId) (m : AMemberId) → LeadsToLink (scope_of at.now.code) at.now.instr.now (To.Field c m) → ⊥) }
    ensures some { IfSome result (λ class. (c : AClassId) × (m : AMemberId) × LeadsToLink (scope_of at.now.code) at.now.instr.now (To.Field c m)
        × (class ≡ m.class)) }
{
    match only_link(at) {
        Some(link) => match link {
            Link::Field(_, m) => Some(m.class),
            _ => None,
        },
        None => None,
    }
}

/// The class of the method that an instruction names; none where it names no method.
#[inline(always)]
fn method_class(at: &StandsAt<'_>) -> Option<ClassId>
    ensures none { IfNone result ((c : AClassId) (m : AMemberId) → LeadsToLink (scope_of at.now.code) at.now.instr.now (To.Method c m) → ⊥) }
    ensures some { IfSome result (λ class. (c : AClassId) × (m : AMemberId) × LeadsToLink (scope_of at.now.code) at.now.instr.now (To.Method c m)
        × (class ≡ m.class)) }
{
    match only_link(at) {
        Some(link) => match link {
            Link::Method(_, m) => Some(m.class),
            _ => None,
        },
        None => None,
    }
}

/// The class that an instruction names; none where it names none, or an array.
#[inline(always)]
fn named_class(at: &StandsAt<'_>) -> Option<ClassId>
    ensures none { IfNone result ((c : AClassId) → NamesClass (scope_of at.now.code) at.now.instr.now c → ⊥) }
    ensures some { IfSome result (λ class. NamesClass (scope_of at.now.code) at.now.instr.now class) }
{
    match only_link(at) {
        Some(link) => match link {
            Link::Class(
                TypeRef {
                    dims: 0,
                    base: BaseRef::Class(c),
                },
            ) => Some(*c),
            _ => None,
        },
        None => None,
    }
}

/// The class that an instruction needs before it is done: `new` its class, and getstatic, putstatic and invokestatic the class of
/// the member that was found; none where it needs none.
#[inline(always)]
pub fn needed_by(at: &StandsAt<'_>) -> Option<ClassId>
    ensures { NeedsClass (place_of at.now) result }
{
    match at.instr.op {
        GETSTATIC => field_class(at),
        PUTSTATIC => field_class(at),
        INVOKESTATIC => method_class(at),
        NEW => named_class(at),
        _ => None,
    }
}
