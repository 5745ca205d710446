//! C20 at an instruction: static members where an instance's are needed, the reverse, and calls of abstract methods.

ghost use Rattle.std.specs.Prelude.{◌≡◌, ◌⊎◌, ◌↔◌, IsTrue, MatchOption, Some, pos, slice_get, ℕ};
ghost use Rattle.jk_model.specs.declared.class_file.ClassFile.{ClassFile as AClassFile};
ghost use Rattle.jk_model_classes.specs.declared.records.Link.{Link as ALink};
ghost use Rattle.jk_model_classes.specs.LinkRules.{FindsWrongField, FindsWrongMethod, LinkScope, is_instance_access, is_instance_call, is_static_access};
ghost use Rattle.jk_model_folders.specs.LinkedClasses.{AreLinksFor};
ghost use Rattle.link_rules.specs.WrongMembers.{IsWrongField, IsWrongMethod, LeadsWrong};

use class_table::ClassTable;
use jk_model::opcodes::{
    GETFIELD, GETSTATIC, INVOKEINTERFACE, INVOKESPECIAL, INVOKESTATIC, INVOKEVIRTUAL, PUTFIELD,
    PUTSTATIC,
};
use jk_model::{AccessFlags, Instr, List, has};
use jk_model_classes::Link;
use member_lookup::{field_record, method_record};

/// Whether an instruction finds a member of the wrong sort by the entry that it names.
pub(crate) fn finds_wrong(t: &ClassTable, links: &List<Link>, instr: &Instr) -> bool
    ensures { (s : LinkScope) (c : AClassFile) → s.classes ≡ t.now → AreLinksFor s c links.now
        → IsTrue result ↔ (FindsWrongField s c instr.now ⊎ FindsWrongMethod s c instr.now) }
{
    match named_link(links, instr) {
        Some(link) => leads_wrong(t, instr.op, link),
        None => false,
    }
}

/// The link of the entry that an instruction names by its first operand; none where there is no such entry.
pub(crate) fn named_link<'a>(links: &'a List<Link>, instr: &Instr) -> Option<&'a Link>
    ensures { MatchOption result ((i : ℕ) (link : ALink) → instr.now.a ≡ pos i → slice_get links.now i ≡ Some link → ⊥)
        (λ link. (i : ℕ) × (instr.now.a ≡ pos i) × (slice_get links.now i ≡ Some link.now)) }
{
    if instr.a < 0 {
        return None;
    }
    links.get(instr.a as usize)
}

/// Whether what a link leads to is of the wrong sort for an instruction with this opcode.
fn leads_wrong(t: &ClassTable, op: u8, link: &Link) -> bool
    ensures { IsTrue result ↔ LeadsWrong t.now op link.now }
{
    match link {
        Link::Field(_, m) => match field_record(t, *m) {
            Some(field) => is_wrong_field(op, field.flags),
            None => false,
        },
        Link::Method(_, m) => match method_record(t, *m) {
            Some(method) => is_wrong_method(op, method.flags),
            None => false,
        },
        _ => false,
    }
}

/// Whether an instruction needs a field of the other sort.
fn is_wrong_field(op: u8, flags: u16) -> bool
    ensures { IsTrue result ↔ IsWrongField op flags }
{
    (is_static_access(op) && !has(flags, AccessFlags::STATIC))
        || (is_instance_access(op) && has(flags, AccessFlags::STATIC))
}

/// Whether an instruction needs a method of another sort.
fn is_wrong_method(op: u8, flags: u16) -> bool
    ensures { IsTrue result ↔ IsWrongMethod op flags }
{
    (op == INVOKESTATIC && !has(flags, AccessFlags::STATIC))
        || (is_instance_call(op) && has(flags, AccessFlags::STATIC))
        || (op == INVOKESPECIAL && has(flags, AccessFlags::ABSTRACT))
}

/// Whether it is getstatic or putstatic.
fn is_static_access(op: u8) -> bool
    ensures { result ≡ is_static_access op }
{
    op == GETSTATIC || op == PUTSTATIC
}

/// Whether it is getfield or putfield.
fn is_instance_access(op: u8) -> bool
    ensures { result ≡ is_instance_access op }
{
    op == GETFIELD || op == PUTFIELD
}

/// Whether it is invokevirtual, invokespecial or invokeinterface.
fn is_instance_call(op: u8) -> bool
    ensures { result ≡ is_instance_call op }
{
    op == INVOKEVIRTUAL || op == INVOKESPECIAL || op == INVOKEINTERFACE
}
