//! C21 at an instruction: puts to final fields outside their class.

ghost use Rattle.std.specs.Prelude.{◌≡◌, ◌↔◌, IsTrue};
ghost use Rattle.jk_model.specs.Flags.{FINAL, has};
ghost use Rattle.jk_model.specs.declared.class_file.ClassFile.{ClassFile as AClassFile};
ghost use Rattle.jk_model_classes.specs.LinkRules.{LinkScope, PutsFinal, is_put};
ghost use Rattle.jk_model_folders.specs.LinkedClasses.{AreLinksFor};
ghost use Rattle.link_rules.specs.FinalFields.{LeadsFinal};

use crate::wrong_members::named_link;
use class_table::ClassTable;
use jk_model::opcodes::{PUTFIELD, PUTSTATIC};
use jk_model::{AccessFlags, ClassId, Instr, List, has};
use jk_model_classes::Link;
use member_lookup::field_record;

/// Whether an instruction of the class puts to a final field of another.
pub(crate) fn puts_final(t: &ClassTable, class: ClassId, links: &List<Link>, instr: &Instr) -> bool
    ensures { (s : LinkScope) (c : AClassFile) → s.classes ≡ t.now → s.self ≡ class → AreLinksFor s c links.now
        → IsTrue result ↔ PutsFinal s c instr.now }
{
    match named_link(links, instr) {
        Some(link) => leads_final(t, class, instr.op, link),
        None => false,
    }
}

/// Whether an instruction with this opcode puts to a final field of another class, where it names a field of this link.
fn leads_final(t: &ClassTable, class: ClassId, op: u8, link: &Link) -> bool
    ensures { IsTrue result ↔ LeadsFinal t.now class op link.now }
{
    match link {
        Link::Field(_, m) => match field_record(t, *m) {
            Some(field) => is_final_put(op, field.flags) && m.class != class,
            None => false,
        },
        _ => false,
    }
}

/// Whether it is putstatic or putfield, and the flags are those of a final field.
fn is_final_put(op: u8, flags: u16) -> bool
    ensures { IsTrue result ↔ (IsTrue (is_put op) × IsTrue (has flags FINAL)) }
{
    (op == PUTSTATIC || op == PUTFIELD) && has(flags, AccessFlags::FINAL)
}
