//! C21 at an instruction: `new` of an interface, of an abstract class, or of a closed class without a constructor.

ghost use Rattle.std.specs.Prelude.{◌≡◌, ◌↔◌, IsTrue, List, MatchOption, Some, pos, slice_get, ℕ};
ghost use Rattle.jk_model.specs.declared.class_file.PoolEntry.{PoolEntry as AnEntry};
ghost use Rattle.jk_model.specs.declared.identifiers.ClassId.{ClassId as AClassId};
ghost use Rattle.jk_model_classes.specs.Items.{HasItem};
ghost use Rattle.jk_model_classes.specs.LinkRules.{HasNoConstructor, LinkScope};
ghost use Rattle.jk_model_classes.specs.Members.{INIT};
ghost use Rattle.jk_model_folders.specs.LinkedClasses.{AreLinksFor};
ghost use Rattle.class_texts.specs.PoolTexts.{AreTextsOf};
ghost use Rattle.system_table.specs.declared.entry.SystemMethod.{SystemMethod as AMethod};
ghost use Rattle.link_rules.specs.LinkedInstrs.{IsClassLink, IsNamedEntry, IsUnmakable, LeadsUnmakable, MakesUnmakable};

use crate::wrong_members::named_link;
use class_table::ClassTable;
use class_texts::ClassTexts;
use jk_model::opcodes::NEW;
use jk_model::{AccessFlags, ClassFile, ClassId, Instr, List, PoolEntry, has};
use jk_model_classes::{BaseRef, Link};
use shared_values::Text;
use system_table::{SystemMethod, class_named, laws, system_class};

/// Whether an instruction is `new` of a class that it may not make.
pub(crate) fn makes_unmakable(
    t: &ClassTable,
    c: &ClassFile,
    texts: &ClassTexts,
    links: &List<Link>,
    instr: &Instr,
) -> bool
    requires texts { AreTextsOf c.now.pool texts.now }
    ensures { (s : LinkScope) → s.classes ≡ t.now → AreLinksFor s c.now links.now → IsTrue result ↔ MakesUnmakable s c.now instr.now }
{
    if instr.op != NEW {
        return false;
    }
    match named_entry(c, instr) {
        Some(entry) => match named_link(links, instr) {
            Some(link) => leads_unmakable(t, texts, entry, link),
            None => false,
        },
        None => false,
    }
}

/// The entry that an instruction names by its first operand; none where there is none.
fn named_entry<'a>(c: &'a ClassFile, instr: &Instr) -> Option<&'a PoolEntry>
    ensures { MatchOption result ((i : ℕ) (entry : AnEntry) → instr.now.a ≡ pos i → slice_get c.now.pool i ≡ Some entry → ⊥)
        (λ entry. (i : ℕ) × (instr.now.a ≡ pos i) × (slice_get c.now.pool i ≡ Some entry.now)) }
{
    if instr.a < 0 {
        return None;
    }
    c.pool.get(instr.a as usize)
}

/// Whether an entry and its link are of a class that `new` may not make.
fn leads_unmakable(t: &ClassTable, texts: &ClassTexts, entry: &PoolEntry, link: &Link) -> bool
    ensures { IsTrue result ↔ LeadsUnmakable t.now texts.now entry.now link.now }
{
    match class_of(link) {
        Some(class) => match name_of(texts, entry) {
            Some(name) => is_unmakable(t, class, name.as_slice()),
            None => false,
        },
        None => false,
    }
}

/// The class to which a link leads; none where it leads to an array, or to something else.
fn class_of(link: &Link) -> Option<ClassId>
    ensures { MatchOption result ((class : AClassId) → IsClassLink link.now class → ⊥) (IsClassLink link.now) }
{
    match link {
        Link::Class(of) => match (of.dims, of.base) {
            (0, BaseRef::Class(class)) => Some(class),
            _ => None,
        },
        _ => None,
    }
}

/// The name of the class that an entry is of; none where it is of no class.
fn name_of<'a>(texts: &'a ClassTexts, entry: &PoolEntry) -> Option<&'a Text>
    ensures { MatchOption result ((name : List ℕ) → IsNamedEntry texts.now entry.now name → ⊥) (λ name. IsNamedEntry texts.now entry.now name.now) }
{
    match entry {
        PoolEntry::Class(n) => texts.text(*n),
        _ => None,
    }
}

/// Whether `new` may not make a class, which has this name.
fn is_unmakable(t: &ClassTable, class: ClassId, name: &[u16]) -> bool
    ensures { IsTrue result ↔ IsUnmakable t.now class name.now }
{
    match t.class(class) {
        Some(r) => has(r.flags, AccessFlags::INTERFACE)
            || has(r.flags, AccessFlags::ABSTRACT)
            || has_no_constructor(name),
        None => false,
    }
}

/// Whether a name is that of a closed class of the system without a constructor.
fn has_no_constructor(name: &[u16]) -> bool
    ensures { IsTrue result ↔ HasNoConstructor name.now }
{
    laws::names_differ();
    match class_named(name) {
        Some(n) => {
            let class = system_class(n);
            class.closed && !has_init(class.methods)
        }
        None => false,
    }
}

/// Whether one of these methods is a constructor.
fn has_init(methods: &[SystemMethod]) -> bool
    ensures { IsTrue result ↔ HasItem (λ (m : AMethod). m.name.now ≡ INIT) methods.now }
{
    for i in 0..methods.len() {
        if methods[i].name == "<init>" {
            return true;
        }
    }
    false
}
