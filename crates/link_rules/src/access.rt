//! C21: classes and members that may not be accessed.

ghost use Rattle.std.specs.Prelude.{◌≡◌, ◌↔◌, IsTrue};
ghost use Rattle.jk_model_classes.specs.Items.{HasItem};
ghost use Rattle.jk_model_classes.specs.LinkRules.{IsAccessRefused, LinkScope};
ghost use Rattle.jk_model_classes.specs.Worlds.{class_named};
ghost use Rattle.jk_model_folders.specs.LinkedClasses.{AreLinksFor};
ghost use Rattle.class_texts.specs.PoolTexts.{AreTextsOf};
ghost use Rattle.link_rules.specs.FinalMethods.{IsFirstPlace};
ghost use Rattle.link_rules.specs.LinkedInstrs.{BreaksAccess, HasLinkedInstr};
ghost use Rattle.link_rules.specs.LinkFaults.{IsLeastNumber, IsLinked};

use crate::final_fields::puts_final;
use crate::made_classes::makes_unmakable;
use crate::numbers::method_number;
use crate::refused_entries::first_refused;
use class_table::ClassTable;
use class_texts::ClassTexts;
use domain_resolver::NameTable;
use jk_model::{ClassFile, ClassId, Instr, List};
use jk_model_classes::{Body, Link, MethodRecord};

/// The least number at which the class breaks the rule, members before entries of the pool; none where it doesn't. It takes
/// no memory, and the same time for each instruction and each entry, but that an entry may ask for a search upwards where it
/// names a protected member.
pub fn access_fault(
    t: &ClassTable,
    class: ClassId,
    c: &ClassFile,
    texts: &ClassTexts,
    names: &NameTable,
    links: &List<Link>,
) -> Option<u32>
    requires linked { IsLinked (record { meaning = class_named names.now; classes = t.now; self = class }) c.now links.now }
    requires texts { AreTextsOf c.now.pool texts.now }
    ensures { IsLeastNumber (IsAccessRefused (record { meaning = class_named names.now; classes = t.now; self = class }) c.now) result }
{
    t.ordered();
    let r = t.class(class)?;
    match first_breaking(t, class, c, texts, links, r.methods.as_slice()) {
        Some(i) => Some(method_number(r, i)),
        None => match first_refused(t, class, links) {
            Some(i) => Some(i as u32),
            None => None,
        },
    }
}

/// The place of the first of these methods that puts to a final field of another class, or makes what it may not.
fn first_breaking(
    t: &ClassTable,
    class: ClassId,
    c: &ClassFile,
    texts: &ClassTexts,
    links: &List<Link>,
    methods: &[MethodRecord],
) -> Option<usize>
    requires texts { AreTextsOf c.now.pool texts.now }
    ensures { (s : LinkScope) → s.classes ≡ t.now → s.self ≡ class → AreLinksFor s c.now links.now
        → IsFirstPlace (HasLinkedInstr (BreaksAccess s c.now)) methods.now result }
{
    for i in 0..methods.len() {
        if breaks(t, class, c, texts, links, &methods[i]) {
            return Some(i);
        }
    }
    None
}

/// Whether a method puts to a final field of another class, or makes what it may not.
fn breaks(
    t: &ClassTable,
    class: ClassId,
    c: &ClassFile,
    texts: &ClassTexts,
    links: &List<Link>,
    method: &MethodRecord,
) -> bool
    requires texts { AreTextsOf c.now.pool texts.now }
    ensures { (s : LinkScope) → s.classes ≡ t.now → s.self ≡ class → AreLinksFor s c.now links.now
        → IsTrue result ↔ HasLinkedInstr (BreaksAccess s c.now) method.now }
{
    match &method.body {
        Body::Linked(code) => has_breaking(t, class, c, texts, links, code.instrs.as_slice()),
        _ => false,
    }
}

/// Whether one of these instructions puts to a final field of another class, or makes what it may not.
fn has_breaking(
    t: &ClassTable,
    class: ClassId,
    c: &ClassFile,
    texts: &ClassTexts,
    links: &List<Link>,
    instrs: &[Instr],
) -> bool
    requires texts { AreTextsOf c.now.pool texts.now }
    ensures { (s : LinkScope) → s.classes ≡ t.now → s.self ≡ class → AreLinksFor s c.now links.now
        → IsTrue result ↔ HasItem (BreaksAccess s c.now) instrs.now }
{
    for i in 0..instrs.len() {
        if is_breaking(t, class, c, texts, links, &instrs[i]) {
            return true;
        }
    }
    false
}

/// Whether an instruction puts to a final field of another class, or makes what it may not.
fn is_breaking(
    t: &ClassTable,
    class: ClassId,
    c: &ClassFile,
    texts: &ClassTexts,
    links: &List<Link>,
    instr: &Instr,
) -> bool
    requires texts { AreTextsOf c.now.pool texts.now }
    ensures { (s : LinkScope) → s.classes ≡ t.now → s.self ≡ class → AreLinksFor s c.now links.now
        → IsTrue result ↔ BreaksAccess s c.now instr.now }
{
    puts_final(t, class, links, instr) || makes_unmakable(t, c, texts, links, instr)
}
