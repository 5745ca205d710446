//! C20: members that are missing, or of another sort than is needed.

ghost use Rattle.std.specs.Prelude.{◌≡◌, ◌↔◌, IsTrue};
ghost use Rattle.jk_model.specs.declared.class_file.ClassFile.{ClassFile as AClassFile};
ghost use Rattle.jk_model_classes.specs.Items.{HasItem};
ghost use Rattle.jk_model_classes.specs.LinkRules.{LinkScope, MissesMember};
ghost use Rattle.jk_model_classes.specs.Worlds.{class_named};
ghost use Rattle.jk_model_folders.specs.LinkedClasses.{AreLinksFor};
ghost use Rattle.class_texts.specs.PoolTexts.{AreTextsOf};
ghost use Rattle.link_rules.specs.FinalMethods.{IsFirstPlace};
ghost use Rattle.link_rules.specs.LinkedInstrs.{FindsWrong, HasLinkedInstr};
ghost use Rattle.link_rules.specs.LinkFaults.{IsLeastNumber, IsLinked};

use crate::missing_members::first_missing;
use crate::numbers::method_number;
use crate::wrong_members::finds_wrong;
use class_table::ClassTable;
use class_texts::ClassTexts;
use domain_resolver::NameTable;
use jk_model::{ClassFile, ClassId, Instr, List};
use jk_model_classes::{Body, Link, MethodRecord};

/// The least number at which the class breaks the rule, members before entries of the pool; none where it doesn't. It takes
/// no memory, and the same time for each instruction and each entry: what they name was looked up for the links.
pub fn member_fault(
    t: &ClassTable,
    class: ClassId,
    c: &ClassFile,
    texts: &ClassTexts,
    names: &NameTable,
    links: &List<Link>,
) -> Option<u32>
    requires linked { IsLinked (record { meaning = class_named names.now; classes = t.now; self = class }) c.now links.now }
    requires texts { AreTextsOf c.now.pool texts.now }
    ensures { IsLeastNumber (MissesMember (record { meaning = class_named names.now; classes = t.now; self = class }) c.now) result }
{
    t.ordered();
    let r = t.class(class)?;
    match first_wrong(t, links, r.methods.as_slice()) {
        Some(i) => Some(method_number(r, i)),
        None => match first_missing(t, c, links) {
            Some(i) => Some(i as u32),
            None => None,
        },
    }
}

/// The place of the first of these methods that finds a member of the wrong sort.
fn first_wrong(t: &ClassTable, links: &List<Link>, methods: &[MethodRecord]) -> Option<usize>
    ensures { (s : LinkScope) (c : AClassFile) → s.classes ≡ t.now → AreLinksFor s c links.now
        → IsFirstPlace (HasLinkedInstr (FindsWrong s c)) methods.now result }
{
    for i in 0..methods.len() {
        if has_wrong(t, links, &methods[i]) {
            return Some(i);
        }
    }
    None
}

/// Whether a method finds a member of the wrong sort.
fn has_wrong(t: &ClassTable, links: &List<Link>, method: &MethodRecord) -> bool
    ensures { (s : LinkScope) (c : AClassFile) → s.classes ≡ t.now → AreLinksFor s c links.now
        → IsTrue result ↔ HasLinkedInstr (FindsWrong s c) method.now }
{
    match &method.body {
        Body::Linked(code) => has_wrong_instr(t, links, code.instrs.as_slice()),
        _ => false,
    }
}

/// Whether one of these instructions finds a member of the wrong sort.
fn has_wrong_instr(t: &ClassTable, links: &List<Link>, instrs: &[Instr]) -> bool
    ensures { (s : LinkScope) (c : AClassFile) → s.classes ≡ t.now → AreLinksFor s c links.now
        → IsTrue result ↔ HasItem (FindsWrong s c) instrs.now }
{
    for i in 0..instrs.len() {
        if finds_wrong(t, links, &instrs[i]) {
            return true;
        }
    }
    false
}
