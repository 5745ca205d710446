//! C21 at the entries of a pool: classes and members that may not be accessed.

ghost use Rattle.std.specs.Prelude.{◌≡◌, ◌↔◌, IsTrue};
ghost use Rattle.jk_model.specs.declared.class_file.ClassFile.{ClassFile as AClassFile};
ghost use Rattle.jk_model_classes.specs.LinkRules.{LinkScope};
ghost use Rattle.jk_model_folders.specs.LinkedClasses.{AreLinksFor};
ghost use Rattle.link_rules.specs.RefusedEntries.{IsFirstRefused, RefusesBase, RefusesLink};

use class_table::ClassTable;
use jk_model::{ClassId, List};
use jk_model_classes::{BaseRef, Link};
use member_lookup::{Member, may_access, may_access_class};

/// The index of the first entry that names a class, or leads to a member, that the class may not access.
pub(crate) fn first_refused(t: &ClassTable, class: ClassId, links: &List<Link>) -> Option<usize>
    ensures { (s : LinkScope) (c : AClassFile) → s.classes ≡ t.now → s.self ≡ class → AreLinksFor s c links.now → IsFirstRefused s c result }
{
    let links = links.as_slice();
    for i in 0..links.len() {
        if is_refused(t, class, &links[i]) {
            return Some(i);
        }
    }
    None
}

/// Whether the class may not access what a link leads to.
fn is_refused(t: &ClassTable, class: ClassId, link: &Link) -> bool
    ensures { IsTrue result ↔ RefusesLink t.now class link.now }
{
    match link {
        Link::Class(of) => is_base_refused(t, class, of.base),
        Link::Field(_, m) => !may_access(t, class, Member::Field(*m)),
        Link::Method(_, m) => !may_access(t, class, Member::Method(*m)),
        _ => false,
    }
}

/// Whether the class may not access what a type is of.
fn is_base_refused(t: &ClassTable, class: ClassId, base: BaseRef) -> bool
    ensures { IsTrue result ↔ RefusesBase t.now class base }
{
    match base {
        BaseRef::Class(of) => !may_access_class(t, class, of),
        _ => false,
    }
}
