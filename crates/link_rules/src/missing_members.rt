//! C20 at the entries of a pool: references that find no member, or that name a class of the wrong sort.

ghost use Rattle.std.specs.Prelude.{◌≡◌, ◌↔◌, IsTrue};
ghost use Rattle.jk_model.specs.ReadFaults.{IsWritable};
ghost use Rattle.jk_model_classes.specs.declared.records.Link.TheVariants as To;
ghost use Rattle.jk_model_classes.specs.LinkRules.{LinkScope};
ghost use Rattle.jk_model_folders.specs.LinkedClasses.{AreLinksFor};
ghost use Rattle.link_rules.specs.MissingMembers.{IsFirstMissing, IsMissingBy, NamesInterface, NamesNoInterface};

use class_table::ClassTable;
use jk_model::{ClassFile, List, PoolEntry};
use jk_model_classes::Link;
use member_lookup::is_interface;

/// The index of the first entry that is a reference and finds no member of the sort that it needs.
pub(crate) fn first_missing(t: &ClassTable, c: &ClassFile, links: &List<Link>) -> Option<usize>
    requires good { IsWritable c.now }
    requires links { (s : LinkScope) × (s.classes ≡ t.now) × AreLinksFor s c.now links.now }
    ensures { (s : LinkScope) → s.classes ≡ t.now → AreLinksFor s c.now links.now → IsFirstMissing s c.now result }
{
    let pool = c.pool.as_slice();
    let links = links.as_slice();
    for i in 0..pool.len() {
        if is_missing(t, &pool[i], &links[i]) {
            return Some(i);
        }
    }
    None
}

/// Whether an entry is a reference that leads to no member of the sort that it needs.
fn is_missing(t: &ClassTable, entry: &PoolEntry, link: &Link) -> bool
    ensures { IsMissingBy t.now entry.now link.now result }
{
    match entry {
        PoolEntry::FieldRef(_, _) => is_nothing(link),
        PoolEntry::MethodRef(_, _) => names_interface(t, link),
        PoolEntry::InterfaceMethodRef(_, _) => names_no_interface(t, link),
        _ => false,
    }
}

/// Whether a link leads to nothing.
fn is_nothing(link: &Link) -> bool
    ensures { IsTrue result ↔ (link.now ≡ To.Nothing) }
{
    matches!(link, Link::Nothing)
}

/// Whether a link that is a method's names an interface.
fn names_interface(t: &ClassTable, link: &Link) -> bool
    ensures { IsTrue result ↔ NamesInterface t.now link.now }
{
    match link {
        Link::Method(class, _) => is_interface(t, *class),
        _ => true,
    }
}

/// Whether a link that is a method's names a class that is no interface.
fn names_no_interface(t: &ClassTable, link: &Link) -> bool
    ensures { IsTrue result ↔ NamesNoInterface t.now link.now }
{
    match link {
        Link::Method(class, _) => !is_interface(t, *class),
        _ => true,
    }
}
