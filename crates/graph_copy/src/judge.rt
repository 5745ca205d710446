//! Which objects may be copied from one domain to another.

ghost use Rattle.std.specs.Prelude.{◌≡◌, ◌⊎◌, ◌↔◌, IsTrue, Some};
ghost use Rattle.jk_model_classes.specs.Classes.{Implements};
ghost use Rattle.jk_model_graphs.specs.Copiable.{AreSharing, AreSharingBase, is_marked_copiable};
ghost use Rattle.jk_model_heaps.specs.declared.shapes.Shape.TheVariants as Of;
ghost use Rattle.jk_model_heaps.specs.SystemClasses.{SERIALIZABLE as THE_SERIALIZABLE};
ghost use Rattle.graph_copy.specs.AskedOfCopies.{AgreeOnNames, HasDomain, table_of};
ghost use Rattle.graph_copy.specs.declared.kinds.KnownClass.{KnownClass as AKnownClass};
ghost use Rattle.graph_copy.specs.Judged.{MayPass};

use crate::kinds::{KnownClass, known_kind};
use domain_resolver::{NameTable, World};
use jk_model::{ClassId, DomainId};
use jk_model_classes::BaseRef;
use jk_model_heaps::Shape;
use jk_model_heaps::system_classes::SERIALIZABLE;
use system_table::{count, system_class};

/// Whether an object of this shape may be copied, as `may_pass`. Objects of the class that is known may be.
pub(crate) fn passes(
    w: &World,
    from: DomainId,
    to: DomainId,
    shape: &Shape,
    last: &Option<KnownClass>,
) -> bool
    requires domains { HasDomain w.now from × HasDomain w.now to }
    requires names { AgreeOnNames (table_of w.now from) (table_of w.now to) }
    requires judged { (k : AKnownClass) → last.now ≡ Some k → MayPass w.now.classes (table_of w.now from) (table_of w.now to) (Of.Plain k.class) }
    ensures { IsTrue result ↔ MayPass w.now.classes (table_of w.now from) (table_of w.now to) shape.now }
{
    match known_kind(shape, last) {
        Some(_) => true,
        None => may_pass(w, from, to, shape),
    }
}

/// Whether an object of this shape may be copied: one whose class is a system class so marked, or one that both domains know by its
/// name and that implements java/io/Serializable; an array whose base is a whole number or a class that both know; every text, and no
/// Task.
fn may_pass(w: &World, from: DomainId, to: DomainId, shape: &Shape) -> bool
    requires domains { HasDomain w.now from × HasDomain w.now to }
    requires names { AgreeOnNames (table_of w.now from) (table_of w.now to) }
    ensures { IsTrue result ↔ MayPass w.now.classes (table_of w.now from) (table_of w.now to) shape.now }
{
    match shape {
        Shape::Plain(c) => is_marked(*c) || is_shared_and_serializable(w, from, to, *c),
        Shape::Array(element, _) => is_base_shared(w, from, to, &element.base),
        Shape::Text(_) => true,
        Shape::Task(_) => false,
    }
}

/// Whether both domains know a class, and its objects are serializable.
fn is_shared_and_serializable(w: &World, from: DomainId, to: DomainId, c: ClassId) -> bool
    requires domains { HasDomain w.now from × HasDomain w.now to }
    requires names { AgreeOnNames (table_of w.now from) (table_of w.now to) }
    ensures { IsTrue result ↔ (AreSharing (table_of w.now from) (table_of w.now to) c × Implements w.now.classes c THE_SERIALIZABLE) }
{
    is_shared(w, from, to, c) && w.classes().implements(c, SERIALIZABLE)
}

/// Whether an array of this base may be copied.
fn is_base_shared(w: &World, from: DomainId, to: DomainId, base: &BaseRef) -> bool
    requires domains { HasDomain w.now from × HasDomain w.now to }
    requires names { AgreeOnNames (table_of w.now from) (table_of w.now to) }
    ensures { IsTrue result ↔ AreSharingBase (table_of w.now from) (table_of w.now to) base.now }
{
    match base {
        BaseRef::Class(c) => is_shared(w, from, to, *c),
        _ => true,
    }
}

/// Whether both domains know a class. Both know it by one name then.
fn is_shared(w: &World, from: DomainId, to: DomainId, c: ClassId) -> bool
    requires domains { HasDomain w.now from × HasDomain w.now to }
    requires names { AgreeOnNames (table_of w.now from) (table_of w.now to) }
    ensures { IsTrue result ↔ AreSharing (table_of w.now from) (table_of w.now to) c }
{
    name_table(w, from).has_class(c) && name_table(w, to).has_class(c)
}

/// What the names of a domain of the world mean.
fn name_table(w: &World, d: DomainId) -> &NameTable
    requires { HasDomain w.now d }
    ensures { result.now ≡ table_of w.now d }
{
    match w.domain(d) {
        Some(domain) => domain.table(),
        None => unreachable!(),
    }
}

/// Whether a class is a system class whose objects are copied.
fn is_marked(c: ClassId) -> bool
    ensures { result ≡ is_marked_copiable c }
{
    if c.0 >= u32::from(count()) {
        return false;
    }
    system_class(c.0 as u16).copiable
}
