//! The classes of the tests, and two domains: both know all of these but one, which the first alone knows.

ghost use Rattle.std.specs.Prelude.{◌≡◌, ℕ, ◌<◌, ◌≤◌, IsTrue, IfOk, Some, length, option_map, slice_get};
ghost use Rattle.jk_model.specs.declared.identifiers.ClassId.{ClassId as AClass};
ghost use Rattle.jk_model_classes.specs.Worlds.{IsNamed, NamedClass, class_named};
ghost use Rattle.jk_model_graphs.specs.Copiable.{AreSharing};
ghost use Rattle.graph_copy.specs.AskedOfCopies.{AgreeOnNames, HasDomain, table_of};
ghost use Rattle.copy_check.specs.ReadyHeaps.{IsReadyWorld};

use crate::heaps::{A, B};
use class_table::ClassTable;
use domain_resolver::{NameTable, Offers, World};
use jk_model::{Bytes, ClassId, DomainId, List};
use jk_model_classes::{BaseRef, ClassRecord, FieldRecord, Link, TypeRef};
use shared_values::Text;
use std::alloc::Global;
use std::process::Abort;
use std::test::Fail;

pub(crate) const OBJECT: ClassId = ClassId(0);

const SERIALIZABLE: ClassId = ClassId(1);

pub(crate) const STRING: ClassId = ClassId(3);

/// `Node next; int v;`, Serializable.
pub(crate) const NODE: ClassId = ClassId(45);

/// `Object o; transient Object t; transient int y; long l; transient long z; int x;`, Serializable.
pub(crate) const BAG: ClassId = ClassId(46);

/// Below Bag, with `Object p;`.
pub(crate) const SUB_BAG: ClassId = ClassId(47);

/// Serializable, with `int v;`; the second domain doesn't know it.
pub(crate) const OWN: ClassId = ClassId(48);

/// Not Serializable, with `int v;`.
pub(crate) const HID: ClassId = ClassId(49);

/// Below Hid and Serializable, without fields of its own.
pub(crate) const SHOWN: ClassId = ClassId(50);

const TRANSIENT: u16 = 0x0080;

pub(crate) const INT: TypeRef = TypeRef {
    dims: 0,
    base: BaseRef::Int,
};

pub(crate) const LONG: TypeRef = TypeRef {
    dims: 0,
    base: BaseRef::Long,
};

/// The type of references to objects of a class.
pub(crate) fn of(c: ClassId) -> TypeRef {
    TypeRef {
        dims: 0,
        base: BaseRef::Class(c),
    }
}

/// Fields of these flags and types.
fn fields(alloc: Global, kinds: &[(u16, TypeRef)]) -> Result<List<FieldRecord>, Fail> {
    let mut list = List::new(alloc);
    for (flags, kind) in kinds {
        list.push(FieldRecord {
            name: Text::new(alloc, &[102])?,
            flags: *flags,
            kind: *kind,
            constant: Link::Nothing,
        })?;
    }
    Ok(list)
}

/// Puts a class after the others, whose name has one unit.
fn add(
    rt: &impl Abort,
    alloc: Global,
    w: &mut World,
    parent: ClassId,
    is_serializable: bool,
    kinds: &[(u16, TypeRef)],
) -> Result<(), Fail> {
    let number = w.classes().len();
    assert!(rt; 1 < number && number < 1000 && (parent.0 as usize) < number);
    let mut interfaces = List::new(alloc);
    if is_serializable {
        interfaces.push(SERIALIZABLE)?;
    }
    let fields = fields(alloc, kinds)?;
    assert!(rt; fields.len() < 1000);
    let _ = w.add_class(ClassRecord {
        name: Text::new(alloc, &[number as u16])?,
        home: Some(A),
        flags: 1,
        parent: Some(parent),
        interfaces,
        fields,
        methods: List::new(alloc),
        links: List::new(alloc),
        references: List::new(alloc),
    })?;
    Ok(())
}

/// A table of these classes, under their names.
fn table(
    rt: &impl Abort,
    alloc: Global,
    t: &ClassTable,
    classes: &[ClassId],
) -> Result<NameTable, Fail> {
    let mut names = NameTable::new(alloc);
    for c in classes {
        match t.class(*c) {
            Some(class) => assert!(rt; names.give(&class.name, *c)?),
            None => panic!(rt; "no class {c:?}"),
        }
    }
    Ok(names)
}

/// Adds a domain that knows these classes.
fn add_domain(
    rt: &impl Abort,
    alloc: Global,
    w: &mut World,
    name: u8,
    classes: &[ClassId],
) -> Result<(), Fail> {
    let names = table(rt, alloc, w.classes(), classes)?;
    let name = Bytes::from_slice(alloc, &[name])?;
    let None = w.live_named(name.as_slice()) else {
        panic!(rt; "the name is taken");
    };
    assert!(rt; w.domain_count() < 10);
    let _ = w.add_domain(name, names, Offers::new(alloc))?;
    Ok(())
}

/// The classes and the two domains.
pub(crate) fn world(rt: &impl Abort, alloc: Global) -> Result<World, Fail>
    ensures { IfOk result (λ w. IsReadyWorld w) }
{
    let mut w = World::new(alloc)?;
    let bag = [
        (0, of(OBJECT)),
        (TRANSIENT, of(OBJECT)),
        (TRANSIENT, INT),
        (0, LONG),
        (TRANSIENT, LONG),
        (0, INT),
    ];
    add(rt, alloc, &mut w, OBJECT, true, &[(0, of(NODE)), (0, INT)])?;
    add(rt, alloc, &mut w, OBJECT, true, &bag)?;
    add(rt, alloc, &mut w, BAG, false, &[(0, of(OBJECT))])?;
    add(rt, alloc, &mut w, OBJECT, true, &[(0, INT)])?;
    add(rt, alloc, &mut w, OBJECT, false, &[(0, INT)])?;
    add(rt, alloc, &mut w, HID, true, &[])?;
    let known = [OBJECT, STRING, NODE, BAG, SUB_BAG, HID, SHOWN, OWN];
    add_domain(rt, alloc, &mut w, b'a', &known)?;
    add_domain(rt, alloc, &mut w, b'b', &known[..7])?;
    check_world(rt, &w);
    Ok(w)
}

/// Sees that both domains are there and agree on names.
fn check_world(rt: &impl Abort, w: &World)
    ensures { IsReadyWorld w.now }
{
    let t = w.classes();
    let a = names_of(rt, w, A);
    let b = names_of(rt, w, B);
    check_names(rt, t, a, a);
    check_names(rt, t, a, b);
    check_names(rt, t, b, a);
    check_names(rt, t, b, b);
}

/// What the names of a domain mean.
fn names_of<'a>(rt: &impl Abort, w: &'a World, d: DomainId) -> &'a NameTable
    ensures has { HasDomain w.now d }
    ensures table { result.now ≡ table_of w.now d }
{
    match w.domain(d) {
        Some(domain) => domain.table(),
        None => panic!(rt; "no domain {d:?}"),
    }
}

/// Sees that two tables agree on the classes that both have.
fn check_names(rt: &impl Abort, t: &ClassTable, from: &NameTable, to: &NameTable)
    ensures { AgreeOnNames from.now to.now }
{
    for i in 0..from.len() {
        check_name(rt, t, from, to, i);
    }
}

/// The same of the class at a place of the first.
fn check_name(rt: &impl Abort, t: &ClassTable, from: &NameTable, to: &NameTable, i: usize)
    ensures { (c : AClass) → option_map (λ (e : NamedClass). e.class) (slice_get from.now i) ≡ Some c → IsNamed to.now c
        → AreSharing from.now to.now c }
{
    let Some(c) = from.class_at(i) else {
        return;
    };
    if !to.has_class(c) {
        return;
    }
    let Some(class) = t.class(c) else {
        panic!(rt; "no class {c:?}");
    };
    let name = class.name.as_slice();
    assert!(rt; means(from, name, c) && means(to, name, c), "{c:?}");
}

/// Whether a name means a class.
fn means(names: &NameTable, name: &[u16], c: ClassId) -> bool
    ensures { IsTrue result → class_named names.now name.now ≡ Some c }
{
    match names.resolve(name) {
        Some(d) => d.0 == c.0,
        None => false,
    }
}
