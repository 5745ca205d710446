//! What a domain has for itself beside its heap, as it begins and after changes: the system classes, and classes by hand with static
//! fields and texts.

ghost use Rattle.std.specs.Prelude.{IfOk, IfSome, IsTrue};
ghost use Rattle.jk_model.specs.declared.identifiers.ClassId.{ClassId as AClassId};
ghost use Rattle.jk_model_classes.specs.Classes.{HasClass};
ghost use Rattle.jk_model_classes.specs.Worlds.{IsNamed};
ghost use Rattle.jk_model_domains.specs.OwnStates.{OwnState as AState, HasPart, HasStatic, IsFirstState};

use crate::class_rows::{Place, Row, add, class, member};
use class_init::{Own, look};
use class_table::ClassTable;
use domain_resolver::NameTable;
use jk_model::{AccessFlags, ClassId, List, MemberId, OutOfMemory, ThreadNo, Value, has};
use jk_model_classes::{BaseRef, ClassRecord, FieldRecord, Link, TypeRef};
use jk_model_domains::{ClassState, Look, OwnClass, OwnParts};
use shared_values::Text;
use std::alloc::Global;
use std::process::Abort;
use std::test::Fail;

const OBJECT: ClassId = ClassId(0);

// The numbers after those of the 45 system classes.
const Z: ClassId = ClassId(45);

const A: ClassId = ClassId(46);

const STRING: BaseRef = BaseRef::Class(ClassId(1));

const STATIC: u16 = 8;

const HI: &[u16] = &[104, 105];

const HO: &[u16] = &[104, 111];

const HEY: &[u16] = &[104, 101, 121];

/// A field with its flags, its type and its constant.
fn field(
    alloc: Global,
    flags: u16,
    base: BaseRef,
    constant: Link,
) -> Result<FieldRecord, OutOfMemory> {
    Ok(FieldRecord {
        name: Text::new(alloc, &[102])?,
        flags,
        kind: TypeRef { dims: 0, base },
        constant,
    })
}

/// An `int` that begins with 7, one that is no static field, a `long` that begins with 2^40, a text, and a `long` without a
/// constant.
fn fields(alloc: Global) -> Result<List<FieldRecord>, OutOfMemory> {
    let long = Link::Long(1_099_511_627_776);
    let hi = Link::Text(Text::new(alloc, HI)?);
    let mut list = List::new(alloc);
    list.push(field(alloc, STATIC, BaseRef::Int, Link::Int(7))?)?;
    list.push(field(alloc, 0, BaseRef::Int, Link::Nothing)?)?;
    list.push(field(alloc, STATIC, BaseRef::Long, long)?)?;
    list.push(field(alloc, STATIC, STRING, hi)?)?;
    list.push(field(alloc, STATIC, BaseRef::Long, Link::Nothing)?)?;
    Ok(list)
}

/// A field of class String: its flags, and the text that is its constant.
type TextRow<'a> = (u16, &'a [u16]);

fn text_fields(alloc: Global, rows: &[TextRow]) -> Result<List<FieldRecord>, OutOfMemory> {
    let mut list = List::new(alloc);
    for (flags, text) in rows {
        let constant = Link::Text(Text::new(alloc, text)?);
        list.push(field(alloc, *flags, STRING, constant)?)?;
    }
    Ok(list)
}

/// A pool that names one text twice, and another.
fn links(alloc: Global) -> Result<List<Link>, OutOfMemory> {
    let mut list = List::new(alloc);
    list.push(Link::Nothing)?;
    for text in [HI, HI, HO] {
        list.push(Link::Text(Text::new(alloc, text)?))?;
    }
    Ok(list)
}

/// Puts a class of the domain 0 with this name and these fields after the others.
fn add_class(
    alloc: Global,
    table: &mut ClassTable,
    name: &str,
    fields: List<FieldRecord>,
) -> Result<(), Fail> {
    let row = Row {
        name,
        home: 0,
        flags: 1,
        parent: 0,
        interfaces: &[],
        fields: &[],
        methods: &[],
    };
    let mut class = class(alloc, &row)?;
    class.fields = fields;
    class.links = links(alloc)?;
    add(table, class)
}

/// The system classes, and two of the domain, whose names come in the other order.
fn classes(alloc: Global) -> Result<ClassTable, Fail> {
    let mut table = ClassTable::new(alloc)?;
    add_class(alloc, &mut table, "z", fields(alloc)?)?;
    add_class(alloc, &mut table, "a", fields(alloc)?)?;
    Ok(table)
}

/// Lets a name of one letter mean a class, where that is there.
fn give(
    alloc: Global,
    t: &ClassTable,
    names: &mut NameTable,
    letter: u16,
    c: ClassId,
) -> Result<(), OutOfMemory>
    requires { (d : AClassId) → IsNamed names.old d → HasClass t.now d }
    ensures { (d : AClassId) → IsNamed names.new d → HasClass t.now d }
{
    if (c.0 as usize) < t.len() {
        names.give(&Text::new(alloc, &[letter])?, c)?;
    }
    Ok(())
}

/// The names mean java/lang/Object and the classes after those of the system.
fn names(alloc: Global, t: &ClassTable) -> Result<NameTable, OutOfMemory>
    ensures { IfOk result (λ names. (c : AClassId) → IsNamed names c → HasClass t.now c) }
{
    let mut names = NameTable::new(alloc);
    give(alloc, t, &mut names, 79, OBJECT)?;
    give(alloc, t, &mut names, 122, Z)?;
    give(alloc, t, &mut names, 97, A)?;
    Ok(names)
}

/// The record of a class that a name means; none where no name does, or it is a system class.
fn own_class<'a>(t: &'a ClassTable, names: &NameTable, c: ClassId) -> Option<&'a ClassRecord>
    ensures { IfSome result (λ r. HasPart t.now names.now c r.now) }
{
    let class = t.class(c)?;
    if names.has_class(c) && class.home.is_some() {
        return Some(class);
    }
    None
}

/// Whether a domain of these names begins with such a static field.
fn has_static(t: &ClassTable, names: &NameTable, m: MemberId) -> bool
    ensures { IsTrue result → (own : AState) → IsFirstState t.now names.now own → HasStatic own m }
{
    let Some(class) = own_class(t, names, m.class) else {
        return false;
    };
    match class.fields.get(usize::from(m.index)) {
        Some(field) => has(field.flags, AccessFlags::STATIC),
        None => false,
    }
}

/// Whether this is the part of an untouched class with these values.
fn is_part(part: &OwnClass, class: ClassId, values: &[Value]) -> bool {
    part.class == class && part.state == ClassState::Untouched && part.statics.as_slice() == values
}

/// Whether these are the parts of A and Z, in the order of their names, untouched and with these values.
fn are_parts(parts: &OwnParts, of_a: &[Value], of_z: &[Value]) -> bool {
    match parts.classes.as_slice() {
        [a, z] => is_part(a, A, of_a) && is_part(z, Z, of_z),
        _ => false,
    }
}

/// The values with which the static fields of A and of Z begin.
const FIRST: &[Value] = &[
    Value::Int(7),
    Value::Long(1_099_511_627_776),
    Value::Null,
    Value::Long(0),
];

/// The same after the third was set.
const CHANGED: &[Value] = &[
    Value::Int(7),
    Value::Long(1_099_511_627_776),
    Value::Obj(9),
    Value::Long(0),
];

/// Whether the static fields of A have their first values and those of Z these, and both classes are untouched.
fn has_values(t: &ClassTable, own: &Own, of_z: &[Value]) -> Result<bool, OutOfMemory> {
    let parts = own.parts(t)?;
    Ok(are_parts(&parts, FIRST, of_z))
}

/// Static fields, each with the value that it begins with; none where there is no such field.
const BEGINNINGS: &[(Place, Option<Value>)] = &[
    ((45, 0), Some(Value::Int(7))),
    ((45, 1), None),
    ((46, 2), Some(Value::Long(1_099_511_627_776))),
    ((46, 3), Some(Value::Null)),
    ((45, 4), Some(Value::Long(0))),
    ((45, 5), None),
    ((0, 0), None),
];

/// The value with which a static field begins.
fn first_value(
    alloc: Global,
    t: &ClassTable,
    names: &NameTable,
    m: MemberId,
) -> Result<Option<Value>, OutOfMemory>
    requires { (c : AClassId) → IsNamed names.now c → HasClass t.now c }
{
    if !has_static(t, names, m) {
        return Ok(None);
    }
    let own = Own::make(alloc, t, names)?;
    Ok(Some(own.static_value(m)))
}

/// Whether a state begins with the first values.
fn begins(alloc: Global, t: &ClassTable, names: &NameTable) -> Result<bool, OutOfMemory>
    requires { (c : AClassId) → IsNamed names.now c → HasClass t.now c }
{
    let own = Own::make(alloc, t, names)?;
    has_values(t, &own, FIRST)
}

/// States of a class, with what the threads 3 and 4 meet at it.
const STATES: &[(ClassState, Look, Look)] = &[
    (ClassState::Untouched, Look::Untouched, Look::Untouched),
    (
        ClassState::InProgress(ThreadNo(3)),
        Look::Ready,
        Look::Waits,
    ),
    (ClassState::Done, Look::Ready, Look::Ready),
    (ClassState::Broken, Look::Broken, Look::Broken),
];

/// A state in which class A has this one, and no other was set.
fn with_state(
    alloc: Global,
    t: &ClassTable,
    names: &NameTable,
    state: ClassState,
) -> Result<Own, Fail>
    requires { (c : AClassId) → IsNamed names.now c → HasClass t.now c }
{
    let Some(_class) = own_class(t, names, A) else {
        return Err(Fail::from("no class A"));
    };
    let mut own = Own::make(alloc, t, names)?;
    own.set_state(A, state);
    Ok(own)
}

/// What the threads 3 and 4 meet at class A, and thread 3 at class Z and at java/lang/Object.
fn seen(own: &Own) -> [Look; 4] {
    let (three, four) = (ThreadNo(3), ThreadNo(4));
    [
        look(own, three, A),
        look(own, four, A),
        look(own, three, Z),
        look(own, three, OBJECT),
    ]
}

/// What they meet where class A has this state, and no other was set.
fn seen_in(
    alloc: Global,
    t: &ClassTable,
    names: &NameTable,
    state: ClassState,
) -> Result<[Look; 4], Fail>
    requires { (c : AClassId) → IsNamed names.now c → HasClass t.now c }
{
    let own = with_state(alloc, t, names, state)?;
    Ok(seen(&own))
}

/// A state in which a static field of Z was set.
fn changed(alloc: Global, t: &ClassTable, names: &NameTable) -> Result<Own, Fail>
    requires { (c : AClassId) → IsNamed names.now c → HasClass t.now c }
{
    let m = MemberId { class: Z, index: 3 };
    if !has_static(t, names, m) {
        return Err(Fail::from("no such static field"));
    }
    let mut own = Own::make(alloc, t, names)?;
    own.set_static(m, Value::Obj(9));
    Ok(own)
}

/// Whether that is so of its values.
fn changes(alloc: Global, t: &ClassTable, names: &NameTable) -> Result<bool, Fail>
    requires { (c : AClassId) → IsNamed names.now c → HasClass t.now c }
{
    let own = changed(alloc, t, names)?;
    Ok(has_values(t, &own, CHANGED)?)
}

/// A state that went through its parts.
fn again(alloc: Global, t: &ClassTable, names: &NameTable) -> Result<Own, OutOfMemory>
    requires { (c : AClassId) → IsNamed names.now c → HasClass t.now c }
{
    let mut own = Own::make(alloc, t, names)?;
    own.set_out(11);
    let parts = own.parts(t)?;
    Own::from_parts(alloc, t, names, parts)
}

/// Whether it is as before.
fn comes_back(alloc: Global, t: &ClassTable, names: &NameTable) -> Result<bool, OutOfMemory>
    requires { (c : AClassId) → IsNamed names.now c → HasClass t.now c }
{
    let own = again(alloc, t, names)?;
    Ok(own.out() == 11 && has_values(t, &own, FIRST)?)
}

/// All of these.
fn expect_states(
    rt: &impl Abort,
    alloc: Global,
    t: &ClassTable,
    names: &NameTable,
) -> Result<(), Fail>
    requires { (c : AClassId) → IsNamed names.now c → HasClass t.now c }
{
    assert!(rt; begins(alloc, t, names)?);
    for (m, wanted) in BEGINNINGS {
        assert!(rt; first_value(alloc, t, names, member(*m))? == *wanted);
    }
    for (state, by_3, by_4) in STATES {
        let others = [*by_3, *by_4, Look::Untouched, Look::Ready];
        assert!(rt; seen_in(alloc, t, names, *state)? == others);
    }
    assert!(rt; changes(alloc, t, names)?);
    assert!(rt; comes_back(alloc, t, names)?);
    Ok(())
}

#[test]
fn states_of_a_domain(rt: HostRuntime) -> Result<(), Fail> {
    let t = classes(rt.alloc())?;
    let names = names(rt.alloc(), &t)?;
    expect_states(&rt, rt.alloc(), &t, &names)
}

/// What the texts cost that are constants of static fields of Z and have no object, before and after `hi` has one, and that object.
fn missing(
    alloc: Global,
    t: &ClassTable,
    names: &NameTable,
) -> Result<(u64, u64, Option<u32>), Fail>
    requires { (c : AClassId) → IsNamed names.now c → HasClass t.now c }
{
    let Some(class) = own_class(t, names, Z) else {
        return Err(Fail::from("no class Z"));
    };
    let Some(Link::Text(hi)) = class.links.get(1) else {
        return Err(Fail::from("the pool doesn't name the text"));
    };
    let mut own = Own::make(alloc, t, names)?;
    let before = own.missing_words(class.fields.as_slice());
    if own.literal(hi).is_some() {
        return Err(Fail::from("the text has an object already"));
    }
    own.set_literal(hi, 9);
    let after = own.missing_words(class.fields.as_slice());
    Ok((before, after, own.literal(hi)))
}

/// Fields of class String by their flags and texts, and what the missing texts cost before and after `hi` has an object. An object of
/// a text costs four words and one for each of its units: `hi` has two, and `hey` three.
const MISSING: &[(&[TextRow<'static>], u64, u64)] = &[
    (&[], 0, 0),
    (&[(STATIC, HI)], 6, 0),
    (&[(STATIC, HEY)], 7, 7),
    (&[(STATIC, HI), (STATIC, HI)], 6, 0),
    (&[(STATIC, HI), (STATIC, HEY)], 13, 7),
    (&[(STATIC, HEY), (STATIC, HI), (STATIC, HEY)], 13, 7),
    // The text of a field that isn't static costs nothing.
    (&[(0, HEY), (STATIC, HI)], 6, 0),
];

/// The same of a class with these fields.
fn missing_of(alloc: Global, fields: &[TextRow]) -> Result<(u64, u64, Option<u32>), Fail> {
    let mut t = ClassTable::new(alloc)?;
    add_class(alloc, &mut t, "z", text_fields(alloc, fields)?)?;
    let names = names(alloc, &t)?;
    missing(alloc, &t, &names)
}

#[test]
fn missing_texts(rt: HostRuntime) -> Result<(), Fail> {
    for (fields, before, after) in MISSING {
        assert!(rt; missing_of(rt.alloc(), fields)? == (*before, *after, Some(9)));
    }
    Ok(())
}
