//! Folders made by hand, with the first class that breaks a rule.

ghost use Rattle.std.specs.Prelude.{◌≡◌};
ghost use Rattle.jk_model_classes.specs.SharedRules.{folder_methods as methods_of_folder};

use crate::class_rows::MethodSort::Plain;
use crate::class_rows::{INT, Row, class, field, method, stands_above};
use class_table::ClassTable;
use domain_resolver::{NameTable, Offers, World};
use jk_model::{Bytes, ClassId, DomainId, List, OutOfMemory, Rule};
use jk_model_classes::{ClassRecord, Offer};
use shared_interfaces::*;
use std::alloc::Global;
use std::test::Fail;

const OBJECT: u32 = 0;

const SERIALIZABLE: u32 = 1;

const THROWABLE: u32 = 9;

const REMOTE: u32 = 10;

const EXCEPTION: u32 = 15;

const ERROR: u32 = 16;

const REMOTE_EXCEPTION: u32 = 18;

/// The first class after the 45 system classes.
const FIRST: u32 = 45;

const SECOND: u32 = 46;

const THIRD: u32 = 47;

const INTERFACE: u16 = 0x0600;

const STATIC: u16 = 0x0009;

/// A class below java/lang/Object with nothing in it.
fn empty_class(
    alloc: Global,
    home: u32,
    name: &str,
    flags: u16,
    interfaces: &[u32],
) -> Result<ClassRecord, OutOfMemory> {
    let row = Row {
        name,
        home,
        flags,
        parent: OBJECT,
        interfaces,
        fields: &[],
        methods: &[],
    };
    class(alloc, &row)
}

/// Puts a class after the others.
fn add(w: &mut World, class: ClassRecord) -> Result<(), Fail> {
    let n = w.classes().len();
    let few = n < 1000 && class.fields.len() < 1000 && class.methods.len() < 1000;
    if !few || !stands_above(n, &class) {
        return Err(Fail::from("no place for the class"));
    }
    w.add_class(class)?;
    Ok(())
}

/// The offer of a class, to the domain of a letter or to all.
type OfferRow = (u32, u8);

const ALL: u8 = 0;

fn offer(alloc: Global, (class, letter): OfferRow) -> Result<Offer, OutOfMemory> {
    let to = if letter == ALL {
        None
    } else {
        Some(Bytes::from_slice(alloc, &[letter])?)
    };
    let class = ClassId(class);
    Ok(Offer { class, to })
}

fn offers(alloc: Global, rows: &[OfferRow]) -> Result<Offers, OutOfMemory> {
    let mut offers = Vec::new(alloc);
    for row in rows {
        offers.push(offer(alloc, *row)?)?;
    }
    Offers::of(offers)
}

/// What is found: the rule, the class and the number.
type Found = Option<(Rule, u32, u32)>;

fn found(fault: Option<(ClassId, ClassFault)>) -> Found {
    match fault {
        Some((c, fault)) => Some((fault.rule, c.0, fault.number)),
        None => None,
    }
}

// ---- The order of paths.

/// Names whose paths are in order: `A$B.class`, `A.class`, `A/B.class`, `AB.class`, `a.class`, and so on.
const RISING: &[&[u16]] = &[
    &[0x41, 0x24, 0x42],
    &[0x41],
    &[0x41, 0x2f, 0x42],
    &[0x41, 0x42],
    &[0x61],
    &[0x61, 0x62],
    &[0xe9],
    &[0xd7ff],
    &[0xff21],
    &[0xd800, 0xdc00],
];

#[test]
fn paths(rt: HostRuntime) {
    for (i, a) in RISING.iter().enumerate() {
        for (j, b) in RISING.iter().enumerate() {
            assert!(rt; is_path_before(a, b) == (i < j), "{i} and {j}");
        }
    }
}

// ---- C25.

/// A class: its name, the flags of its fields, and whether it is shared.
type Sharing<'g> = (&'g str, &'g [u16], bool);

const STATIC_FIELDS: &[(&[Sharing<'static>], Found)] = &[
    (
        &[("a", &[1, STATIC, STATIC], true)],
        Some((Rule::C25, FIRST, 2)),
    ),
    (&[("a", &[1, STATIC], false)], None),
    (&[("a", &[1, 2], true)], None),
    (
        &[("b", &[STATIC], true), ("a", &[1, 1, STATIC], true)],
        Some((Rule::C25, SECOND, 3)),
    ),
    (
        &[("b", &[STATIC], true), ("a", &[STATIC], false)],
        Some((Rule::C25, FIRST, 1)),
    ),
    (
        &[
            ("a/x", &[STATIC], true),
            ("a", &[1, STATIC], true),
            ("ax", &[STATIC], true),
        ],
        Some((Rule::C25, SECOND, 2)),
    ),
    (
        &[
            ("a", &[STATIC], true),
            ("a/x", &[STATIC], true),
            ("a$x", &[1, STATIC], true),
        ],
        Some((Rule::C25, THIRD, 2)),
    ),
];

/// A class with fields of these flags.
fn class_of_fields(alloc: Global, name: &str, flags: &[u16]) -> Result<ClassRecord, OutOfMemory> {
    let mut class = empty_class(alloc, 0, name, 1, &[])?;
    for flags in flags {
        class.fields.push(field(alloc, &("f", *flags, INT))?)?;
    }
    Ok(class)
}

fn first_with_static(alloc: Global, classes: &[Sharing]) -> Result<Found, Fail> {
    let mut w = World::new(alloc)?;
    let mut shared = Vec::new(alloc);
    for (name, flags, is_shared) in classes {
        let number = w.classes().len() as u32;
        add(&mut w, class_of_fields(alloc, name, flags)?)?;
        if *is_shared {
            shared.push((number, ALL))?;
        }
    }
    let offers = offers(alloc, shared.as_slice())?;
    Ok(found(share_fault(&w, DomainId(0), ClassId(FIRST), &offers)))
}

#[test]
fn static_fields(rt: HostRuntime) -> Result<(), Fail> {
    for (classes, wanted) in STATIC_FIELDS {
        assert!(rt; first_with_static(rt.alloc(), classes)? == *wanted);
    }
    Ok(())
}

// ---- C26.

/// A class of another domain is the first, and two of the folder follow it, of which the one refers to all of them: what that domain
/// offers, whether it lives, what the folder offers, and whether the second class breaks the rule.
type Exposing<'g> = (&'g [OfferRow], bool, &'g [OfferRow], bool);

const EXPOSED: &[Exposing<'static>] = &[
    (&[(FIRST, ALL)], true, &[], false),
    (&[(FIRST, ALL)], true, &[(THIRD, ALL)], false),
    (&[(FIRST, ALL)], true, &[(SECOND, ALL), (THIRD, ALL)], false),
    (&[(FIRST, ALL)], true, &[(SECOND, ALL)], true),
    (&[(FIRST, ALL)], true, &[(SECOND, ALL), (THIRD, b'a')], true),
    (
        &[(FIRST, ALL)],
        true,
        &[(SECOND, b'a'), (THIRD, ALL)],
        false,
    ),
    (
        &[(FIRST, ALL)],
        true,
        &[(SECOND, b'a'), (THIRD, b'b')],
        true,
    ),
    (
        &[(FIRST, ALL)],
        true,
        &[(SECOND, b'a'), (SECOND, b'b'), (THIRD, b'b'), (THIRD, b'a')],
        false,
    ),
    // To the domain of the folder alone.
    (&[(FIRST, b'f')], true, &[(SECOND, ALL), (THIRD, ALL)], true),
    (
        &[(FIRST, b'f'), (FIRST, ALL)],
        true,
        &[(SECOND, ALL), (THIRD, ALL)],
        false,
    ),
    // A home that is dead.
    (
        &[(FIRST, ALL)],
        false,
        &[(SECOND, ALL), (THIRD, ALL)],
        false,
    ),
    (&[], true, &[(SECOND, ALL), (THIRD, ALL)], true),
];

/// A world of one domain with these offers, which lives or is dead.
fn home(alloc: Global, offers: Offers, lives: bool) -> Result<World, Fail> {
    let mut w = World::new(alloc)?;
    let name = Bytes::from_slice(alloc, b"home")?;
    if w.live_named(name.as_slice()).is_none() && w.domain_count() < 1000 {
        let domain = w.add_domain(name, NameTable::new(alloc), offers)?;
        if !lives && (domain.0 as usize) < w.domain_count() {
            w.end_domain(domain);
        }
        return Ok(w);
    }
    Err(Fail::from("no place for the domain"))
}

/// A class of the folder that refers to java/lang/Object and the three classes.
fn class_that_refers(alloc: Global) -> Result<ClassRecord, OutOfMemory> {
    let mut class = empty_class(alloc, 1, "given", 1, &[])?;
    for n in [OBJECT, FIRST, SECOND, THIRD] {
        class.references.push(ClassId(n))?;
    }
    Ok(class)
}

fn first_exposing(
    alloc: Global,
    of_home: &[OfferRow],
    lives: bool,
    of_folder: &[OfferRow],
) -> Result<Found, Fail> {
    let mut w = home(alloc, offers(alloc, of_home)?, lives)?;
    add(&mut w, empty_class(alloc, 0, "there", 1, &[])?)?;
    add(&mut w, class_that_refers(alloc)?)?;
    add(&mut w, empty_class(alloc, 1, "other", 1, &[])?)?;
    let shared = offers(alloc, of_folder)?;
    Ok(found(share_fault(&w, DomainId(1), ClassId(SECOND), &shared)))
}

#[test]
fn exposed_references(rt: HostRuntime) -> Result<(), Fail> {
    for (of_home, lives, of_folder, is_broken) in EXPOSED {
        let wanted = if *is_broken {
            Some((Rule::C26, SECOND, 0))
        } else {
            None
        };
        assert!(rt; first_exposing(rt.alloc(), of_home, *lives, of_folder)? == wanted);
    }
    Ok(())
}

// ---- C27.

/// A class: its name, its flags, the interfaces that it lists, how many fields it has, and its methods, each with its name and what it
/// declares beside java/lang/Error.
type Shape<'g> = (&'g str, u16, &'g [u32], u8, &'g [(&'g str, u32)]);

const SHAPES: &[(&[Shape<'static>], Found)] = &[
    (
        &[(
            "a",
            INTERFACE,
            &[REMOTE],
            0,
            &[("m", REMOTE_EXCEPTION), ("n", REMOTE_EXCEPTION)],
        )],
        None,
    ),
    (
        &[(
            "a",
            INTERFACE,
            &[REMOTE],
            0,
            &[("m", EXCEPTION), ("n", THROWABLE)],
        )],
        None,
    ),
    (
        &[(
            "a",
            INTERFACE,
            &[REMOTE],
            3,
            &[("m", REMOTE_EXCEPTION), ("n", ERROR), ("o", ERROR)],
        )],
        Some((Rule::C27, FIRST, 5)),
    ),
    (
        &[(
            "a",
            INTERFACE,
            &[REMOTE],
            1,
            &[("<clinit>", ERROR), ("n", ERROR)],
        )],
        Some((Rule::C27, FIRST, 3)),
    ),
    (
        &[("a", INTERFACE, &[REMOTE, SERIALIZABLE], 0, &[("m", ERROR)])],
        Some((Rule::C27, FIRST, 0)),
    ),
    (&[("a", 1, &[REMOTE], 0, &[("m", ERROR)])], None),
    (
        &[("a", INTERFACE, &[SERIALIZABLE], 0, &[("m", ERROR)])],
        None,
    ),
    (
        &[
            ("c", 1, &[], 0, &[("m", ERROR), ("n", ERROR)]),
            (
                "b",
                INTERFACE,
                &[REMOTE],
                0,
                &[("m", REMOTE_EXCEPTION), ("n", ERROR)],
            ),
            ("a", INTERFACE, &[SECOND], 2, &[("m", ERROR)]),
        ],
        Some((Rule::C27, THIRD, 3)),
    ),
    (
        &[
            ("c", INTERFACE, &[REMOTE], 0, &[("m", REMOTE_EXCEPTION)]),
            (
                "b",
                INTERFACE,
                &[FIRST],
                0,
                &[
                    ("m", REMOTE_EXCEPTION),
                    ("n", REMOTE_EXCEPTION),
                    ("o", ERROR),
                ],
            ),
            (
                "a",
                INTERFACE,
                &[SECOND, FIRST, REMOTE],
                2,
                &[("m", REMOTE_EXCEPTION)],
            ),
        ],
        Some((Rule::C27, SECOND, 3)),
    ),
];

/// The class of a shape.
fn class_of_shape(alloc: Global, shape: &Shape) -> Result<ClassRecord, OutOfMemory> {
    let (name, flags, interfaces, fields, methods) = shape;
    let mut class = empty_class(alloc, 0, name, *flags, interfaces)?;
    for _ in 0..*fields {
        class.fields.push(field(alloc, &("f", STATIC, INT))?)?;
    }
    for (name, _) in *methods {
        class
            .methods
            .push(method(alloc, &(name, 0x0401, 0, Plain))?)?;
    }
    Ok(class)
}

/// What each method of these classes declares.
fn declared(alloc: Global, shapes: &[Shape]) -> Result<Vec<List<ClassId>>, OutOfMemory> {
    let mut declared = Vec::new(alloc);
    for (_, _, _, _, methods) in shapes {
        for (_, thrown) in *methods {
            declared.push(List::from_slice(alloc, &[ClassId(ERROR), ClassId(*thrown)])?)?;
        }
    }
    Ok(declared)
}

/// How many methods the classes of a folder have.
fn folder_methods(classes: &ClassTable, first: ClassId) -> usize
    ensures { result ≡ methods_of_folder classes.now first }
{
    classes.ordered();
    let mut passed = 0;
    for number in first.0..classes.len() as u32 {
        let Some(class) = classes.class(ClassId(number)) else {
            unreachable!();
        };
        passed += class.methods.len();
    }
    passed
}

/// What is found of a folder whose classes begin with the first one, where each of its methods declares something.
fn remote(w: &World, declared: &[List<ClassId>]) -> Result<Found, Fail> {
    let first = ClassId(FIRST);
    if declared.len() == folder_methods(w.classes(), first) {
        return Ok(found(remote_fault(w, first, declared)));
    }
    Err(Fail::from("other methods"))
}

fn first_misshapen(alloc: Global, shapes: &[Shape]) -> Result<Found, Fail> {
    let mut w = World::new(alloc)?;
    for shape in shapes {
        add(&mut w, class_of_shape(alloc, shape)?)?;
    }
    let declared = declared(alloc, shapes)?;
    remote(&w, declared.as_slice())
}

#[test]
fn remote_interfaces(rt: HostRuntime) -> Result<(), Fail> {
    for (shapes, wanted) in SHAPES {
        assert!(rt; first_misshapen(rt.alloc(), shapes)? == *wanted);
    }
    Ok(())
}
