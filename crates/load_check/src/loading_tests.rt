//! What a folder brings whose classes load.

use crate::folders::{File, add_folder};
use crate::import_tests::expect_offers;
use crate::names::units;
use crate::worlds::{answer, first_world};
use domain_resolver::{NameTable, World};
use folder_loader::Loaded;
use jk_model::{ClassId, DomainId, Instr, SwitchCase};
use jk_model_classes::{BaseRef, Body, Caught, ClassRecord, Link, LinkedCode, TypeRef};
use jk_outside::MemoryFiles;
use shared_values::Text;
use std::alloc::Global;
use std::process::Abort;
use std::test::Fail;

/// A program of two packages: an interface with constants, a class that implements it, one below that, and a `main` with a long
/// loop that calls a method with a switch and one with a handler.
const FOLDER: &[File<'static>] = &[
    (
        "app/Child.class",
        "class 0021 app/Child lib/Base|method 0001 <init> ()V 1 1|aload 0|invokespecial lib/Base <init> ()V|return|end\
        |method 0001 step ()I 2 1|aload 0|invokespecial lib/Base step ()I|getstatic app/Child TOP B|iadd|ireturn|end",
    ),
    (
        "app/Main.class",
        "class 0021 app/Main java/lang/Object|field 0009 sum J|method 0009 main ([Ljava/lang/String;)V 4 2\
        |sipush 0|istore 1|again: iload 1|ldc_w int 1000000|if_icmpge done|getstatic app/Main sum J|iload 1|invokestatic app/Main pick (I)I\
        |i2l|ladd|putstatic app/Main sum J|iinc 1 1|goto again|done: getstatic java/lang/System out Ljava/io/PrintStream;\
        |getstatic app/Main sum J|invokevirtual java/io/PrintStream println (J)V|return|end\
        |method 0008 pick (I)I 2 1|iload 0|switch other -1=one 2=two|one: sipush 10|ireturn|two: getstatic lib/Limits TOP B|ireturn\
        |other: sipush 7|iload 0|idiv|last: ireturn|failed: pop|sipush 0|ireturn\
        |catch other last failed java/lang/ArithmeticException|catch one failed failed any|end",
    ),
    (
        "lib/Base.class",
        "class 0421 lib/Base java/lang/Object lib/Limits|field 0004 count I|field 0002 next [[Llib/Base;\
        |method 0001 <init> ()V 1 1|aload 0|invokespecial java/lang/Object <init> ()V|return|end\
        |method 0001 step ()I 3 1|aload 0|dup|getfield lib/Base count I|sipush 1|iadd|putfield lib/Base count I\
        |aload 0|getfield lib/Base count I|ireturn|end\
        |method 0401 late (JLapp/Child;)Llib/Base; 0 0 java/lang/Exception|end",
    ),
    (
        "lib/Limits.class",
        "class 0601 lib/Limits java/lang/Object|field 0019 TOP B 300|field 0019 NAME Ljava/lang/String; \"top\"|field 0019 BIG J 5000000000\
        |field 0019 ON Z 3|field 0019 LETTER C -1|field 0019 SMALL S 40000|field 0019 NUMBER I -5|field 0019 NONE I",
    ),
    ("lib/note.txt", "no class"),
    ("resolver.txt", "# nothing is shared"),
];

// Those with fewer classes of the folder above them come first, and among equals the paths decide.
const MAIN: ClassId = ClassId(45);

const LIMITS: ClassId = ClassId(46);

const BASE: ClassId = ClassId(47);

const CHILD: ClassId = ClassId(48);

const OBJECT: ClassId = ClassId(0);

const STRING: ClassId = ClassId(3);

const PRINT_STREAM: ClassId = ClassId(6);

const SYSTEM: ClassId = ClassId(7);

const REMOTE: ClassId = ClassId(10);

const EXCEPTION: ClassId = ClassId(15);

const ARITHMETIC: ClassId = ClassId(19);

/// A class by its name and number, with its parent, its interfaces and the classes to which it refers.
type ClassRow<'a> = (&'a str, ClassId, ClassId, &'a [ClassId], &'a [ClassId]);

const CLASSES: &[ClassRow<'static>] = &[
    (
        "app/Main",
        MAIN,
        OBJECT,
        &[],
        &[
            OBJECT,
            STRING,
            PRINT_STREAM,
            SYSTEM,
            ARITHMETIC,
            MAIN,
            LIMITS,
        ],
    ),
    ("lib/Limits", LIMITS, OBJECT, &[], &[OBJECT, STRING, LIMITS]),
    (
        "lib/Base",
        BASE,
        OBJECT,
        &[LIMITS],
        &[OBJECT, EXCEPTION, LIMITS, BASE, CHILD],
    ),
    ("app/Child", CHILD, BASE, &[], &[BASE, CHILD]),
];

/// What an entry of a pool leads to, or a field begins with.
#[derive(Clone, Copy)]
enum Leads<'a> {
    Nothing,
    Int(i32),
    Long(i64),
    /// A text of ASCII characters.
    Text(&'a str),
    /// The class that is named, that of the member, and its place.
    Field(ClassId, ClassId, u16),
    Method(ClassId, ClassId, u16),
}

/// With what the fields of Limits begin: the constants as a store would leave them.
const CONSTANTS: &[Leads<'static>] = &[
    Leads::Int(44),
    Leads::Text("top"),
    Leads::Long(5_000_000_000),
    Leads::Int(1),
    Leads::Int(65535),
    Leads::Int(-25536),
    Leads::Int(-5),
    Leads::Nothing,
];

/// An instruction by its class, the place of its method and its own, and what its first operand leads to.
type LinkRow<'a> = (ClassId, usize, usize, Leads<'a>);

const LINKS: &[LinkRow<'static>] = &[
    (MAIN, 0, 3, Leads::Int(1_000_000)),
    (MAIN, 0, 5, Leads::Field(MAIN, MAIN, 0)),
    (MAIN, 0, 7, Leads::Method(MAIN, MAIN, 1)),
    (MAIN, 0, 13, Leads::Field(SYSTEM, SYSTEM, 0)),
    // the println of a long, the fourth method of the stream
    (MAIN, 0, 15, Leads::Method(PRINT_STREAM, PRINT_STREAM, 3)),
    (MAIN, 1, 4, Leads::Field(LIMITS, LIMITS, 0)),
    // the parent's method, and a constant of the interface above it by the name of the class itself
    (CHILD, 1, 1, Leads::Method(BASE, BASE, 1)),
    (CHILD, 1, 2, Leads::Field(CHILD, LIMITS, 0)),
];

fn is_text(alloc: Global, found: &Text, text: &str) -> Result<bool, Fail> {
    let units = units(alloc, text)?;
    Ok(found.is(units.as_slice()))
}

/// Whether a link leads there.
fn leads_to(alloc: Global, link: &Link, wanted: &Leads) -> Result<bool, Fail> {
    match (link, wanted) {
        (Link::Nothing, Leads::Nothing) => Ok(true),
        (Link::Int(n), Leads::Int(m)) => Ok(*n == *m),
        (Link::Long(n), Leads::Long(m)) => Ok(*n == *m),
        (Link::Text(found), Leads::Text(text)) => is_text(alloc, found, text),
        (Link::Field(named, found), Leads::Field(class, of, place))
        | (Link::Method(named, found), Leads::Method(class, of, place)) => {
            Ok(*named == *class && found.class == *of && found.index == *place)
        }
        _ => Ok(false),
    }
}

/// A folder that is loaded in the world of the system classes.
fn loaded(rt: &impl Abort, alloc: Global, folder: &[File]) -> Result<(World, Loaded), Fail> {
    let mut files = MemoryFiles::new(alloc);
    add_folder(rt, alloc, &mut files, "a", folder)?;
    let mut world = first_world(alloc)?;
    match answer(rt, alloc, &mut files, "r", "a", &mut world) {
        Ok(loaded) => Ok((world, loaded)),
        Err(_) => panic!(rt; "it loads"),
    }
}

fn class<'w>(rt: &impl Abort, world: &'w World, class: ClassId) -> &'w ClassRecord {
    match world.classes().class(class) {
        Some(record) => record,
        None => panic!(rt; "no class"),
    }
}

/// The code of a method.
fn code<'w>(rt: &impl Abort, record: &'w ClassRecord, method: usize) -> &'w LinkedCode {
    match record.methods.get(method) {
        Some(method) => match &method.body {
            Body::Linked(code) => code,
            _ => panic!(rt; "no code"),
        },
        None => panic!(rt; "no method"),
    }
}

fn instr<'w>(rt: &impl Abort, code: &'w LinkedCode, place: usize) -> &'w Instr {
    match code.instrs.get(place) {
        Some(instr) => instr,
        None => panic!(rt; "no instruction at {place}"),
    }
}

/// What the first operand of an instruction leads to.
fn link<'w>(rt: &impl Abort, record: &'w ClassRecord, instr: &Instr) -> &'w Link {
    let index = usize::try_from(instr.a).unwrap_or(0);
    match record.links.get(index) {
        Some(link) => link,
        None => panic!(rt; "no entry {index}"),
    }
}

fn expect_class(
    rt: &impl Abort,
    alloc: Global,
    world: &World,
    table: &NameTable,
    row: &ClassRow,
) -> Result<(), Fail> {
    let (name, number, parent, interfaces, references) = row;
    let units = units(alloc, name)?;
    assert!(rt; table.resolve(units.as_slice()) == Some(*number), "{name}");
    let record = class(rt, world, *number);
    assert!(rt; record.name.is(units.as_slice()), "{name}");
    assert!(rt; record.home == Some(DomainId(0)), "{name}");
    assert!(rt; record.parent == Some(*parent), "{name}");
    assert!(rt; record.interfaces.as_slice() == *interfaces, "{name}");
    assert!(rt; record.references.as_slice() == *references, "{name}");
    Ok(())
}

fn expect_classes(
    rt: &impl Abort,
    alloc: Global,
    world: &World,
    table: &NameTable,
    rows: &[ClassRow],
) -> Result<(), Fail> {
    for row in rows {
        expect_class(rt, alloc, world, table, row)?;
    }
    Ok(())
}

/// The constants of an interface's fields.
fn expect_constants(
    rt: &impl Abort,
    alloc: Global,
    record: &ClassRecord,
    rows: &[Leads],
) -> Result<(), Fail> {
    assert!(rt; record.fields.len() == rows.len());
    for (field, wanted) in record.fields.as_slice().iter().zip(rows) {
        let is_so = leads_to(alloc, &field.constant, wanted)?;
        assert!(rt; is_so);
    }
    Ok(())
}

fn expect_link(rt: &impl Abort, alloc: Global, world: &World, row: &LinkRow) -> Result<(), Fail> {
    let (number, method, place, wanted) = row;
    let record = class(rt, world, *number);
    let instr = instr(rt, code(rt, record, *method), *place);
    let is_so = leads_to(alloc, link(rt, record, instr), wanted)?;
    assert!(rt; is_so, "the instruction at {place}");
    Ok(())
}

fn expect_links(
    rt: &impl Abort,
    alloc: Global,
    world: &World,
    rows: &[LinkRow],
) -> Result<(), Fail> {
    for row in rows {
        expect_link(rt, alloc, world, row)?;
    }
    Ok(())
}

/// The type of the field `next` of Base.
const NEXT: TypeRef = TypeRef {
    dims: 2,
    base: BaseRef::Class(BASE),
};

/// The parameters of its abstract method `late`.
const LATE_TAKES: &[TypeRef] = &[
    TypeRef {
        dims: 0,
        base: BaseRef::Long,
    },
    TypeRef {
        dims: 0,
        base: BaseRef::Class(CHILD),
    },
];

/// Its result.
const LATE_GIVES: TypeRef = TypeRef {
    dims: 0,
    base: BaseRef::Class(BASE),
};

/// The types of a field and of an abstract method of Base.
fn expect_types(rt: &impl Abort, base: &ClassRecord) -> Result<(), Fail> {
    let next = base.fields.get(1).ok_or("no field")?;
    assert!(rt; next.flags == 2 && next.kind == NEXT);
    let late = base.methods.get(2).ok_or("no method")?;
    assert!(rt; late.flags == 0x0401 && matches!(late.body, Body::Absent));
    assert!(rt; late.params.get().as_slice() == LATE_TAKES);
    assert!(rt; late.result == Some(LATE_GIVES));
    Ok(())
}

/// The jumps of the loop of `main` with their opcodes and targets, whose places are those in the list of instructions.
const JUMPS: &[(usize, u8, i32)] = &[(4, 0xa2, 13), (12, 0xa7, 2)];

fn expect_jumps(rt: &impl Abort, main: &LinkedCode, rows: &[(usize, u8, i32)]) {
    assert!(rt; main.max_stack == 4 && main.max_locals == 2 && main.instrs.len() == 17);
    for (place, op, target) in rows {
        let instr = instr(rt, main, *place);
        assert!(rt;
            instr.op == *op && instr.a == *target,
            "the jump at {place}"
        );
    }
}

/// Where the switch of `pick` leads, and its handlers.
const CASES: &[SwitchCase] = &[
    SwitchCase { key: -1, target: 2 },
    SwitchCase { key: 2, target: 4 },
];

const HANDLERS: &[Caught] = &[
    Caught {
        start: 6,
        end: 9,
        handler: 10,
        class: Some(ARITHMETIC),
    },
    Caught {
        start: 2,
        end: 10,
        handler: 10,
        class: None,
    },
];

fn expect_switch(rt: &impl Abort, pick: &LinkedCode) {
    assert!(rt; pick.instrs.len() == 13);
    let switch = instr(rt, pick, 1);
    assert!(rt; switch.op == 0xab && switch.a == 6);
    assert!(rt; switch.cases.as_slice() == CASES);
    assert!(rt; pick.handlers.as_slice() == HANDLERS);
}

/// What is known of the folder as a whole.
fn expect_counts(rt: &impl Abort, world: &World, loaded: &Loaded) {
    assert!(rt; loaded.first == MAIN && loaded.table.len() == 49);
    assert!(rt; world.classes().len() == 49 && world.domain_count() == 0);
    assert!(rt; loaded.offers.as_slice().is_empty() && loaded.stubs.is_empty());
}

/// All that is known of the folder's classes.
fn expect_program(
    rt: &impl Abort,
    alloc: Global,
    world: &World,
    loaded: &Loaded,
) -> Result<(), Fail> {
    expect_counts(rt, world, loaded);
    expect_classes(rt, alloc, world, &loaded.table, CLASSES)?;
    expect_links(rt, alloc, world, LINKS)?;
    expect_jumps(rt, code(rt, class(rt, world, MAIN), 0), JUMPS);
    expect_switch(rt, code(rt, class(rt, world, MAIN), 1));
    expect_types(rt, class(rt, world, BASE))?;
    expect_constants(rt, alloc, class(rt, world, LIMITS), CONSTANTS)
}

#[test]
fn classes_of_a_folder(rt: HostRuntime) -> Result<(), Fail> {
    let alloc = rt.alloc();
    let (world, loaded) = loaded(&rt, alloc, FOLDER)?;
    expect_program(&rt, alloc, &world, &loaded)
}

/// Remote interfaces, and a class that implements one. Far and Idle are 45 and 46, Near 47 and Work 48.
const REMOTES: &[File<'static>] = &[
    ("Far.class", "class 0601 Far java/lang/Object jk/Remote"),
    ("Idle.class", "class 0021 Idle java/lang/Object"),
    ("Near.class", "class 0601 Near java/lang/Object Far"),
    (
        "Work.class",
        "class 0021 Work Idle Near java/io/Serializable",
    ),
    ("resolver.txt", "share Near|share Far|share Idle a"),
];

/// The stubs, each with its class and its interfaces.
const STUBS: &[(ClassId, &[ClassId])] = &[
    (ClassId(45), &[REMOTE, ClassId(45)]),
    (ClassId(47), &[REMOTE, ClassId(45), ClassId(47)]),
    (ClassId(48), &[REMOTE, ClassId(45), ClassId(47)]),
];

/// Whether a class is offered to domains of these names.
const OFFERS: &[(ClassId, &str, bool)] = &[
    (ClassId(45), "a", true),
    (ClassId(45), "b", true),
    (ClassId(46), "a", true),
    (ClassId(46), "b", false),
    (ClassId(47), "b", true),
    (ClassId(48), "a", false),
];

fn expect_stubs(rt: &impl Abort, loaded: &Loaded, rows: &[(ClassId, &[ClassId])]) {
    assert!(rt; loaded.first == ClassId(45) && loaded.stubs.len() == rows.len());
    for (stub, (class, interfaces)) in loaded.stubs.as_slice().iter().zip(rows) {
        assert!(rt; stub.class == *class && stub.interfaces.as_slice() == *interfaces);
    }
}

#[test]
fn stubs_and_offers_of_a_folder(rt: HostRuntime) -> Result<(), Fail> {
    let (_world, loaded) = loaded(&rt, rt.alloc(), REMOTES)?;
    expect_stubs(&rt, &loaded, STUBS);
    expect_offers(&rt, &loaded, OFFERS);
    Ok(())
}
