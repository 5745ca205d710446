//! Texts of `resolver.txt` with what they say or the bad line, names, offers, imports, and a world.

ghost use Rattle.std.specs.Prelude.{◌≡◌, IsTrue, Some};
ghost use Rattle.jk_model.specs.declared.identifiers.ClassId.{ClassId as AClassId};
ghost use Rattle.jk_model_classes.specs.declared.records.ClassRecord.{ClassRecord as ARecord};
ghost use Rattle.jk_model_classes.specs.Classes.{record_of};
ghost use Rattle.jk_model_classes.specs.SystemRecords.{AreSystemRecords};
ghost use Rattle.jk_model_classes.specs.Worlds.{NamesClasses};
ghost use Rattle.domain_resolver.specs.LiveDomains.{IsLiveLast};

use crate::class_rows::{text, units};
use class_table::ClassTable;
use domain_resolver::*;
use jk_model::{Bytes, ClassId, DomainId, OutOfMemory};
use std::alloc::Global;
use std::process::Abort;
use std::test::Fail;

// ---- Lines.

/// A line by its number, whether it is an import, the class, and the domain; no bytes where there is none.
type LineRow<'a> = (u32, bool, &'a [u8], &'a [u8]);

/// Texts, with the lines that say something.
const TEXTS: &[(&[u8], &[LineRow<'static>])] = &[
    (b"share a/B", &[(1, false, b"a/B", b"")]),
    (b"share a/B\n", &[(1, false, b"a/B", b"")]),
    (
        b"\n# x\n \t\nshare a/B bank\r\n",
        &[(4, false, b"a/B", b"bank")],
    ),
    (b"\timport  bank\ta/B \n\n", &[(1, true, b"a/B", b"bank")]),
    (
        b" \t # share x\r\n#\nimport x-_9 !~\n",
        &[(3, true, b"!~", b"x-_9")],
    ),
    (b"share share import\n", &[(1, false, b"share", b"import")]),
    (b"share #\n", &[(1, false, b"#", b"")]),
    (
        b"share a\n# b\nimport c d\nshare e f",
        &[
            (1, false, b"a", b""),
            (3, true, b"d", b"c"),
            (4, false, b"e", b"f"),
        ],
    ),
    (b"\r\n# \t !~\n\n", &[]),
];

/// Texts, with the first bad line.
const BAD: &[(&[u8], u32)] = &[
    (b"share\n", 1),
    (b"share a b c\n", 1),
    (b"import a\n", 1),
    (b"import a b c\n", 1),
    (b"Share a\n", 1),
    (b"\nshare a\nfly b\nfly c\n", 3),
    (b"share a\n# \xc3\xa9\n", 2),
    (b"# \x7f\n", 1),
    (b"share a\r", 1),
    (b"share a\r\r\n", 1),
    (b"share a b.c\n", 1),
    (b"import b/c a\n", 1),
    (b"share a a23456789_123456789-123456789012\n#\nno", 3),
    (b"share a a23456789_123456789-1234567890123\n", 1),
];

fn is_line(line: &ResolverLine, row: &LineRow) -> bool {
    let (import, class, domain) = match &line.says {
        ResolverWord::Share { class, to: None } => (false, class.as_slice(), b"".as_slice()),
        ResolverWord::Share {
            class,
            to: Some(domain),
        } => (false, class.as_slice(), domain.as_slice()),
        ResolverWord::Import { from, class } => (true, class.as_slice(), from.as_slice()),
    };
    line.line == row.0 && import == row.1 && class == row.2 && domain == row.3
}

/// Whether a text says these lines alone.
fn says(alloc: Global, text: &[u8], rows: &[LineRow]) -> Result<bool, Fail> {
    if text.len() > 1000 {
        return Err(Fail::from("a long text"));
    }
    let lines = read_resolver(alloc, text)?;
    let lines = lines.as_slice();
    let are_same = lines.iter().zip(rows).all(|(line, row)| is_line(line, row));
    Ok(are_same && lines.len() == rows.len())
}

/// The first bad line, or `None` where there is none.
fn bad_line(alloc: Global, text: &[u8]) -> Result<Option<u32>, Fail> {
    if text.len() > 1000 {
        return Err(Fail::from("a long text"));
    }
    match read_resolver(alloc, text) {
        Ok(_) => Ok(None),
        Err(ResolverError::BadResolver(line)) => Ok(Some(line)),
        Err(ResolverError::OutOfMemory) => Err(Fail::from("out of memory")),
    }
}

/// The first bad line of an import of a class with a name of so many bytes.
fn bad_line_of_name(alloc: Global, length: usize) -> Result<Option<u32>, Fail> {
    let mut text = Vec::from_slice(alloc, b"import a ")?;
    for _ in 0..length {
        text.push(b'x')?;
    }
    bad_line(alloc, text.as_slice())
}

#[test]
fn lines(rt: HostRuntime) -> Result<(), Fail> {
    for (text, rows) in TEXTS {
        assert!(rt; says(rt.alloc(), text, rows)?);
    }
    for (text, line) in BAD {
        assert!(rt; bad_line(rt.alloc(), text)? == Some(*line));
    }
    assert!(rt; bad_line_of_name(rt.alloc(), 255)?.is_none());
    assert!(rt; bad_line_of_name(rt.alloc(), 256)? == Some(1));
    Ok(())
}

// ---- Names.

/// What is done with a table of names, or asked of it, and what comes of it.
enum NameStep<'a> {
    /// A name is given a class: whether it is that of the class afterwards.
    Gives(&'a str, u32, bool),
    /// A name means a class, or none.
    Means(&'a str, Option<u32>),
    /// Whether some name means a class.
    Has(u32, bool),
    /// The class of the name at a place.
    At(usize, Option<u32>),
    Len(usize),
    /// java/lang/Object is imported: whether it can be.
    ImportsObject(bool),
}

const NAMES: &[NameStep<'static>] = &[
    NameStep::Len(0),
    NameStep::Means("a/B", None),
    NameStep::Gives("a/B", 7, true),
    NameStep::Gives("a/C", 5, true),
    NameStep::Gives("a/B", 7, true),
    NameStep::Gives("a/B", 5, false),
    NameStep::Len(2),
    NameStep::Means("a/B", Some(7)),
    NameStep::Means("a/C", Some(5)),
    NameStep::Means("a", None),
    NameStep::Has(5, true),
    NameStep::Has(6, false),
    NameStep::At(1, Some(5)),
    NameStep::At(2, None),
];

/// An import that is made twice.
const IMPORTS: &[NameStep<'static>] = &[
    NameStep::ImportsObject(true),
    NameStep::ImportsObject(true),
    NameStep::Len(1),
    NameStep::Means("java/lang/Object", Some(0)),
];

/// An import whose name means another class already.
const TAKEN: &[NameStep<'static>] = &[
    NameStep::Gives("java/lang/Object", 5, true),
    NameStep::ImportsObject(false),
];

/// System classes refer to no class. It does nothing.
fn refer_to_none(_classes: &ClassTable)
    requires { AreSystemRecords _classes.now }
    ensures { (c : AClassId) (r : ARecord) → record_of _classes.now c ≡ Some r → NamesClasses _classes.now r }
{}

/// Whether java/lang/Object is imported into a table.
fn imports_object(alloc: Global, table: &mut NameTable) -> Result<bool, Fail> {
    let classes = ClassTable::new(alloc)?;
    refer_to_none(&classes);
    if classes.len() == 0 {
        return Err(Fail::from("no class"));
    }
    Ok(table.import(&classes, ClassId(0))?)
}

fn means(
    alloc: Global,
    table: &NameTable,
    name: &str,
    class: Option<u32>,
) -> Result<bool, OutOfMemory> {
    let name = units(alloc, name)?;
    Ok(table.resolve(name.as_slice()) == class.map(|c| ClassId(c)))
}

fn gives(
    alloc: Global,
    table: &mut NameTable,
    name: &str,
    class: u32,
) -> Result<bool, OutOfMemory> {
    let name = text(alloc, name)?;
    table.give(&name, ClassId(class))
}

/// Whether the step comes out as it says.
fn takes_step(alloc: Global, table: &mut NameTable, step: &NameStep) -> Result<bool, Fail> {
    match step {
        NameStep::Gives(name, class, given) => Ok(gives(alloc, table, name, *class)? == *given),
        NameStep::Means(name, class) => Ok(means(alloc, table, name, *class)?),
        NameStep::Has(class, has) => Ok(table.has_class(ClassId(*class)) == *has),
        NameStep::At(place, class) => Ok(table.class_at(*place) == class.map(|c| ClassId(c))),
        NameStep::Len(len) => Ok(table.len() == *len && table.is_empty() == (*len == 0)),
        NameStep::ImportsObject(done) => Ok(imports_object(alloc, table)? == *done),
    }
}

#[test]
fn names(rt: HostRuntime) -> Result<(), Fail> {
    for steps in [NAMES, IMPORTS, TAKEN] {
        let mut table = NameTable::new(rt.alloc());
        for (i, step) in steps.iter().enumerate() {
            assert!(rt; takes_step(rt.alloc(), &mut table, step)?, "step {i}");
        }
    }
    Ok(())
}

// ---- Offers.

/// Classes, each with the domain that it is offered to; no bytes where it is offered to all.
const GIVEN: &[(u32, &[u8])] = &[(4, b"b"), (9, b""), (4, b"ab"), (1, b"b")];

/// Classes, and whether they are offered at all, to all, to `b`, and to `ab`.
const OFFERED: &[(u32, bool, bool, bool, bool)] = &[
    (1, true, false, true, false),
    (2, false, false, false, false),
    (4, true, false, true, true),
    (9, true, true, true, true),
];

fn offer(alloc: Global, class: u32, name: &[u8]) -> Result<Offer, OutOfMemory> {
    let to = if name.is_empty() {
        None
    } else {
        Some(Bytes::from_slice(alloc, name)?)
    };
    let class = ClassId(class);
    Ok(Offer { class, to })
}

fn given(alloc: Global) -> Result<Offers, OutOfMemory> {
    let mut given = Vec::new(alloc);
    for (class, name) in GIVEN {
        given.push(offer(alloc, *class, name)?)?;
    }
    Offers::of(given)
}

/// Whether a class is offered at all, to all, to `b`, and to `ab`.
fn offered(
    alloc: Global,
    offers: &Offers,
    class: ClassId,
) -> Result<(bool, bool, bool, bool), OutOfMemory> {
    let b = Some(Bytes::from_slice(alloc, b"b")?);
    Ok((
        offers.has_class(class),
        offers.goes_along(class, &None),
        offers.goes_along(class, &b),
        offers.is_offered_to(class, b"ab"),
    ))
}

#[test]
fn offers(rt: HostRuntime) -> Result<(), Fail> {
    let offers = given(rt.alloc())?;
    assert!(rt; offers.as_slice().len() == 4);
    for (class, at_all, to_all, to_b, to_ab) in OFFERED {
        let found = offered(rt.alloc(), &offers, ClassId(*class))?;
        assert!(rt; found == (*at_all, *to_all, *to_b, *to_ab), "class {class}");
    }
    Ok(())
}

// ---- A world.

/// What is done with a world, or asked of it, and what comes of it.
enum WorldStep<'a> {
    /// A domain without names or offers is added: its number.
    Adds(&'a [u8], u32),
    /// A domain ends, of which its name alone is left.
    Ends(u32, &'a [u8]),
    /// The last domain is taken back.
    TakesBack,
    /// The live domain of a name.
    Live(&'a [u8], Option<u32>),
    /// How many domains there are.
    Count(u32),
}

const WORLD: &[WorldStep<'static>] = &[
    WorldStep::Adds(b"a", 0),
    WorldStep::Adds(b"b", 1),
    WorldStep::Adds(b"c", 2),
    WorldStep::Ends(1, b"b"),
    WorldStep::Live(b"a", Some(0)),
    WorldStep::Live(b"b", None),
    WorldStep::Live(b"c", Some(2)),
    WorldStep::Adds(b"b", 3),
    WorldStep::Ends(1, b"b"),
    WorldStep::Live(b"b", Some(3)),
    WorldStep::Count(4),
    WorldStep::TakesBack,
    WorldStep::Count(3),
    WorldStep::Live(b"b", None),
    WorldStep::Live(b"c", Some(2)),
];

/// Adds a domain without names or offers.
fn add(
    rt: &impl Abort,
    alloc: Global,
    world: &mut World,
    name: &[u8],
) -> Result<DomainId, OutOfMemory> {
    assert!(rt; world.domain_count() < 1000);
    if let Some(_) = world.live_named(name) {
        panic!(rt; "the name is taken");
    }
    let name = Bytes::from_slice(alloc, name)?;
    world.add_domain(name, NameTable::new(alloc), Offers::new(alloc))
}

/// Ends a domain that is there.
fn end(rt: &impl Abort, world: &mut World, d: DomainId) {
    assert!(rt; (d.0 as usize) < world.domain_count());
    world.end_domain(d);
}

/// Whether there is a last domain, which is live.
fn last_is_live(world: &World) -> bool
    ensures { IsTrue result → IsLiveLast world.now.domains }
{
    let count = world.domain_count();
    if count == 0 {
        return false;
    }
    match world.domain(DomainId((count - 1) as u32)) {
        Some(domain) => domain.is_live(),
        None => false,
    }
}

/// Takes back the last domain, which is live.
fn take_back(rt: &impl Abort, world: &mut World) {
    assert!(rt; last_is_live(world));
    world.take_back_domain();
}

/// Whether a domain isn't live, and of what it had its name alone is left.
fn is_ended(world: &World, d: DomainId, name: &[u8]) -> bool {
    match world.domain(d) {
        Some(ended) => {
            let is_empty = ended.table().len() == 0 && ended.offers().as_slice().is_empty();
            !ended.is_live() && ended.name().as_slice() == name && is_empty
        }
        None => false,
    }
}

/// Whether there are so many domains, and no more.
fn has_domains(world: &World, count: u32) -> bool {
    world.domain_count() == count as usize && world.domain(DomainId(count)).is_none()
}

/// Takes a step, and says whether it comes out as it says.
fn takes_world_step(
    rt: &impl Abort,
    alloc: Global,
    world: &mut World,
    step: &WorldStep,
) -> Result<bool, OutOfMemory> {
    match step {
        WorldStep::Adds(name, d) => Ok(add(rt, alloc, world, name)? == DomainId(*d)),
        WorldStep::Ends(d, name) => {
            end(rt, world, DomainId(*d));
            Ok(is_ended(world, DomainId(*d), name))
        }
        WorldStep::TakesBack => {
            take_back(rt, world);
            Ok(true)
        }
        WorldStep::Live(name, d) => Ok(world.live_named(name) == d.map(|d| DomainId(d))),
        WorldStep::Count(count) => Ok(has_domains(world, *count)),
    }
}

#[test]
fn three_domains(rt: HostRuntime) -> Result<(), Fail> {
    let mut world = World::new(rt.alloc())?;
    assert!(rt; world.classes().len() == 45);
    for (i, step) in WORLD.iter().enumerate() {
        assert!(rt;
            takes_world_step(&rt, rt.alloc(), &mut world, step)?,
            "step {i}"
        );
    }
    Ok(())
}
