//! What a domain knows after an import.

use crate::folders::{File, add_folder};
use crate::names::units;
use crate::resolver_tests::OFFERING;
use crate::worlds::{answer, opened};
use domain_resolver::{NameTable, World};
use folder_loader::Loaded;
use jk_model::{ClassId, DomainId};
use jk_model_classes::ClassRecord;
use jk_outside::MemoryFiles;
use std::alloc::Global;
use std::process::Abort;
use std::test::Fail;

/// A folder that imports the class whose field leads to another one.
const FOLDER: &[File<'static>] = &[
    ("My.class", "class 0021 My Box|field 1 n LNode;"),
    ("resolver.txt", "share My d|import b Box"),
];

/// What names mean in its domain. The classes of `b` are 45 to 48 in the order of paths, that of `c` is 49, and its own is 50.
const MEANINGS: &[(&str, Option<ClassId>)] = &[
    ("java/lang/Object", Some(ClassId(0))),
    ("Box", Some(ClassId(46))),
    ("Node", Some(ClassId(47))),
    ("My", Some(ClassId(50))),
    ("Bag", None),
    ("Own", None),
];

/// Whether a class is offered to domains of a name.
const OFFERS: &[(ClassId, &str, bool)] = &[
    (ClassId(50), "d", true),
    (ClassId(50), "e", false),
    (ClassId(46), "d", false),
];

/// The classes to which its own refers.
const REFERENCES: &[ClassId] = &[ClassId(46), ClassId(47), ClassId(50)];

/// Asserts what names mean.
fn expect_meanings(
    rt: &impl Abort,
    alloc: Global,
    table: &NameTable,
    rows: &[(&str, Option<ClassId>)],
) -> Result<(), Fail> {
    for (name, class) in rows {
        let units = units(alloc, name)?;
        assert!(rt; table.resolve(units.as_slice()) == *class, "{name}");
    }
    Ok(())
}

/// Asserts to whom classes are offered.
pub(crate) fn expect_offers(rt: &impl Abort, loaded: &Loaded, rows: &[(ClassId, &str, bool)]) {
    for (class, name, is_offered) in rows {
        let found = loaded.offers.is_offered_to(*class, name.as_bytes());
        assert!(rt; found == *is_offered, "{name}");
    }
}

/// Asserts what stands in the record of the folder's own class.
fn expect_my(rt: &impl Abort, my: &ClassRecord) {
    assert!(rt; my.home == Some(DomainId(2)) && my.parent == Some(ClassId(46)));
    assert!(rt; my.references.as_slice() == REFERENCES);
}

fn expect_imports(
    rt: &impl Abort,
    alloc: Global,
    world: &World,
    loaded: &Loaded,
) -> Result<(), Fail> {
    assert!(rt; loaded.first == ClassId(50) && loaded.table.len() == 48);
    expect_meanings(rt, alloc, &loaded.table, MEANINGS)?;
    expect_offers(rt, loaded, OFFERS);
    expect_my(rt, world.classes().class(ClassId(50)).ok_or("no class")?);
    Ok(())
}

#[test]
fn names_that_are_brought_in(rt: HostRuntime) -> Result<(), Fail> {
    let alloc = rt.alloc();
    let mut files = MemoryFiles::new(alloc);
    let mut world = opened(&rt, alloc, &mut files, OFFERING)?;
    add_folder(&rt, alloc, &mut files, "a", FOLDER)?;
    match answer(&rt, alloc, &mut files, "r", "a", &mut world) {
        Ok(loaded) => expect_imports(&rt, alloc, &world, &loaded),
        Err(_) => panic!(rt; "it loads"),
    }
}
