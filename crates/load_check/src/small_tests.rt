//! Small class files in bytes: versions, and files that are cut.

use crate::cases::Wanted::{At, Loads};
use crate::cases::{Wanted, expect_answer};
use crate::folders::add_bytes;
use crate::worlds::first_world;
use jk_model::Rule;
use jk_outside::MemoryFiles;
use std::alloc::Global;
use std::process::Abort;
use std::test::Fail;

/// A class A with nothing in it, of version 45.3.
pub(crate) const SMALL: &[u8] =
    b"\xca\xfe\xba\xbe\0\x03\0\x2d\0\x05\x07\0\x02\x01\0\x01A\x07\0\x04\x01\0\x10java/lang/Object\0\x21\0\x01\0\x03\0\0\0\0\0\0\0\0";

/// The same with a byte behind it.
pub(crate) const TRAILING: &[u8] =
    b"\xca\xfe\xba\xbe\0\x03\0\x2d\0\x05\x07\0\x02\x01\0\x01A\x07\0\x04\x01\0\x10java/lang/Object\0\x21\0\x01\0\x03\0\0\0\0\0\0\0\0\n";

/// The same, in version 50.0.
const NEWEST: &[u8] =
    b"\xca\xfe\xba\xbe\0\0\0\x32\0\x05\x07\0\x02\x01\0\x01A\x07\0\x04\x01\0\x10java/lang/Object\0\x21\0\x01\0\x03\0\0\0\0\0\0\0\0";

/// The same, in version 50.3.
const TOO_NEW: &[u8] =
    b"\xca\xfe\xba\xbe\0\x03\0\x32\0\x05\x07\0\x02\x01\0\x01A\x07\0\x04\x01\0\x10java/lang/Object\0\x21\0\x01\0\x03\0\0\0\0\0\0\0\0";

/// The same, in version 45.2.
const TOO_OLD: &[u8] =
    b"\xca\xfe\xba\xbe\0\x02\0\x2d\0\x05\x07\0\x02\x01\0\x01A\x07\0\x04\x01\0\x10java/lang/Object\0\x21\0\x01\0\x03\0\0\0\0\0\0\0\0";

/// The bytes of a class file A by the name of its domain, with what is to be answered.
const FILES: &[(&str, &[u8], Wanted<'static>)] = &[
    ("small", SMALL, Loads),
    ("newest", NEWEST, Loads),
    ("too-new", TOO_NEW, At(Rule::C2, "A.class", 4)),
    ("too-old", TOO_OLD, At(Rule::C2, "A.class", 4)),
    ("trailing", TRAILING, At(Rule::C4, "A.class", 53)),
    ("empty", b"", At(Rule::C3, "A.class", 0)),
    ("cut", b"\xca\xfe\xba", At(Rule::C3, "A.class", 3)),
    (
        "other-magic",
        b"\xca\xfe\xba\xbf",
        At(Rule::C1, "A.class", 0),
    ),
];

/// Asserts what is answered of each class file.
fn expect_files(
    rt: &impl Abort,
    alloc: Global,
    rows: &[(&str, &[u8], Wanted)],
) -> Result<(), Fail> {
    for (name, bytes, wanted) in rows {
        let mut files = MemoryFiles::new(alloc);
        add_bytes(rt, alloc, &mut files, name, "A.class", bytes)?;
        let mut world = first_world(alloc)?;
        expect_answer(rt, alloc, &mut files, name, &mut world, *wanted)?;
    }
    Ok(())
}

#[test]
fn small_class_files(rt: HostRuntime) -> Result<(), Fail> {
    expect_files(&rt, rt.alloc(), FILES)
}
