//! A folder for each of the rules on class files, and folders that break several: of these the first is answered, in the order of
//! the rules.

ghost use Rattle.jk_model_folders.specs.Loads.{MayLoad};

use crate::cases::{Wanted, expect_answer};
use crate::folders::{add_bytes, add_folder, class_file};
use crate::small_tests::TRAILING;
use crate::worlds::first_world;
use domain_resolver::World;
use jk_model::{Bytes, Rule};
use jk_outside::MemoryFiles;
use std::alloc::Global;
use std::process::Abort;
use std::test::Fail;

/// What stands in a class file.
#[derive(Clone, Copy)]
enum Content<'a> {
    Bytes(&'a [u8]),
    /// What an assembler's text stands for.
    Text(&'a str),
    /// The same, with other bytes in place of the first that are these.
    Patched(&'a str, &'a [u8], &'a [u8]),
}

/// A class file that breaks one rule: the rule, its path, the number, what stands in it, and the line of `resolver.txt` with which
/// it breaks the rule.
type Breaker<'a> = (Rule, &'a str, u32, Content<'a>, &'a str);

/// The same, with a class whose name is the ninth of five entries.
const UNNAMED: &[u8] =
    b"\xca\xfe\xba\xbe\0\x03\0\x2d\0\x05\x07\0\x09\x01\0\x01A\x07\0\x04\x01\0\x10java/lang/Object\0\x21\0\x01\0\x03\0\0\0\0\0\0\0\0";

/// A class that breaks no rule, beside which the others stand.
const BASE: &str = "class 0021 Base java/lang/Object|method 0011 id ()I 1 1|sipush 1|ireturn|end";

/// The bytes of a class file, with other bytes in place of the first that are these.
fn patched(alloc: Global, bytes: &[u8], old: &[u8], new: &[u8]) -> Result<Bytes, Fail> {
    for i in 0..bytes.len() {
        if let Some(rest) = bytes[i..].strip_prefix(old) {
            let mut all = Bytes::from_slice(alloc, &bytes[..i])?;
            all.extend_from_slice(new)?;
            all.extend_from_slice(rest)?;
            return Ok(all);
        }
    }
    Err(Fail::from("no such bytes"))
}

/// The bytes of a file.
fn bytes_of(rt: &impl Abort, alloc: Global, content: &Content) -> Result<Bytes, Fail> {
    match content {
        Content::Bytes(bytes) => Ok(Bytes::from_slice(alloc, bytes)?),
        Content::Text(text) => class_file(rt, alloc, text),
        Content::Patched(text, old, new) => {
            let bytes = class_file(rt, alloc, text)?;
            patched(alloc, bytes.as_slice(), old, new)
        }
    }
}

/// The class files that break a rule, in the order of the rules and against that of paths.
const BREAKERS: &[Breaker<'static>] = &[
    (
        Rule::C1,
        "K27.class",
        0,
        Content::Bytes(b"no class file"),
        "",
    ),
    (
        Rule::C2,
        "K26.class",
        4,
        Content::Bytes(b"\xca\xfe\xba\xbe\0\0\0\x33"),
        "",
    ),
    (
        Rule::C3,
        "K25.class",
        9,
        Content::Bytes(b"\xca\xfe\xba\xbe\0\x03\0\x2d\0"),
        "",
    ),
    (Rule::C4, "K24.class", 53, Content::Bytes(TRAILING), ""),
    (Rule::C5, "K23.class", 1, Content::Bytes(UNNAMED), ""),
    // final and abstract
    (
        Rule::C6,
        "K22.class",
        0,
        Content::Text("class 0431 K22 java/lang/Object"),
        "",
    ),
    (
        Rule::C7,
        "K21.class",
        1,
        Content::Text("class 0021 K21 java/lang/Object|method 0009 b.c ()V 0 0|return|end"),
        "",
    ),
    (
        Rule::C8,
        "K20.class",
        1,
        Content::Text("class 0021 K20 java/lang/Object|field 0001 a X"),
        "",
    ),
    (
        Rule::C9,
        "K19.class",
        1,
        Content::Text("class 0021 K19 java/lang/Object|method 0001 b ()V 0 0|end"),
        "",
    ),
    (
        Rule::C10,
        "K18.class",
        1,
        Content::Text("class 0021 K18 java/lang/Object|field 0001 a F"),
        "",
    ),
    // goto becomes jsr
    (
        Rule::C11,
        "K17.class",
        1,
        Content::Patched(
            "class 0021 K17 java/lang/Object|method 0009 m ()V 1 0|L: goto L|end",
            b"\xa7\0\0",
            b"\xa8\0\0",
        ),
        "",
    ),
    (
        Rule::C12,
        "K16.class",
        1,
        Content::Text("class 0021 K16 java/lang/Object|method 0029 b ()V 0 0|return|end"),
        "",
    ),
    (
        Rule::C13,
        "K15.class",
        1,
        Content::Text("class 0021 K15 java/lang/Object|method 0109 b ()V 0 0|end"),
        "",
    ),
    // what is loaded becomes the Class entry of the class itself
    (
        Rule::C14,
        "K14.class",
        1,
        Content::Patched(
            "class 0021 K14 java/lang/Object|method 0009 m ()V 1 0|ldc_w int 7|pop|return|end",
            b"\x13\0\x08",
            b"\x13\0\x02",
        ),
        "",
    ),
    (
        Rule::C15,
        "K13.class",
        1,
        Content::Text("class 0021 K13 java/lang/Object|method 0009 a ()I 1 1|iload 1|ireturn|end"),
        "",
    ),
    (
        Rule::C16,
        "K12.class",
        2,
        Content::Text("class 0021 K12 java/lang/Object|field 0001 a I|field 0002 a I"),
        "",
    ),
    (
        Rule::C17,
        "K11.class",
        0,
        Content::Text("class 0021 K99 java/lang/Object"),
        "",
    ),
    (
        Rule::C18,
        "K10.class",
        4,
        Content::Text("class 0021 K10 Gone"),
        "",
    ),
    (
        Rule::C19,
        "K09.class",
        0,
        Content::Text("class 0021 K09 java/lang/String"),
        "",
    ),
    (
        Rule::C20,
        "K08.class",
        10,
        Content::Text(
            "class 0021 K08 java/lang/Object|method 0009 m ()V 0 0|invokestatic K08 gone ()V|return|end",
        ),
        "",
    ),
    // a closed class without a constructor
    (
        Rule::C21,
        "K07.class",
        1,
        Content::Text(
            "class 0021 K07 java/lang/Object|method 0009 m ()V 1 0|new jk/Task|pop|return|end",
        ),
        "",
    ),
    (
        Rule::C22,
        "K06.class",
        1,
        Content::Text("class 0021 K06 Base|method 0001 id ()I 1 1|sipush 2|ireturn|end"),
        "",
    ),
    // 33 instructions and 131,070 slots
    (
        Rule::C24,
        "K05.class",
        1,
        Content::Text(
            "class 0021 K05 java/lang/Object|method 0009 m ()V 65535 65535|nop|nop|nop|nop|nop|nop|nop|nop|nop|nop|nop|nop|nop|nop|nop|nop\
            |nop|nop|nop|nop|nop|nop|nop|nop|nop|nop|nop|nop|nop|nop|nop|nop|return|end",
        ),
        "",
    ),
    (
        Rule::C23,
        "K04.class",
        1,
        Content::Text("class 0021 K04 java/lang/Object|method 0009 m ()V 1 0|pop|return|end"),
        "",
    ),
    (
        Rule::C25,
        "K03.class",
        1,
        Content::Text("class 0021 K03 java/lang/Object|field 0009 count I"),
        "share K03\n",
    ),
    (
        Rule::C26,
        "K02.class",
        0,
        Content::Text("class 0021 K02 java/lang/Object|field 0001 base LBase;"),
        "share K02\n",
    ),
    (
        Rule::C27,
        "K01.class",
        1,
        Content::Text("class 0601 K01 java/lang/Object jk/Remote|method 0401 size ()I 0 0|end"),
        "",
    ),
];

/// Puts the good class and these class files, with their lines, into the folder of a name.
fn add_breakers(
    rt: &impl Abort,
    alloc: Global,
    files: &mut MemoryFiles,
    name: &str,
    breakers: &[Breaker],
) -> Result<(), Fail> {
    add_folder(rt, alloc, files, name, &[("Base.class", BASE)])?;
    let mut lines = Bytes::new(alloc);
    for (_, path, _, content, line) in breakers {
        let bytes = bytes_of(rt, alloc, content)?;
        add_bytes(rt, alloc, files, name, path, bytes.as_slice())?;
        lines.extend_from_slice(line.as_bytes())?;
    }
    add_bytes(rt, alloc, files, name, "resolver.txt", lines.as_slice())
}

/// Asserts what is answered of the good class and these class files, together.
fn expect_breakers(
    rt: &impl Abort,
    alloc: Global,
    world: &mut World,
    breakers: &[Breaker],
    wanted: Wanted,
) -> Result<(), Fail>
    requires { MayLoad world.old }
    ensures { MayLoad world.new }
{
    let mut files = MemoryFiles::new(alloc);
    add_breakers(rt, alloc, &mut files, "a", breakers)?;
    expect_answer(rt, alloc, &mut files, "a", world, wanted)
}

/// Asserts what is answered of each class file beside the good one, and beside all that follow it.
fn expect_each(
    rt: &impl Abort,
    alloc: Global,
    world: &mut World,
    breakers: &[Breaker],
) -> Result<(), Fail>
    requires { MayLoad world.old }
    ensures { MayLoad world.new }
{
    for (i, (rule, path, number, _, _)) in breakers.iter().enumerate() {
        let wanted = Wanted::At(*rule, path, *number);
        expect_breakers(rt, alloc, world, &breakers[i..i + 1], wanted)?;
        expect_breakers(rt, alloc, world, &breakers[i..], wanted)?;
    }
    Ok(())
}

/// Each class file that breaks a rule beside the good one, and beside all that break later ones, whose paths come before its own.
/// The world is one for all, since a folder that is refused leaves it as it was.
#[test]
fn rules_in_their_order(rt: HostRuntime) -> Result<(), Fail> {
    let alloc = rt.alloc();
    let mut world = first_world(alloc)?;
    expect_each(&rt, alloc, &mut world, BREAKERS)?;
    expect_breakers(&rt, alloc, &mut world, &[], Wanted::Loads)
}
