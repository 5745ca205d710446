//! The demo: its class files beside what the assembler makes of their texts, its events beside those that a script's text stands for, and its
//! folders.

use crate::demo_texts::{GO, HOP, IMPL, MAIN, NODE};
use crate::script_tests::told;
use jk_model::Event;
use jk_outside::Files;
use jkasm::assemble;
use ring_demo::{GO_CLASS, HOP_CLASS, IMPL_CLASS, MAIN_CLASS, NODE_CLASS, demo_events, demo_files};
use script_reader::read_script;
use std::alloc::Global;
use std::test::Fail;

/// More bytes than any text here has.
const LONG: usize = 1 << 20;

/// Texts of the assembler, with the class files that they stand for.
const CLASSES: &[(&[u8], &[u8])] = &[
    (HOP, HOP_CLASS),
    (NODE, NODE_CLASS),
    (MAIN, MAIN_CLASS),
    (IMPL, IMPL_CLASS),
    (GO, GO_CLASS),
];

/// Whether a text stands for a class file.
fn stands_for(alloc: Global, text: &[u8], class: &[u8]) -> Result<bool, Fail> {
    if text.len() >= LONG {
        return Err(Fail::from("a long text"));
    }
    Ok(assemble(alloc, text)?.as_slice() == class)
}

#[test]
fn class_files(rt: HostRuntime) -> Result<(), Fail> {
    for (text, class) in CLASSES {
        assert!(rt; stands_for(rt.alloc(), text, class)?);
    }
    Ok(())
}

/// How many domains, nodes, hops and steps a demo has.
type Measures = (u32, u32, u32, u32);

/// Seeds with the measures of their demos.
const SEEDS: &[(u32, Measures)] = &[
    (0, (2, 20, 10, 1)),
    (1, (3, 20, 10, 2)),
    (6, (8, 20, 10, 7)),
    (7, (2, 21, 10, 8)),
    (1000, (8, 162, 10, 4)),
    (1266, (8, 200, 10, 270)),
    (1267, (2, 20, 11, 271)),
    (12_345, (6, 154, 19, 382)),
    (999_999_998, (6, 197, 50, 26)),
    (999_999_999, (7, 197, 50, 27)),
];

/// Adds a line to a text for each domain.
fn add_domains(alloc: Global, text: &mut String, domains: u32) -> Result<(), Fail> {
    for i in 0..domains {
        let line = format!(in alloc; "domain d{i} heap 400000 caps 1 threads 2 names 1\n")?;
        text.push_str(line.as_str())?;
    }
    Ok(())
}

/// The same with the start of each one's server, which knows the next one.
fn add_servers(alloc: Global, text: &mut String, domains: u32) -> Result<(), Fail> {
    for i in 0..domains {
        let next = if i == domains - 1 { 0 } else { i + 1 };
        let line = format!(in alloc; "start d{i} Main h{i} h{next}\n")?;
        text.push_str(line.as_str())?;
    }
    Ok(())
}

/// The same with the start of its client.
fn add_clients(alloc: Global, text: &mut String, measures: Measures) -> Result<(), Fail> {
    let (domains, nodes, hops, _) = measures;
    for i in 0..domains {
        let line = format!(in alloc; "start d{i} Go {nodes} {hops}\n")?;
        text.push_str(line.as_str())?;
    }
    Ok(())
}

/// The text of a script of these measures.
fn script_of(alloc: Global, measures: Measures) -> Result<String, Fail> {
    let base = "domain base heap 64 stack 2 caps 0 threads 1 names 0\n";
    let mut text = String::from_str(alloc, base)?;
    add_domains(alloc, &mut text, measures.0)?;
    add_servers(alloc, &mut text, measures.0)?;
    text.push_str("round 1 1000\n")?;
    add_clients(alloc, &mut text, measures)?;
    let line = format!(in alloc; "round 1000000 {}\n", measures.3)?;
    text.push_str(line.as_str())?;
    Ok(text)
}

/// Whether two events are the same as text.
fn are_same(alloc: Global, a: &Event, b: &Event) -> Result<bool, Fail> {
    let (a, b) = (told(alloc, a)?, told(alloc, b)?);
    Ok(a.as_str() == b.as_str())
}

/// Whether the events of a seed's demo are those of the script of these measures.
fn has_measures(alloc: Global, seed: u32, measures: Measures) -> Result<bool, Fail> {
    let text = script_of(alloc, measures)?;
    let wanted = read_script(alloc, text.as_bytes())?;
    let found = demo_events(alloc, seed)?;
    for (event, of_script) in found.as_slice().iter().zip(wanted.as_slice()) {
        if !are_same(alloc, event, of_script)? {
            return Ok(false);
        }
    }
    Ok(found.len() == wanted.len())
}

#[test]
fn events_are_those_of_a_script(rt: HostRuntime) -> Result<(), Fail> {
    for (seed, measures) in SEEDS {
        assert!(rt; has_measures(rt.alloc(), *seed, *measures)?, "of {seed}");
    }
    Ok(())
}

/// Folders of the smallest ring, each with its entries, and whether these are folders.
const FOLDERS: &[(&str, bool, &[&str])] = &[
    ("demo", true, &["base", "d0", "d1"]),
    (
        "demo/base",
        false,
        &["Hop.class", "Node.class", "resolver.txt"],
    ),
    (
        "demo/d1",
        false,
        &["Main.class", "Impl.class", "Go.class", "resolver.txt"],
    ),
];

/// Files of it.
const FILES: &[(&str, &[u8])] = &[
    ("demo/base/resolver.txt", b"share Hop\nshare Node\n"),
    ("demo/d1/resolver.txt", b"import base Hop\n"),
    ("demo/d1/Go.class", GO_CLASS),
];

/// Whether a folder has these entries, all of which are folders or none.
fn lists<F: Files>(
    files: &mut F,
    folder: &str,
    are_folders: bool,
    names: &[&str],
) -> Result<bool, Fail> {
    let entries = files.list(folder, 10)?;
    let are_same = entries.as_slice().iter().zip(names).all(|(entry, name)| {
        entry.name.as_slice() == name.as_bytes() && entry.folder == are_folders
    });
    Ok(are_same && entries.len() == names.len())
}

fn reads<F: Files>(files: &mut F, path: &str, bytes: &[u8]) -> Result<bool, Fail> {
    let found = files.read(path, 1000)?;
    Ok(found.as_slice() == bytes)
}

/// How many folders the ring of a seed has.
fn count_of_folders(alloc: Global, seed: u32) -> Result<usize, Fail> {
    let mut files = demo_files(alloc, seed)?;
    Ok(files.list("demo", 10)?.len())
}

#[test]
fn folders_of_the_smallest_ring(rt: HostRuntime) -> Result<(), Fail> {
    let mut files = demo_files(rt.alloc(), 0)?;
    for (folder, are_folders, names) in FOLDERS {
        assert!(rt; lists(&mut files, folder, *are_folders, names)?, "{folder}");
    }
    for (path, bytes) in FILES {
        assert!(rt; reads(&mut files, path, bytes)?, "{path}");
    }
    assert!(rt; count_of_folders(rt.alloc(), 6)? == 9);
    Ok(())
}
