//! Words of a command line, with what they call for.

use command_words::{Call, CallError, call_of};
use std::alloc::Global;
use std::test::Fail;

/// Words between spaces, and what they call for.
const LINES: &str = "\
root script -> script root script\n\
. ./a/b -> script . ./a/b\n\
- b -> script - b\n\
-- root script -> script root script\n\
root -- script -> script root script\n\
root script -- -> script root script\n\
-- --demo -h -> script --demo -h\n\
root demo -> script root demo\n\
--demo 0 -> demo 0\n\
--demo 10 -> demo 10\n\
--demo=7 -> demo 7\n\
--demo 999999999 -> demo 999999999\n\
--demo 5 -- -> demo 5\n\
-> usage\n\
root -> usage\n\
a b c -> usage\n\
-- -> usage\n\
-- a b c -> usage\n\
--demo -> usage\n\
--demo= -> usage\n\
--demo 00 -> usage\n\
--demo 07 -> usage\n\
--demo +1 -> usage\n\
--demo -1 -> usage\n\
--demo x -> usage\n\
--demo 1000000000 -> usage\n\
--demo 4294967296 -> usage\n\
--demo 5 root -> usage\n\
--demo 5 root script -> usage\n\
root --demo 5 script -> usage\n\
--demo 5 --demo 5 -> usage\n\
--dem 5 -> usage\n\
-d 5 -> usage\n\
--pool 100000 root script -> usage\n\
--pool=100000 root script -> usage\n\
root script --pool 100000 -> usage\n\
-x script -> usage\n\
root -x -> usage\n\
--help -> usage\n\
-h -> usage\n\
help -> usage\n\
--version -> usage\n\
-V -> usage";

/// What words between spaces call for.
fn called(alloc: Global, line: &str) -> Result<String, Fail> {
    let mut words = Vec::new(alloc);
    for word in line.split_whitespace() {
        words.push(String::from_str(alloc, word)?)?;
    }
    match call_of(alloc, words.as_slice()) {
        Ok(Call::Script { root, script }) => Ok(format!(in alloc; "script {root} {script}")?),
        Ok(Call::Demo { seed }) => Ok(format!(in alloc; "demo {seed}")?),
        Err(CallError::Usage) => Ok(String::from_str(alloc, "usage")?),
        Err(CallError::OutOfMemory) => Err("out of memory".into()),
    }
}

#[test]
fn command_lines(rt: HostRuntime) -> Result<(), Fail> {
    for row in LINES.lines() {
        let (line, wanted) = row.split_once("-> ").ok_or("a row")?;
        let found = called(rt.alloc(), line)?;
        assert!(rt; found.as_str() == wanted, "{line:?}: {found}");
    }
    Ok(())
}
