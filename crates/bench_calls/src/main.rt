//! `bench_calls CALL SIZE`: calls of one crate on an input that is made to a size, so that `bench/run` can count
//! what they cost. With a third word all is done that comes before the call that is counted: the input is made, and
//! for `judge-` and `write-` the class file is also read, and `is_writable` asked. (`words` has no input, and always
//! makes its pool.)
#![tactic(auto)]

mod class_files;
mod inputs;
mod readers;
mod stores;

use std::alloc::Global;
use std::process::ExitCode;
use std::{env, io};

/// What the calls answer, in a number.
fn answer(alloc: Global, call: &str, size: usize, calls: bool) -> Option<usize> {
    match call {
        "text" => readers::text(alloc, size, calls),
        "field" => readers::field(alloc, size, calls),
        "method" => readers::method(alloc, size, calls),
        "loads" => readers::loads(alloc, size, calls),
        "switch" => readers::switch(alloc, size, calls),
        "pool" => readers::pool(alloc, size, calls),
        "names" => readers::names(alloc, size, calls),
        "one-page" => stores::extents(alloc, size, 1, calls),
        "two-pages" => stores::extents(alloc, size, 2, calls),
        "words" => stores::words(alloc, size),
        "numbers" => stores::numbers(alloc, size, calls),
        "assemble" => class_files::assembled(alloc, size, calls),
        _ => class_files::answer(alloc, call, u16::try_from(size).ok()?, calls),
    }
}

/// The words after the program's name.
fn words(rt: &HostRuntime) -> io::Result<Vec<String>> {
    let mut words = Vec::new(rt.alloc());
    for word in env::args(rt)?.skip(1) {
        words.push(word)?;
    }
    Ok(words)
}

/// The answer to the words, where they are a call and a size.
fn answer_of(alloc: Global, words: &[String]) -> Option<usize> {
    let [call, size, rest @ ..] = words else {
        return None;
    };
    let size = size.as_str().parse::<usize>().ok()?;
    if size > 1 << 28 {
        return None;
    }
    answer(alloc, call.as_str(), size, rest.is_empty())
}

fn main(rt: HostRuntime) -> ExitCode {
    let Ok(words) = words(&rt) else {
        return ExitCode::from(2);
    };
    let Some(number) = answer_of(rt.alloc(), words.as_slice()) else {
        return ExitCode::from(2);
    };
    match println!(rt; "{number}") {
        Ok(()) => ExitCode::from(0),
        Err(_) => ExitCode::from(3),
    }
}
