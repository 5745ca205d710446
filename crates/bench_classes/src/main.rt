//! `bench_classes FAMILY SIZE`: calls on classes that are made to a size, as a hostile folder could have them, so that
//! `bench/run` can count what they cost. With a third word all is done that comes before the calls that are counted.
#![tactic(auto)]

mod above;
mod adding;
mod catches;
mod codes;
mod imports;
mod layouts;
mod lines;
mod loops;
mod members;
mod names;
mod records;
mod shares;
mod stubs;
mod typing;
mod worlds;

use std::alloc::Global;
use std::process::ExitCode;
use std::{env, io};

/// What the calls answer, in a number. Where none is made, the number says nothing.
fn answer(alloc: Global, family: &str, size: u16, calls: bool) -> Option<usize> {
    match family {
        "diamonds" => above::diamonds(alloc, size, calls),
        "diamonds-added" => above::diamonds_added(alloc, size, calls),
        "chain" => above::chain(alloc, size, calls),
        "chain-fields" => layouts::chain_fields(alloc, size, calls),
        "layouts" => layouts::children(alloc, size, calls),
        _ => member_answer(alloc, family, size, calls),
    }
}

/// The same of the families in which classes have many members.
fn member_answer(alloc: Global, family: &str, size: u16, calls: bool) -> Option<usize> {
    match family {
        "methods" => members::methods(alloc, size, calls),
        "fields" => members::fields(alloc, size, calls),
        "one-name" => adding::one_name(alloc, size, calls),
        "one-kind" => adding::one_kind(alloc, size, calls),
        "one-text" => adding::one_text(alloc, size, calls),
        _ => sharing_answer(alloc, family, size, calls),
    }
}

/// The same of those in which classes are brought in, offered and shared, or have stubs.
fn sharing_answer(alloc: Global, family: &str, size: u16, calls: bool) -> Option<usize> {
    match family {
        "imports" => imports::brought(alloc, size, calls),
        "offers" => shares::sorted(alloc, size, calls),
        "shares" => shares::judged(alloc, size, calls),
        "stubs" => stubs::stubs(alloc, size, calls),
        "targets" => stubs::targets(alloc, size, calls),
        _ => typing_answer(alloc, family, size, calls),
    }
}

/// The same of those in which methods' codes are judged.
fn typing_answer(alloc: Global, family: &str, size: u16, calls: bool) -> Option<usize> {
    match family {
        "straight" => lines::straight(alloc, size, calls),
        "many-locals" => lines::many_locals(alloc, size, calls),
        "goto-chain" => lines::goto_chain(alloc, size, calls),
        "small-methods" => lines::small_methods(alloc, size, calls),
        "handlers" => catches::handlers(alloc, size, calls),
        "nested" => catches::nested(alloc, size, calls),
        _ => loop_answer(alloc, family, size, calls),
    }
}

/// The same of those in whose codes locals rise.
fn loop_answer(alloc: Global, family: &str, size: u16, calls: bool) -> Option<usize> {
    match family {
        "rising" => loops::rising(alloc, size, calls),
        "ring" => loops::ring(alloc, size, calls),
        "ring-of-leaders" => loops::ring_of_leaders(alloc, size, calls),
        "far-joins" => loops::far_joins(alloc, size, calls),
        _ => None,
    }
}

/// The words after the program's name.
fn words(rt: &HostRuntime) -> io::Result<Vec<String>> {
    let mut words = Vec::new(rt.alloc());
    for word in env::args(rt)?.skip(1) {
        words.push(word)?;
    }
    Ok(words)
}

/// The answer to the words, where they are a family and a size.
fn answer_of(alloc: Global, words: &[String]) -> Option<usize> {
    let [family, size, rest @ ..] = words else {
        return None;
    };
    let size = size.as_str().parse::<u16>().ok()?;
    answer(alloc, family.as_str(), size, rest.is_empty())
}

fn main(rt: HostRuntime) -> ExitCode {
    let Ok(words) = words(&rt) else {
        return ExitCode::from(2);
    };
    let Some(number) = answer_of(rt.alloc(), words.as_slice()) else {
        return ExitCode::from(2);
    };
    match println!(rt; "{number}") {
        Ok(()) => ExitCode::from(0),
        Err(_) => ExitCode::from(3),
    }
}
