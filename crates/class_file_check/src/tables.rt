//! Each table is gone through, and each of its questions is asked.

use crate::{answers, byte_rows, text_rows};
use jkasm::{AsmError, assemble};
use std::alloc::Global;
use std::process::Abort;
use std::test::Fail;

/// What is asked of bytes.
#[derive(Clone, Copy)]
enum OfBytes {
    Code,
    Pool,
    Class,
    ClassAgain,
    Body,
    Text,
}

/// The answer to bytes, which stand as hexadecimal digits.
fn answer_to_bytes(alloc: Global, asked: OfBytes, digits: &str) -> Result<String, Fail> {
    let bytes = hex::decode(alloc, digits.as_bytes())?;
    let bytes = bytes.as_slice();
    if bytes.len() >= 1000 {
        return Err("a short question".into());
    }
    match asked {
        OfBytes::Code => answers::code(alloc, bytes),
        OfBytes::Pool => answers::pool(alloc, bytes),
        OfBytes::Class => answers::class(alloc, bytes),
        OfBytes::ClassAgain => answers::class_again(alloc, bytes),
        OfBytes::Body => answers::body(alloc, bytes),
        OfBytes::Text => answers::text(alloc, bytes),
    }
}

/// Asks each question of a table of bytes.
fn ask_bytes(rt: &impl Abort, alloc: Global, asked: OfBytes, table: &str) -> Result<(), Fail> {
    for row in table.lines() {
        let (questions, wanted) = row.split_once(" -> ").ok_or("a row")?;
        for question in questions.split_whitespace() {
            let answer = answer_to_bytes(alloc, asked, question)?;
            assert_eq!(rt; answer.as_str().trim(), wanted, "of {question}");
        }
    }
    Ok(())
}

#[test]
fn bytes(rt: HostRuntime) -> Result<(), Fail> {
    for (asked, table) in [
        (OfBytes::Code, byte_rows::CODES),
        (OfBytes::Code, byte_rows::FAULTY_CODES),
        (OfBytes::Pool, byte_rows::POOLS),
        (OfBytes::Class, byte_rows::CLASSES),
        (OfBytes::ClassAgain, byte_rows::CLASSES_AGAIN),
        (OfBytes::Body, byte_rows::BODIES),
        (OfBytes::Text, byte_rows::TEXTS),
    ] {
        ask_bytes(&rt, rt.alloc(), asked, table)?;
    }
    Ok(())
}

/// What is asked of a text.
#[derive(Clone, Copy)]
enum OfText {
    Field,
    Method,
    Assembled,
    Lines,
    Instructions,
}

/// The text whose lines end where `|` stands.
fn with_lines(alloc: Global, question: &str) -> Result<String, Fail> {
    let mut text = String::new(alloc);
    for letter in question.chars() {
        text.push(if letter == '|' { '\n' } else { letter })?;
    }
    Ok(text)
}

/// The answer to a text.
fn answer_to_text(alloc: Global, asked: OfText, question: &str) -> Result<String, Fail> {
    let text = with_lines(alloc, question)?;
    let text = text.as_str();
    if text.len() >= 1000 {
        return Err("a short question".into());
    }
    match asked {
        OfText::Field => answers::field(alloc, text),
        OfText::Method => answers::method(alloc, text),
        OfText::Assembled => answers::assembled(alloc, text),
        OfText::Lines => answers::lines(alloc, text),
        OfText::Instructions => answers::instructions(alloc, text),
    }
}

/// Asks each question of a table of texts. Behind two dots an answer may go on.
fn ask_texts(rt: &impl Abort, alloc: Global, asked: OfText, table: &str) -> Result<(), Fail> {
    for row in table.lines() {
        let (question, wanted) = row.split_once(" -> ").ok_or("a row")?;
        let answer = answer_to_text(alloc, asked, question)?;
        match wanted.strip_suffix("..") {
            Some(front) => assert!(rt; answer.as_str().starts_with(front), "of {question}"),
            None => assert_eq!(rt; answer.as_str(), wanted, "of {question}"),
        }
    }
    Ok(())
}

#[test]
fn texts(rt: HostRuntime) -> Result<(), Fail> {
    for (asked, table) in [
        (OfText::Field, text_rows::FIELDS),
        (OfText::Method, text_rows::METHODS),
        (OfText::Assembled, text_rows::ASSEMBLED),
        (OfText::Lines, text_rows::LINES),
        (OfText::Instructions, text_rows::INSTRUCTIONS),
    ] {
        ask_texts(&rt, rt.alloc(), asked, table)?;
    }
    Ok(())
}

/// The line that is at fault where a line stands so many times between others, or 0 where none is.
fn fault_of_many(
    alloc: Global,
    before: &str,
    line: &str,
    count: u16,
    after: &str,
) -> Result<u32, Fail> {
    let mut text = String::from_str(alloc, before)?;
    for _ in 0..count {
        text.push_str(line)?;
    }
    text.push_str(after)?;
    if text.len() > 1 << 20 {
        return Err("a shorter text".into());
    }
    match assemble(alloc, text.as_bytes()) {
        Ok(_) => Ok(0),
        Err(AsmError::Line(line)) => Ok(line),
        Err(AsmError::OutOfMemory) => Err("out of memory".into()),
    }
}

/// Jumps as far as they go, codes as long as they may be, and words; and each time one more.
#[test]
fn limits_of_texts(rt: HostRuntime) -> Result<(), Fail> {
    let method = "class 0 A B\nmethod 0 m ()V 0 0\n";
    for (first, line, count, last, fault) in [
        ("a: nop\n", "nop\n", 32_767, "goto a\nend", 0),
        ("a: nop\n", "nop\n", 32_768, "goto a\nend", 32_772),
        ("goto b\n", "nop\n", 32_764, "b: nop\nend", 0),
        ("goto b\n", "nop\n", 32_765, "b: nop\nend", 3),
        ("", "nop\n", 65_533, "newarray 10\nend", 0),
        ("", "nop\n", 65_533, "iload 256\nend", 65_536),
        ("new ", "/", 65_535, "\nend", 0),
        ("new /", "/", 65_535, "\nend", 3),
    ] {
        let before = format!(in rt.alloc(); "{method}{first}")?;
        let found = fault_of_many(rt.alloc(), before.as_str(), line, count, last)?;
        assert_eq!(rt; found, fault, "{first} {count} {last}");
    }
    Ok(())
}
