//! What the crates answer to a question of a table, as text.

ghost use Rattle.std.specs.Prelude.{◌≡◌, ◌<◌, ◌^◌, length, vec_len, IfOk};

use asm_reader::read_lines;
use class_reader::{read_class, read_code};
use class_writer::{is_writable, write_class};
use const_pool::read_pool;
use descriptors::{field_type, method_type, slots};
use jk_model::{ClassFile, Instr, OutOfMemory};
use jk_opcodes::decode;
use jkasm::assemble;
use std::alloc::Global;
use std::test::Fail;
use unit_text::{bad_encoding, units_of};

/// Each instruction of a code: its place, its opcode, its operands and its cases.
fn listing(alloc: Global, instrs: &[Instr]) -> Result<String, Fail> {
    let mut text = String::new(alloc);
    for instr in instrs {
        let own = format!(in alloc; " {}:{:02x},{},{}", instr.at, instr.op, instr.a, instr.b)?;
        text.push_str(own.as_str())?;
        for case in instr.cases.as_slice() {
            let own = format!(in alloc; "+{}={}", case.key, case.target)?;
            text.push_str(own.as_str())?;
        }
    }
    Ok(text)
}

pub fn code(alloc: Global, bytes: &[u8]) -> Result<String, Fail>
    requires { length bytes.now < 2 ^ 16 }
{
    match decode(alloc, bytes) {
        Ok(instrs) => listing(alloc, instrs.as_slice()),
        Err(error) => Ok(format!(in alloc; "{error:?}")?),
    }
}

pub fn pool(alloc: Global, bytes: &[u8]) -> Result<String, Fail>
    requires { length bytes.now < 2 ^ 16 }
{
    match read_pool(alloc, bytes, 0) {
        Ok(pool) => Ok(format!(in alloc; "{} {:?}", pool.end, pool.entries.as_slice())?),
        Err(error) => Ok(format!(in alloc; "{error:?}")?),
    }
}

pub fn class(alloc: Global, bytes: &[u8]) -> Result<String, Fail>
    requires { length bytes.now < 2 ^ 16 }
{
    Ok(format!(in alloc; "{:?}", read_class(alloc, bytes))?)
}

/// The bytes of a class file, written again.
pub fn class_again(alloc: Global, bytes: &[u8]) -> Result<String, Fail>
    requires { length bytes.now < 2 ^ 16 }
{
    let class = read_class(alloc, bytes)?;
    if !is_writable(&class) {
        return Err("not writable".into());
    }
    Ok(hex::encode(alloc, write_class(alloc, &class)?.as_slice())?)
}

pub fn body(alloc: Global, bytes: &[u8]) -> Result<String, Fail>
    requires { length bytes.now < 2 ^ 16 }
{
    Ok(format!(in alloc; "{:?}", read_code(alloc, bytes))?)
}

pub fn text(alloc: Global, bytes: &[u8]) -> Result<String, Fail>
    requires { length bytes.now < 2 ^ 16 }
{
    Ok(format!(in alloc; "{:?} {:?}", units_of(alloc, bytes), bad_encoding(bytes))?)
}

/// The units of a text in ASCII.
fn ascii(alloc: Global, text: &str) -> Result<Vec<u16>, OutOfMemory>
    ensures { IfOk result (λ units. vec_len units ≡ length text.now) }
{
    let units = text
        .as_bytes()
        .iter()
        .map(|byte| u16::from(*byte))
        .collect(alloc)?;
    Ok(units)
}

pub fn field(alloc: Global, text: &str) -> Result<String, Fail>
    requires { length text.now < 2 ^ 16 }
{
    let units = ascii(alloc, text)?;
    Ok(format!(in alloc; "{:?}", field_type(alloc, units.as_slice()))?)
}

pub fn method(alloc: Global, text: &str) -> Result<String, Fail>
    requires { length text.now < 2 ^ 16 }
{
    let units = ascii(alloc, text)?;
    match method_type(alloc, units.as_slice()) {
        Ok(m) if m.params.len() < 1000 => {
            Ok(format!(in alloc; "{} {} {m:?}", slots(&m, false), slots(&m, true))?)
        }
        Ok(_) => Err("too many parameters".into()),
        Err(error) => Ok(format!(in alloc; "{error:?}")?),
    }
}

pub fn assembled(alloc: Global, text: &str) -> Result<String, Fail>
    requires { length text.now < 2 ^ 16 }
{
    match assemble(alloc, text.as_bytes()) {
        Ok(_) => Ok(String::from_str(alloc, "good")?),
        Err(error) => Ok(format!(in alloc; "{error:?}")?),
    }
}

pub fn lines(alloc: Global, text: &str) -> Result<String, Fail> {
    let readings = read_lines(alloc, text.as_bytes())?;
    Ok(format!(in alloc; "{:?}", readings.as_slice())?)
}

/// The bytes of the first method's Code.
fn code_of(alloc: Global, class: &ClassFile) -> Result<String, Fail> {
    let method = class.methods.get(0).ok_or("a method")?;
    let attribute = method.attributes.get(0).ok_or("a Code")?;
    let body = attribute.body.as_slice();
    if body.len() >= 1000 {
        return Err("a short body".into());
    }
    let code = read_code(alloc, body)?;
    Ok(hex::encode(alloc, code.code.as_slice())?)
}

/// The bytes of a method's code, whose lines are these.
pub fn instructions(alloc: Global, lines: &str) -> Result<String, Fail> {
    let text = format!(in alloc; "class 0 A B\nmethod 1 m ()V 3 4 X\n{lines}\nend")?;
    if text.len() >= 1000 {
        return Err("a short text".into());
    }
    let bytes = assemble(alloc, text.as_bytes())?;
    if bytes.len() >= 1000 {
        return Err("a short class file".into());
    }
    let class = read_class(alloc, bytes.as_slice())?;
    code_of(alloc, &class)
}
