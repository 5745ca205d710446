//! The body of a Code attribute.

ghost use Rattle.std.specs.Prelude.{◌≡◌, ℕ, ◌<◌, ◌^◌, length, IfOk, MatchResult, Err};
ghost use Rattle.jk_model.specs.ClassFile.{CodeLayout, IsCutCode, TrailsCode, HasBadCodeLength};
ghost use Rattle.byte_fields.specs.Reading.{Gives, GivesInMemory};
ghost use Rattle.class_reader.specs.Reading.{front_at, tables_at};
ghost use Rattle.const_pool.specs.Reading.{seen};
ghost use Rattle.class_reader.specs.Answers.{IsCodeAnswer, IsCodeFront, IsRefused};

use crate::sections::{AttributeField, HandlerField};
use byte_fields::{EndsEarly, ReadError, bytes_of, counted_of, pair_of, u4_of};
use jk_model::{Attribute, Bytes, Code, Handler, List};
use std::alloc::Global;
use thiserror::Error;

/// Why bytes were not read as the body of a Code attribute.
#[derive(Clone, Copy, Debug, PartialEq, Eq, Error)]
pub enum CodeRefusal {
    /// The body ends early.
    #[error("the body ends early")]
    Cut,
    /// Bytes follow it, from this place on.
    #[error("bytes follow from {0} on")]
    Trailing(u32),
    /// The code is empty, or longer than 65,535 bytes: this is its length.
    #[error("the code has {0} bytes")]
    CodeLength(u32),
    #[error("out of memory")]
    OutOfMemory,
}

/// max_stack and max_locals, and the length of the code.
#[tactic(auto, unfolding(crate::specs::Reading::front_at))]
fn front_of(body: &[u8]) -> Result<(((u16, u16), u32), &[u8]), EndsEarly>
    ensures { Gives (λ x. (x.0, x.1.now)) result (front_at body.now) }
{
    let (limits, rest) = pair_of(body)?;
    let (len, rest) = u4_of(rest)?;
    Ok(((limits, len), rest))
}

/// The code, its handlers and its attributes.
#[derive(Drop)]
struct Tables {
    code: Bytes,
    handlers: List<Handler>,
    attributes: List<Attribute>,
}

#[tactic(auto, unfolding(crate::specs::Reading::tables_at))]
fn tables_of(alloc: Global, len: u32, bytes: &[u8]) -> Result<(Tables, &[u8]), ReadError>
    ensures { GivesInMemory (λ x. ((x.0.code, (x.0.handlers, x.0.attributes)), x.1.now))
        result (tables_at len bytes.now) }
{
    let (code, rest) = bytes_of(len as usize, bytes)?;
    let code = Bytes::from_slice(alloc, code)?;
    let (handlers, rest) = counted_of::<HandlerField>(alloc, rest)?;
    let (attributes, rest) = counted_of::<AttributeField>(alloc, rest)?;
    let tables = Tables {
        code,
        handlers,
        attributes,
    };
    Ok((tables, rest))
}

/// The body in front, and the bytes after it. The length of the code is tested as it is read.
fn code_in_front(alloc: Global, body: &[u8]) -> Result<(Code, &[u8]), CodeRefusal>
    requires { length body.now < 2 ^ 31 }
    ensures { IsCodeFront body.now (seen (λ x. (x.0, x.1.now)) result) }
{
    let Ok((((max_stack, max_locals), len), rest)) = front_of(body) else {
        return Err(CodeRefusal::Cut);
    };
    if !(0 < len && len < 65536) {
        return Err(CodeRefusal::CodeLength(len));
    }
    let (tables, rest) = match tables_of(alloc, len, rest) {
        Ok(read) => read,
        Err(ReadError::EndsEarly) => return Err(CodeRefusal::Cut),
        Err(ReadError::OutOfMemory) => return Err(CodeRefusal::OutOfMemory),
    };
    let code = Code {
        max_stack,
        max_locals,
        code: tables.code,
        handlers: tables.handlers,
        attributes: tables.attributes,
    };
    Ok((code, rest))
}

/// What `read_code` answers, as one relation.
fn answered(alloc: Global, body: &[u8]) -> Result<Code, CodeRefusal>
    requires { length body.now < 2 ^ 31 }
    ensures { IsCodeAnswer body.now result }
{
    let (code, rest) = code_in_front(alloc, body)?;
    if !rest.is_empty() {
        return Err(CodeRefusal::Trailing((body.len() - rest.len()) as u32));
    }
    Ok(code)
}

/// What the body of a Code attribute says.
pub fn read_code(alloc: Global, body: &[u8]) -> Result<Code, CodeRefusal>
    requires { length body.now < 2 ^ 31 }
    ensures found { IfOk result (λ c. CodeLayout body.now c) }
    ensures only { (c : Code) → CodeLayout body.now c
        → MatchResult result (λ d. d ≡ c) (λ e. e ≡ CodeRefusal.OutOfMemory) }

    ensures cut { result ≡ Err CodeRefusal.Cut → IsCutCode body.now }
    ensures only_cut { IsCutCode body.now
        → IsRefused result CodeRefusal.Cut CodeRefusal.OutOfMemory }

    ensures trailing { (n : ℕ) → result ≡ Err (CodeRefusal.Trailing n) → TrailsCode body.now n }
    ensures only_trailing { (n : ℕ) → TrailsCode body.now n
        → IsRefused result (CodeRefusal.Trailing n) CodeRefusal.OutOfMemory }

    ensures code_length { (n : ℕ) → result ≡ Err (CodeRefusal.CodeLength n)
        → HasBadCodeLength body.now n }
    ensures only_code_length { (n : ℕ) → HasBadCodeLength body.now n
        → IsRefused result (CodeRefusal.CodeLength n) CodeRefusal.OutOfMemory }
{
    answered(alloc, body)
}
