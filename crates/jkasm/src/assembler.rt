//! Assembles a whole text: its lines are read, taken one by one, and written as a class file.

ghost use Rattle.std.specs.Prelude.{◌≡◌, ◌+◌, ◌<◌, ◌^◌, ◌⊎◌, ℕ, List, length, IfOk, OnOk, MatchResult, Err};
ghost use Rattle.std.specs.List.{AllByRecursion};
ghost use Rattle.asm_reader.specs.Readings.{AreReadings};
ghost use Rattle.asm_reader.specs.Words.{text_lines};
ghost use Rattle.jkasm.specs.Assembled.{IsAssembled};
ghost use Rattle.jkasm.specs.GoodLines.{IsFirstFaulty, IsRefusedAt};
ghost use Rattle.jkasm.specs.WholeText.{IsSoundReading, IsBuiltSoFar, error_at};

use crate::class_builder::ClassBuilder;
use crate::code_writer::LineStop;
use asm_reader::{LineReading, read_lines};
use class_writer::write_class;
use jk_model::{Bytes, OutOfMemory};
use std::alloc::Global;
use thiserror::Error;

/// Why a text was not assembled.
#[derive(Clone, Copy, Debug, PartialEq, Eq, Error)]
pub enum AsmError {
    /// The first line at fault, counted from 1. A text that ends too early is at fault at the line after its last.
    #[error("the line {0} is at fault")]
    Line(u32),
    /// No memory was left. It says nothing of the text.
    #[error("out of memory")]
    OutOfMemory,
}

impl From<OutOfMemory> for AsmError {
    ghost use Rattle.std.specs.Prelude.{◌≡◌};
    ghost use Rattle.jkasm.specs.declared.assembler.AsmError.TheVariants as Error;

    ghost from_gives = { λ _ e. e ≡ Error.OutOfMemory };

    fn from(_e: OutOfMemory) -> AsmError {
        AsmError::OutOfMemory
    }
}

/// The error where this line, counted from 1, was not taken.
fn error_at(stop: LineStop, line: u32) -> AsmError
    ensures { result ≡ error_at stop line }
{
    match stop {
        LineStop::AtFault => AsmError::Line(line),
        LineStop::OutOfMemory => AsmError::OutOfMemory,
    }
}

/// Takes the line at a place, counted from 0, into the class of those before it.
fn take_line(
    builder: &mut ClassBuilder,
    alloc: Global,
    readings: &[LineReading],
    i: usize,
) -> Result<(), LineStop>
    requires place { i < length readings.now }
    requires sound { AllByRecursion IsSoundReading readings.now }
    requires so_far { IsBuiltSoFar readings.now i builder.old }
    ensures taken { OnOk result (IsBuiltSoFar readings.now (i + 1) builder.new) }
    ensures fault { result ≡ Err LineStop.AtFault → IsFirstFaulty readings.now (i + 1) }
{
    match &readings[i] {
        LineReading::Empty => Ok(()),
        LineReading::Short(item) => {
            builder.add(alloc, item, &readings[i + 1..])?;
            builder.constants_fit();
            Ok(())
        }
        _ => Err(LineStop::AtFault),
    }
}

/// The class of lines, if none of them is at fault by itself.
fn build(alloc: Global, readings: &[LineReading]) -> Result<ClassBuilder, AsmError>
    requires few { length readings.now < 2 ^ 25 }
    requires sound { AllByRecursion IsSoundReading readings.now }
    ensures built { IfOk result (λ b. IsBuiltSoFar readings.now (length readings.now) b) }
    ensures line { (n : ℕ) → result ≡ Err (AsmError.Line n) → IsFirstFaulty readings.now n }
{
    let mut builder = ClassBuilder::new(alloc)?;
    for i in 0..readings.len() {
        if let Err(stop) = take_line(&mut builder, alloc, readings, i) {
            return Err(error_at(stop, i as u32 + 1));
        }
    }
    Ok(builder)
}

/// The class file of lines.
fn assemble_lines(alloc: Global, readings: &[LineReading]) -> Result<Bytes, AsmError>
    requires few { length readings.now < 2 ^ 25 }
    requires sound { AllByRecursion IsSoundReading readings.now }
    ensures assembled { (text : List ℕ) → AreReadings (text_lines text) readings.now → IfOk result (λ bytes. IsAssembled text bytes) }
    ensures line { (n : ℕ) → result ≡ Err (AsmError.Line n) → IsFirstFaulty readings.now n }
{
    let builder = build(alloc, readings)?;
    let Some(class) = builder.into_class(alloc) else {
        return Err(AsmError::Line(readings.len() as u32 + 1));
    };
    Ok(write_class(alloc, &class)?)
}

/// The class file that a text says, of version 48.0, in time linear in the text and a logarithm more.
/// `docs/FORMATS.md` has the grammar.
pub fn assemble(alloc: Global, text: &[u8]) -> Result<Bytes, AsmError>
    requires { length text.now < 2 ^ 24 }
    ensures assembled { IfOk result (λ bytes. IsAssembled text.now bytes) }
    ensures line { (n : ℕ) → result ≡ Err (AsmError.Line n) → IsRefusedAt text.now n }
    ensures only_line { (n : ℕ) → IsRefusedAt text.now n
        → MatchResult result (λ _. ⊥) (λ e. (e ≡ AsmError.Line n) ⊎ (e ≡ AsmError.OutOfMemory)) }
{
    let readings = read_lines(alloc, text)?;
    assemble_lines(alloc, readings.as_slice())
}
