//! What is found of one class file, or of one assembler's text.

ghost use Rattle.std.specs.Prelude.{◌≡◌, ◌<◌, ◌^◌, ℕ, length, Ok};
ghost use Rattle.jk_model.specs.declared.output.Rule.{Rule};
ghost use Rattle.class_check.specs.FirstRule.{IsGoodFile, BreaksFirst, HasFileSo, of_refusal};
ghost use Rattle.jkasm.specs.GoodLines.{IsRefusedAt};

use class_reader::{ReadRefusal, read_class};
use class_rules::first_fault;
use class_writer::laws::one_spelling;
use class_writer::write_class;
use jk_model::{OutOfMemory, Rule};
use jkasm::{AsmError, assemble};
use std::alloc::Global;

/// What is found of a file.
#[derive(Clone, Copy, Debug, PartialEq, Eq)]
pub enum Finding {
    /// It is a class file that breaks none of the rules C1 to C17.
    Good,
    /// The first rule that it breaks, and the number of that.
    Broken(Rule, u32),
    /// It is an assembler's text, and this line is at fault.
    Line(u32),
    /// It is, or stands for, a class file of over 1,048,576 bytes, or it is a text of over 8,388,608. It was not judged.
    TooLong,
    /// What is written of its record is another file. No file is found so.
    Differs,
}

/// The rule that bytes break which are no class file.
fn refused(refusal: ReadRefusal) -> Result<Finding, OutOfMemory>
    ensures { result ≡ of_refusal refusal }
{
    match refusal {
        ReadRefusal::BadMagic => Ok(Finding::Broken(Rule::C1, 0)),
        ReadRefusal::BadVersion => Ok(Finding::Broken(Rule::C2, 4)),
        ReadRefusal::Truncated(len) => Ok(Finding::Broken(Rule::C3, len)),
        ReadRefusal::Trailing(place) => Ok(Finding::Broken(Rule::C4, place)),
        ReadRefusal::BadPool(index) => Ok(Finding::Broken(Rule::C5, u32::from(index))),
        ReadRefusal::OutOfMemory => Err(OutOfMemory),
    }
}

/// A longer file is not judged.
const MOST: usize = 1 << 20;

/// What is found of a file that stands under this path.
pub fn finding_of_file(alloc: Global, bytes: &[u8], path: &str) -> Result<Finding, OutOfMemory>
    ensures good { result ≡ Ok Finding.Good → IsGoodFile bytes.now path.now }
    ensures broken { (rule : Rule) (n : ℕ) → result ≡ Ok (Finding.Broken rule n) → BreaksFirst bytes.now path.now rule n }
    ensures no_line { (n : ℕ) → result ≡ Ok (Finding.Line n) → ⊥ }
    ensures same { result ≡ Ok Finding.Differs → ⊥ }
    ensures too_long { result ≡ Ok Finding.TooLong → 2 ^ 20 < length bytes.now }
{
    if bytes.len() > MOST {
        return Ok(Finding::TooLong);
    }
    first_finding(alloc, bytes, path)
}

/// The first of C1 to C17 that a file breaks. A class file is also written again, and has the same bytes.
fn first_finding(alloc: Global, bytes: &[u8], path: &str) -> Result<Finding, OutOfMemory>
    requires { length bytes.now < 2 ^ 31 }
    ensures good { result ≡ Ok Finding.Good → IsGoodFile bytes.now path.now }
    ensures broken { (rule : Rule) (n : ℕ) → result ≡ Ok (Finding.Broken rule n) → BreaksFirst bytes.now path.now rule n }
    ensures no_line { (n : ℕ) → result ≡ Ok (Finding.Line n) → ⊥ }
    ensures same { result ≡ Ok Finding.Differs → ⊥ }
    ensures no_limit { result ≡ Ok Finding.TooLong → ⊥ }
{
    let class = match read_class(alloc, bytes) {
        Ok(class) => class,
        Err(refusal) => return refused(refusal),
    };
    one_spelling();
    if write_class(alloc, &class)?.as_slice() != bytes {
        return Ok(Finding::Differs);
    }
    match first_fault(alloc, &class, path)? {
        Some(fault) => Ok(Finding::Broken(fault.rule, fault.number)),
        None => Ok(Finding::Good),
    }
}

/// The same of the class file that an assembler's text stands for, or the line of the text that is at fault.
pub fn finding_of_text(alloc: Global, text: &[u8], path: &str) -> Result<Finding, OutOfMemory>
    requires { length text.now < 2 ^ 24 }
    ensures good { result ≡ Ok Finding.Good → HasFileSo text.now (λ bytes. IsGoodFile bytes path.now) }
    ensures broken { (rule : Rule) (n : ℕ) → result ≡ Ok (Finding.Broken rule n)
        → HasFileSo text.now (λ bytes. BreaksFirst bytes path.now rule n) }
    ensures line { (n : ℕ) → result ≡ Ok (Finding.Line n) → IsRefusedAt text.now n }
    ensures same { result ≡ Ok Finding.Differs → ⊥ }
    ensures too_long { result ≡ Ok Finding.TooLong → HasFileSo text.now (λ bytes. 2 ^ 20 < length bytes) }
{
    match assemble(alloc, text) {
        Ok(bytes) => finding_of_file(alloc, bytes.as_slice(), path),
        Err(AsmError::Line(line)) => Ok(Finding::Line(line)),
        Err(AsmError::OutOfMemory) => Err(OutOfMemory),
    }
}
