//! The reader of `resolver.txt`.

ghost use Rattle.std.specs.Prelude.{◌≡◌, ◌+◌, ◌^◌, ◌<◌, ◌⊎◌, ◌∷◌, ℕ, List, length, IfOk, MatchBool, MatchResult, Ok, Err};
ghost use Rattle.jk_model_classes.specs.Resolver.{lines_say, resolver_of};
ghost use Rattle.domain_resolver.specs.Answers.{onto, IsAnswer};

use crate::line::{LineReading, read_line};
use jk_model::{List, OutOfMemory};
use jk_model_classes::ResolverLine;
use std::alloc::Global;
use text_lines::next_line;
use thiserror::Error;

/// Why a `resolver.txt` can't be read.
#[derive(Clone, Copy, Debug, PartialEq, Eq, Error)]
pub enum ResolverError {
    /// The first line outside the grammar, counted from 1.
    #[error("line {0} is outside the grammar")]
    BadResolver(u32),
    /// No memory was left. It says nothing of the bytes.
    #[error("out of memory")]
    OutOfMemory,
}

impl From<OutOfMemory> for ResolverError {
    ghost use Rattle.std.specs.Prelude.{◌≡◌};
    ghost use Rattle.domain_resolver.specs.declared.resolver.ResolverError.TheVariants as Error;

    ghost from_gives = { λ _ e. e ≡ Error.OutOfMemory };

    fn from(_e: OutOfMemory) -> ResolverError {
        ResolverError::OutOfMemory
    }
}

/// Takes in what the next line says, which has this number. False where it is outside the grammar.
fn take_line(
    alloc: Global,
    lines: &mut List<ResolverLine>,
    number: u32,
    line: &[u8],
) -> Result<bool, OutOfMemory>
    ensures { IfOk result (λ good. (more : List (List ℕ)) → MatchBool good
        (onto lines.old (lines_say number (line.now ∷ more)) ≡ onto lines.new (lines_say (number + 1) more))
        (lines_say number (line.now ∷ more) ≡ Err number)) }
{
    match read_line(alloc, line)? {
        LineReading::Nothing => Ok(true),
        LineReading::Says(says) => {
            let line = number;
            lines.push(ResolverLine { line, says })?;
            Ok(true)
        }
        LineReading::Outside => Ok(false),
    }
}

/// What the lines say, or the first that is outside the grammar.
fn read(alloc: Global, bytes: &[u8]) -> Result<List<ResolverLine>, ResolverError>
    requires { length bytes.now < 2 ^ 31 }
    ensures { IsAnswer bytes.now result }
{
    let mut lines = List::new(alloc);
    let mut rest = bytes;
    let mut number = 1;
    while let Some((line, after)) = next_line(rest) {
        if !take_line(alloc, &mut lines, number, line)? {
            return Err(ResolverError::BadResolver(number));
        }
        number += 1;
        rest = after;
    }
    Ok(lines)
}

/// What the lines of a `resolver.txt` say, in their order. `docs/RULES.md` has the grammar. It takes time and
/// memory in proportion to the bytes.
pub fn read_resolver(alloc: Global, bytes: &[u8]) -> Result<List<ResolverLine>, ResolverError>
    requires { length bytes.now < 2 ^ 31 }
    ensures read { IfOk result (λ lines. resolver_of bytes.now ≡ Ok lines) }
    // What is inside the grammar is read, unless memory runs out.
    ensures only { (lines : List ResolverLine) → resolver_of bytes.now ≡ Ok lines
        → MatchResult result (λ found. found ≡ lines) (λ e. e ≡ ResolverError.OutOfMemory) }

    ensures bad { (n : ℕ) → result ≡ Err (ResolverError.BadResolver n) → resolver_of bytes.now ≡ Err n }
    // What is outside is refused so, unless memory runs out.
    ensures only_bad { (n : ℕ) → resolver_of bytes.now ≡ Err n
        → MatchResult result (λ _. ⊥) (λ e. (e ≡ ResolverError.BadResolver n) ⊎ (e ≡ ResolverError.OutOfMemory)) }
{
    read(alloc, bytes)
}
