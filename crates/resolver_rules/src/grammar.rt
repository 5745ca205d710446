//! L6: lines outside the grammar, and shares of classes that the folder has no file of.

ghost use Rattle.std.specs.Prelude.{◌≡◌, ◌<◌, ◌↔◌, ◌^◌, ℕ, length, IfErr, IfOk, IsTrue, Ok};
ghost use Rattle.jk_model_classes.specs.Resolver.{Says, line_reading, resolver_of};
ghost use Rattle.jk_model_classes.specs.ResolverRules.{BreaksL6, IsBadReading};
ghost use Rattle.jk_model_folders.specs.FolderRules.{class_paths};
ghost use Rattle.resolver_rules.specs.Faults.{IsGrammarFault};
ghost use Rattle.resolver_rules.specs.Lines.{IsLeastBadLine, IsOneLine};

use crate::folder::Folder;
use crate::outer::ResolverFault;
use domain_resolver::{ResolverError, read_resolver};
use jk_model::{List, OutOfMemory};
use jk_model_classes::{ResolverLine, ResolverWord};
use std::alloc::Global;
use text_lines::next_line;

/// The units of a class's name, of which a line has the bytes. These are in ASCII.
pub(crate) fn name_units(alloc: Global, bytes: &[u8]) -> Result<Vec<u16>, OutOfMemory>
    ensures { IfOk result (λ units. units.items ≡ bytes.now) }
{
    let mut units = Vec::new(alloc);
    for byte in bytes {
        units.push(u16::from(*byte))?;
    }
    Ok(units)
}

/// Whether what a line says is a share of a class that the folder has no file of.
fn is_share_of_none(
    alloc: Global,
    folder: &Folder,
    says: &ResolverWord,
) -> Result<bool, OutOfMemory>
    ensures { IfOk result (λ bad. IsTrue bad ↔ IsBadReading (class_paths folder.now) (Says says.now)) }
{
    match says {
        ResolverWord::Share { class, .. } => {
            let name = name_units(alloc, class.as_slice())?;
            Ok(!folder.has_class(name.as_slice()))
        }
        ResolverWord::Import { .. } => Ok(false),
    }
}

/// Whether a line breaks L6.
fn is_bad_line(alloc: Global, folder: &Folder, line: &[u8]) -> Result<bool, OutOfMemory>
    requires one { IsOneLine line.now }
    requires short { length line.now < 2 ^ 31 }
    ensures { IfOk result (λ bad. IsTrue bad ↔ IsBadReading (class_paths folder.now) (line_reading line.now)) }
{
    match read_resolver(alloc, line) {
        Ok(said) => match said.get(0) {
            Some(line) => is_share_of_none(alloc, folder, &line.says),
            None => Ok(false),
        },
        Err(ResolverError::BadResolver(_)) => Ok(true),
        Err(ResolverError::OutOfMemory) => Err(OutOfMemory),
    }
}

/// The first line that breaks L6.
fn first_bad_line(alloc: Global, folder: &Folder) -> Result<Option<u32>, OutOfMemory>
    ensures { IfOk result (λ found. IsLeastBadLine (class_paths folder.now) folder.now.resolver found) }
{
    let mut rest = folder.resolver();
    let mut number = 1;
    while let Some((line, after)) = next_line(rest) {
        if is_bad_line(alloc, folder, line)? {
            return Ok(Some(number));
        }
        number += 1;
        rest = after;
    }
    Ok(None)
}

/// What the lines say, which keep L6. The text is read twice: the first line outside the grammar doesn't tell
/// which shares stand before it.
pub(crate) fn good_lines(
    alloc: Global,
    folder: &Folder,
) -> Result<List<ResolverLine>, ResolverFault>
    ensures says { IfOk result (λ lines. resolver_of folder.now.resolver ≡ Ok lines) }
    ensures shares { IfOk result (λ _. (n : ℕ) → BreaksL6 (class_paths folder.now) folder.now.resolver n → ⊥) }
    ensures fault { IfErr result (IsGrammarFault folder.now) }
{
    if let Some(line) = first_bad_line(alloc, folder)? {
        return Err(ResolverFault::BadLine(line));
    }
    match read_resolver(alloc, folder.resolver()) {
        Ok(lines) => Ok(lines),
        Err(ResolverError::BadResolver(_)) => unreachable!(),
        Err(ResolverError::OutOfMemory) => Err(ResolverFault::OutOfMemory),
    }
}
