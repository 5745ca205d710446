//! What lines bring in, and L7 on each of them.

ghost use Rattle.std.specs.Prelude.{◌≡◌, ◌+◌, ◌<◌, ℕ, length, Contains, IfErr, IfOk, MatchBool, MatchOption, Ok};
ghost use Rattle.jk_model.specs.declared.identifiers.ClassId.{ClassId as AClassId};
ghost use Rattle.jk_model_classes.specs.Classes.{HasClass};
ghost use Rattle.jk_model_classes.specs.Resolver.{resolver_of};
ghost use Rattle.jk_model_classes.specs.ResolverRules.{BreaksL6};
ghost use Rattle.jk_model_classes.specs.Worlds.{IsWorld, NamedClass};
ghost use Rattle.jk_model_folders.specs.FolderRules.{BreaksL7, class_paths};
ghost use Rattle.domain_resolver.specs.Imports.{IsOwnName};
ghost use Rattle.resolver_rules.specs.Faults.{IsImportFault};
ghost use Rattle.resolver_rules.specs.Imported.{AreBrought, IsFreeImport, IsOffered, IsTakenImport};

use crate::folder::Folder;
use crate::grammar::name_units;
use crate::judged::are_free;
use crate::outer::ResolverFault;
use domain_resolver::{NameTable, World};
use jk_model::{ClassId, OutOfMemory};
use jk_model_classes::{ResolverLine, ResolverWord};
use std::alloc::Global;

/// The class of this name of a live domain, where that offers it to the domain that is loaded.
fn offered_class(w: &World, into: &[u8], from: &[u8], name: &[u16]) -> Option<ClassId>
    requires { IsWorld w.now (length w.now.domains) }
    ensures { MatchOption result ((c : AClassId) → IsOffered w.now into.now from.now name.now c → ⊥)
        (λ c. IsOffered w.now into.now from.now name.now c) }
{
    let number = w.live_named(from)?;
    let domain = w.domain(number)?;
    let class = domain.table().resolve(name)?;
    if domain.offers().is_offered_to(class, into) {
        Some(class)
    } else {
        None
    }
}

/// Brings in a class and all that is reached from it. False where a name of one of them means something else.
fn bring(
    folder: &Folder,
    w: &World,
    names: &mut NameTable,
    class: ClassId,
) -> Result<bool, OutOfMemory>
    requires world { IsWorld w.now (length w.now.domains) }
    requires class { HasClass w.now.classes class }
    requires own { (e : NamedClass) → Contains names.old e → IsOwnName w.now.classes e }
    ensures { IfOk result (λ free. MatchBool free (IsFreeImport (class_paths folder.now) w.now.classes names.old class names.new)
        (IsTakenImport (class_paths folder.now) w.now.classes names.old class names.new)) }
{
    let first = names.len();
    if !names.import(w.classes(), class)? {
        return Ok(false);
    }
    names.names_differ();
    Ok(are_free(folder, w.classes(), names, first))
}

/// Brings in what the line at a place imports. False where it breaks L7.
fn take_line(
    alloc: Global,
    folder: &Folder,
    w: &World,
    into: &[u8],
    lines: &[ResolverLine],
    place: usize,
    names: &mut NameTable,
) -> Result<bool, OutOfMemory>
    requires world { IsWorld w.now (length w.now.domains) }
    requires place { place < length lines.now }
    requires brought { AreBrought folder.now w.now into.now lines.now place names.old }
    ensures { IfOk result (λ good. MatchBool good (AreBrought folder.now w.now into.now lines.now (place + 1) names.new)
        (BreaksL7 folder.now w.now into.now lines.now place)) }
{
    match &lines[place].says {
        ResolverWord::Share { .. } => Ok(true),
        ResolverWord::Import { from, class } => {
            let name = name_units(alloc, class.as_slice())?;
            match offered_class(w, into, from.as_slice(), name.as_slice()) {
                Some(class) => bring(folder, w, names, class),
                None => Ok(false),
            }
        }
    }
}

/// What lines that keep L6 bring in. It takes time in proportion to the references of the classes that they bring
/// in, of which each is looked at once, and to the lines (log n each for n live domains, names and offers).
pub(crate) fn imported_names(
    alloc: Global,
    folder: &Folder,
    w: &World,
    into: &[u8],
    lines: &[ResolverLine],
) -> Result<NameTable, ResolverFault>
    requires world { IsWorld w.now (length w.now.domains) }
    requires says { resolver_of folder.now.resolver ≡ Ok lines.now }
    requires shares { (n : ℕ) → BreaksL6 (class_paths folder.now) folder.now.resolver n → ⊥ }
    ensures brought { IfOk result (λ names. AreBrought folder.now w.now into.now lines.now (length lines.now) names) }
    ensures fault { IfErr result (IsImportFault folder.now w.now into.now) }
{
    let mut names = NameTable::new(alloc);
    for place in 0..lines.len() {
        if !take_line(alloc, folder, w, into, lines, place, &mut names)? {
            return Err(ResolverFault::NotOffered(lines[place].line));
        }
    }
    Ok(names)
}
