//! A walk over the folders below a folder, each after those that were found before it.

ghost use Rattle.std.specs.Prelude.{◌≡◌, ◌≢◌, ◌+◌, ◌-◌, ◌<◌, ◌≤◌, ◌∷◌, ◌++◌, [], List, length, slice_get, true, vec_len, Err, IfOk, OnOk, Some};
ghost use Rattle.jk_model.specs.Outside.{FolderIsAbsent, HasRisen, ListOf, Tree};
ghost use Rattle.jk_model_folders.specs.FolderTrees.{MOST_ENTRIES, MOST_LEVELS};
ghost use Rattle.jk_outside.specs.Counts.{HasTaken};
ghost use Rattle.folder_reader.specs.declared.found.Found.{Found as AFound};
ghost use Rattle.folder_reader.specs.AskedOnce.{AsksSome, ListsOnce};
ghost use Rattle.folder_reader.specs.Calls.{Moves};
ghost use Rattle.folder_reader.specs.FolderAnswers.{AskedFor, IsLarge};
ghost use Rattle.folder_reader.specs.Paths.{top, whole_path};
ghost use Rattle.folder_reader.specs.Walks.{AreFound, AreLevelled, IsToldWalk};
ghost use Rattle.folder_reader.specs.declared.reading.FolderError.TheVariants as Why;

use crate::found::Found;
use crate::listing::below_of;
use crate::reading::FolderError;
use jk_model::{Bytes, OutOfMemory};
use jk_outside::Files;
use std::alloc::Global;

/// How many entries there may be at all levels.
const MOST_ENTRIES: usize = 4096;

/// How many levels down a folder may stand.
const MOST_LEVELS: u32 = 16;

/// Puts what stands in the folder at this place at the end of what was found.
fn look_at<F: Files>(
    alloc: Global,
    files: &mut F,
    root: &str,
    found: &mut Vec<Found>,
    at: usize,
) -> Result<(), FolderError>
    requires at { at < vec_len found.old }
    requires few { vec_len found.old ≤ 4097 }
    requires found { AreFound root.now found.old.items }
    requires levels { AreLevelled found.old.items }
    requires walk { IsToldWalk (F.tree files.old) root.now found.old.items at }
    ensures few { OnOk result (vec_len found.new ≤ 4097) }
    ensures grows { OnOk result (vec_len found.old ≤ vec_len found.new) }
    ensures keeps { OnOk result ((below : List AFound) × (found.new.items ≡ found.old.items ++ below)) }
    ensures counted { OnOk result (HasTaken (F.tree files.old) (vec_len found.new - vec_len found.old) (F.taken files.old) (F.taken files.new)) }
    ensures levels { OnOk result (AreLevelled found.new.items) }
    ensures found { OnOk result (AreFound root.now found.new.items) }
    ensures walk { OnOk result (IsToldWalk (F.tree files.old) root.now found.new.items (at + 1)) }
    // Too deep a folder is refused before anything is asked, and takes no memory.
    ensures deep { (f : AFound) → slice_get found.old.items at ≡ Some f → f.folder ≡ true → MOST_LEVELS < f.level
        → (result ≡ Err Why.TooLarge) × (F.asked files.new ≡ F.asked files.old) }
    ensures once { (f : AFound) → slice_get found.old.items at ≡ Some f
        → AsksSome (F.asked files.old) (F.asked files.new) (whole_path root.now f.path ∷ []) [] }
    ensures no_folder { result ≡ Err Why.NoFolder → FolderIsAbsent (F.tree files.old) root.now (F.faults files.old) (F.faults files.new) }
    ensures missed { result ≡ Err Why.NoFolder → AskedFor (F.asked files.old) (F.asked files.new) (ListOf root.now MOST_ENTRIES) }
    ensures too_large { result ≡ Err Why.TooLarge → IsLarge (F.tree files.old) root.now }
    ensures large { result ≡ Err Why.TooLarge → HasTaken (F.tree files.old) (18 - vec_len found.old) (F.taken files.old) (F.taken files.new) }
    ensures read_fault { result ≡ Err Why.ReadFault → HasRisen (F.faults files.old) (F.faults files.new) }
    ensures something { result ≡ Err Why.ReadFault → F.asked files.new ≢ F.asked files.old }
    ensures calm { (t : Tree) → F.tree files.old ≡ Some t → result ≢ Err Why.ReadFault → F.faults files.new ≡ F.faults files.old }
    ensures moves { Moves root.now (F.tree files.old) (F.tree files.new) (F.faults files.old) (F.faults files.new)
        (F.taken files.old) (F.taken files.new) (F.asked files.old) (F.asked files.new) }
{
    let entry = &found[at];
    if !entry.folder {
        return Ok(());
    }
    if entry.level > MOST_LEVELS {
        return Err(FolderError::TooLarge);
    }
    let mut below = below_of(alloc, files, root, entry)?;
    if found.append(&mut below).is_err() {
        return Err(FolderError::OutOfMemory);
    }
    // The folder itself is no entry.
    if found.len() > MOST_ENTRIES + 1 {
        return Err(FolderError::TooLarge);
    }
    Ok(())
}

/// The folder alone, as a walk begins.
fn begun(alloc: Global) -> Result<Vec<Found>, OutOfMemory>
    ensures { IfOk result (λ found. found.items ≡ top ∷ []) }
{
    let mut found = Vec::new(alloc);
    found.push(Found {
        path: Bytes::new(alloc),
        level: 0,
        folder: true,
    })?;
    Ok(found)
}

/// The folder, and all that stands below it.
pub(crate) fn found_below<F: Files>(
    alloc: Global,
    files: &mut F,
    root: &str,
) -> Result<Vec<Found>, FolderError>
    ensures few { IfOk result (λ found. vec_len found ≤ 4097) }
    ensures counted { IfOk result (λ found. HasTaken (F.tree files.old) (vec_len found - 1) (F.taken files.old) (F.taken files.new)) }
    ensures found { IfOk result (λ found. AreFound root.now found.items) }
    ensures walk { IfOk result (λ found. IsToldWalk (F.tree files.old) root.now found.items (vec_len found)) }
    ensures once { ListsOnce (F.tree files.old) (F.asked files.old) (F.asked files.new) }
    ensures no_folder { result ≡ Err Why.NoFolder → FolderIsAbsent (F.tree files.old) root.now (F.faults files.old) (F.faults files.new) }
    ensures missed { result ≡ Err Why.NoFolder → AskedFor (F.asked files.old) (F.asked files.new) (ListOf root.now MOST_ENTRIES) }
    ensures too_large { result ≡ Err Why.TooLarge → IsLarge (F.tree files.old) root.now }
    ensures large { result ≡ Err Why.TooLarge → HasTaken (F.tree files.old) (MOST_LEVELS + 1) (F.taken files.old) (F.taken files.new) }
    ensures read_fault { result ≡ Err Why.ReadFault → HasRisen (F.faults files.old) (F.faults files.new) }
    ensures something { result ≡ Err Why.ReadFault → F.asked files.new ≢ F.asked files.old }
    ensures calm { (t : Tree) → F.tree files.old ≡ Some t → result ≢ Err Why.ReadFault → F.faults files.new ≡ F.faults files.old }
    ensures moves { Moves root.now (F.tree files.old) (F.tree files.new) (F.faults files.old) (F.faults files.new)
        (F.taken files.old) (F.taken files.new) (F.asked files.old) (F.asked files.new) }
{
    let mut found = begun(alloc)?;
    let mut next = 0;
    while next < found.len() {
        look_at(alloc, files, root, &mut found, next)?;
        next += 1;
    }
    Ok(found)
}
