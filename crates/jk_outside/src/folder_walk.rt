//! A walk over the names that a folder of a system gives, whatever the system is.

ghost use Rattle.std.specs.Prelude.{◌≡◌, ◌≢◌, ◌<◌, ◌≤◌, ◌⊎◌, ◌∷◌, ◌++◌, ◌^◌, ◌-◌, [], List, length, IfOk, OnOk, Err, true, string_bytes};
ghost use Rattle.std.specs.List.{AllByRecursion};
ghost use Rattle.std.specs.Option.{option_to_list};
ghost use Rattle.std.specs.Str.{IsUtf8};
ghost use Rattle.jk_model.specs.Outside.{HasRisenBy, ◌/-◌};
ghost use Rattle.jk_outside.specs.DiskStates.{count_after};
ghost use Rattle.jk_outside.specs.FolderWalks.{AllAre, IsListedAs, ListsOn, listed_as};
ghost use Rattle.jk_outside.specs.Systems.{AsksBelow, FolderAtIs, GoesOn, HasNoFolderAt, LogsFault, LogsOnly};

use crate::files::FilesError;
use crate::found::{Sort, sort_of};
use crate::reading::{opening_fault, reading_fault};
use crate::system::System;
use jk_model::{Bytes, Entry, List, OutOfMemory};
use std::alloc::Global;

/// The entries of a folder, up to one more than the limit.
pub(crate) fn list_folder<S: System>(
    alloc: Global,
    system: &mut S,
    folder: &str,
    limit: u32,
    taken: &mut u64,
) -> Result<List<Entry>, FilesError>
    ensures told { IfOk result (λ entries. FolderAtIs (S.places system.old) folder.now (λ all. entries ≡ all)) }
    ensures long { result ≡ Err FilesError.TooLong → FolderAtIs (S.places system.old) folder.now (λ all. limit < length all) }
    ensures absent { result ≡ Err FilesError.Absent → HasNoFolderAt (S.places system.old) folder.now }
    ensures failed { result ≡ Err FilesError.Failed → LogsFault (S.log system.old) (S.log system.new) ⊎ (taken.new ≡ 2 ^ 64 - 1) }
    ensures log { LogsOnly (λ step. AsksBelow folder.now step.asks) (S.log system.old) (S.log system.new) }
    ensures well { OnOk result (LogsOnly GoesOn (S.log system.old) (S.log system.new)) }
    ensures well_long { result ≡ Err FilesError.TooLong → LogsOnly GoesOn (S.log system.old) (S.log system.new) }
    ensures stays { S.places system.new ≡ S.places system.old }
    ensures names { IfOk result (λ entries. AllByRecursion (λ entry. IsUtf8 entry.name) entries) }
    ensures within { IfOk result (λ entries. length entries ≤ limit) }
    ensures counted { IfOk result (λ entries. count_after taken.old (length entries) ≤ taken.new) }
    ensures too_long { result ≡ Err FilesError.TooLong → HasRisenBy limit taken.old taken.new }
    ensures taken { taken.old ≤ taken.new }
{
    match system.open_folder(folder) {
        Ok(mut names) => list_names(alloc, system, folder, &mut names, limit, taken),
        Err(e) => Err(opening_fault(e.kind())),
    }
}

/// Lists what an open folder gives, in the order in which it comes.
fn list_names<S: System>(
    alloc: Global,
    system: &mut S,
    folder: &str,
    names: &mut S::Folder,
    limit: u32,
    taken: &mut u64,
) -> Result<List<Entry>, FilesError>
    ensures all { IfOk result (λ entries. AllAre (S.places system.old) folder.now (S.names_left names.old) (λ all. entries ≡ all)) }
    ensures long { result ≡ Err FilesError.TooLong
        → AllAre (S.places system.old) folder.now (S.names_left names.old) (λ all. limit < length all) }
    ensures present { result ≢ Err FilesError.Absent }
    ensures failed { result ≡ Err FilesError.Failed → LogsFault (S.log system.old) (S.log system.new) ⊎ (taken.new ≡ 2 ^ 64 - 1) }
    ensures log { LogsOnly (λ step. AsksBelow folder.now step.asks) (S.log system.old) (S.log system.new) }
    ensures well { OnOk result (LogsOnly GoesOn (S.log system.old) (S.log system.new)) }
    ensures well_long { result ≡ Err FilesError.TooLong → LogsOnly GoesOn (S.log system.old) (S.log system.new) }
    ensures stays { S.places system.new ≡ S.places system.old }
    ensures names { IfOk result (λ entries. AllByRecursion (λ entry. IsUtf8 entry.name) entries) }
    ensures within { IfOk result (λ entries. length entries ≤ limit) }
    ensures counted { IfOk result (λ entries. count_after taken.old (length entries) ≤ taken.new) }
    ensures too_long { result ≡ Err FilesError.TooLong → HasRisenBy limit taken.old taken.new }
    ensures taken { taken.old ≤ taken.new }
{
    // The proof wants to know that the count has 64 bits.
    let _before = *taken;
    let mut entries = List::new(alloc);
    for _turn in 0..u64::MAX {
        let next = match system.next_name(names) {
            Ok(next) => next,
            Err(e) => return Err(reading_fault(e.kind())),
        };
        let Some(text) = next else {
            return Ok(entries);
        };
        let name = text.as_str();
        let sort = sort_at(alloc, system, folder, name)?;
        *taken = taken.saturating_add(1);
        add_entry(alloc, &mut entries, name, sort, limit)?;
    }
    Err(FilesError::Failed)
}

/// What stands at a name in a folder.
fn sort_at<S: System>(
    alloc: Global,
    system: &mut S,
    folder: &str,
    name: &str,
) -> Result<Sort, FilesError>
    ensures sort { IfOk result (λ sort. IsListedAs (S.places system.old) folder.now name.now sort) }
    ensures present { result ≢ Err FilesError.Absent }
    ensures short { result ≢ Err FilesError.TooLong }
    ensures failed { result ≡ Err FilesError.Failed → LogsFault (S.log system.old) (S.log system.new) }
    ensures log { LogsOnly (λ step. AsksBelow folder.now step.asks) (S.log system.old) (S.log system.new) }
    ensures well { OnOk result (LogsOnly GoesOn (S.log system.old) (S.log system.new)) }
    ensures stays { S.places system.new ≡ S.places system.old }
{
    let path = path_in(alloc, folder, name)?;
    match system.look_at(path.as_str()) {
        Ok(seen) => Ok(sort_of(&seen)),
        Err(e) => Err(reading_fault(e.kind())),
    }
}

/// The path of a name in a folder.
fn path_in(alloc: Global, folder: &str, name: &str) -> Result<String, OutOfMemory>
    ensures { IfOk result (λ path. string_bytes path ≡ folder.now /- name.now) }
{
    let mut path = String::from_str(alloc, folder)?;
    path.push('/')?;
    path.push_str(name)?;
    Ok(path)
}

/// Puts an entry at the end, if it is listed and the limit isn't reached.
fn add_entry(
    alloc: Global,
    entries: &mut List<Entry>,
    name: &str,
    sort: Sort,
    limit: u32,
) -> Result<(), FilesError>
    requires { length entries.old ≤ limit }
    ensures ok { OnOk result (entries.new ≡ entries.old ++ option_to_list (listed_as sort name.now)) }
    ensures within { OnOk result (length entries.new ≤ limit) }
    ensures long { result ≡ Err FilesError.TooLong
        → limit < length (entries.old ++ option_to_list (listed_as sort name.now)) }
    ensures calm { result ≢ Err FilesError.Failed }
    ensures present { result ≢ Err FilesError.Absent }
    ensures names { AllByRecursion (λ entry. IsUtf8 entry.name) entries.old
        → OnOk result (AllByRecursion (λ entry. IsUtf8 entry.name) entries.new) }
{
    let folder = match sort {
        Sort::Folder => true,
        Sort::File => false,
        Sort::Other => return Ok(()),
    };
    if entries.len() == limit as usize {
        return Err(FilesError::TooLong);
    }
    let name = Bytes::from_slice(alloc, name.as_bytes())?;
    Ok(entries.push(Entry { name, folder })?)
}
