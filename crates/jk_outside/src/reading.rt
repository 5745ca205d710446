//! Reading a file of a system, whatever the system is.

ghost use Rattle.std.specs.Prelude.{◌≡◌, ◌≢◌, ℕ, ⊤, ◌<◌, ◌≤◌, ◌⊎◌, ◌+◌, ◌-◌, [], List, length, IfOk, OnOk, IsTrue, Ok, Err, false};
ghost use Rattle.std.specs.Io.KnownBytes.{IsAtEnd};
ghost use Rattle.jk_outside.specs.DiskStates.{count_after};
ghost use Rattle.jk_outside.specs.Reading.{opening_fault, reading_fault, may_be_read, ReadsOn};
ghost use Rattle.jk_outside.specs.Systems.{AsksFor, FileAtIs, GoesOn, HasNothing, HasToRead, IsOpenedAt, IsOpenToRead, LogsFault, LogsOnly, MayAsk, Reads};

use crate::files::FilesError;
use crate::found::{Sort, sort_of};
use crate::system::System;
use jk_model::{Bytes, OutOfMemory};
use std::alloc::Global;
use std::io::ErrorKind;

/// The most bytes that are read at once.
const PIECE: usize = 65536;

/// What an error of this kind means where a folder or a file is opened.
pub(crate) fn opening_fault(kind: ErrorKind) -> FilesError
    ensures value { result ≡ opening_fault kind }
    ensures short { result ≢ FilesError.TooLong }
{
    match kind {
        ErrorKind::NotFound | ErrorKind::NotADirectory => FilesError::Absent,
        ErrorKind::OutOfMemory => FilesError::OutOfMemory,
        _ => FilesError::Failed,
    }
}

/// What an error of this kind means after that.
pub(crate) fn reading_fault(kind: ErrorKind) -> FilesError
    ensures value { result ≡ reading_fault kind }
    ensures present { result ≢ FilesError.Absent }
    ensures short { result ≢ FilesError.TooLong }
{
    match kind {
        ErrorKind::OutOfMemory => FilesError::OutOfMemory,
        _ => FilesError::Failed,
    }
}

/// Whether what is of this sort is read: a file, and where pipes are read, what is no folder.
fn may_be_read(sort: Sort, pipes: bool) -> bool
    ensures { result ≡ may_be_read sort pipes }
{
    match sort {
        Sort::File => true,
        Sort::Other => pipes,
        Sort::Folder => false,
    }
}

/// The bytes of a file, up to one more than the limit.
pub(crate) fn read_file<S: System>(
    alloc: Global,
    system: &mut S,
    path: &str,
    pipes: bool,
    limit: u32,
    taken: &mut u64,
) -> Result<Bytes, FilesError>
    ensures told { IfOk result (λ bytes. FileAtIs pipes (S.places system.old) path.now (λ all. bytes ≡ all)) }
    ensures long { result ≡ Err FilesError.TooLong
        → FileAtIs pipes (S.places system.old) path.now (λ all. limit < length all) }
    ensures absent { result ≡ Err FilesError.Absent → HasNothing (S.places system.old) path.now }
    ensures failed { result ≡ Err FilesError.Failed
        → HasToRead pipes (S.places system.old) path.now → LogsFault (S.log system.old) (S.log system.new) }
    ensures log { LogsOnly (λ step. AsksFor path.now step.asks) (S.log system.old) (S.log system.new) }
    ensures opens { LogsOnly (λ step. MayAsk pipes (S.places system.old) path.now step.asks) (S.log system.old) (S.log system.new) }
    ensures well { OnOk result (LogsOnly GoesOn (S.log system.old) (S.log system.new)) }
    ensures well_long { result ≡ Err FilesError.TooLong → LogsOnly GoesOn (S.log system.old) (S.log system.new) }
    ensures stays { S.places system.new ≡ S.places system.old }
    ensures within { IfOk result (λ bytes. length bytes ≤ limit) }
    ensures counted { IfOk result (λ bytes. taken.new ≡ count_after taken.old (length bytes)) }
    ensures too_long { result ≡ Err FilesError.TooLong → taken.new ≡ count_after taken.old (limit + 1) }
    ensures taken { taken.old ≤ taken.new }
{
    let mut file = open_to_read(system, path, pipes)?;
    whole_file(alloc, system, &mut file, limit, taken)
}

/// Opens a file. What isn't to be read isn't opened, and what was opened is judged again: it may be another than
/// what was looked at.
fn open_to_read<S: System>(system: &mut S, path: &str, pipes: bool) -> Result<S::File, FilesError>
    ensures opened { IfOk result (λ file. IsOpenedAt (S.places system.old) path.now (S.opened file) (S.bytes_left file)) }
    ensures sort { IfOk result (λ _. FileAtIs pipes (S.places system.old) path.now (λ _. ⊤)) }
    ensures judged { IfOk result (λ file. IsOpenToRead pipes (S.opened file)) }
    ensures short { result ≢ Err FilesError.TooLong }
    ensures absent { result ≡ Err FilesError.Absent → HasNothing (S.places system.old) path.now }
    ensures failed { result ≡ Err FilesError.Failed
        → HasToRead pipes (S.places system.old) path.now → LogsFault (S.log system.old) (S.log system.new) }
    ensures log { LogsOnly (λ step. AsksFor path.now step.asks) (S.log system.old) (S.log system.new) }
    ensures opens { LogsOnly (λ step. MayAsk pipes (S.places system.old) path.now step.asks) (S.log system.old) (S.log system.new) }
    ensures well { OnOk result (LogsOnly GoesOn (S.log system.old) (S.log system.new)) }
    ensures stays { S.places system.new ≡ S.places system.old }
{
    let seen = match system.look_at(path) {
        Ok(seen) => seen,
        Err(e) => return Err(opening_fault(e.kind())),
    };
    if !may_be_read(sort_of(&seen), pipes) {
        return Err(FilesError::Failed);
    }
    let file = match system.open_file(path) {
        Ok(file) => file,
        Err(e) => return Err(opening_fault(e.kind())),
    };
    match system.look_into(&file) {
        Ok(seen) if may_be_read(sort_of(&seen), pipes) => Ok(file),
        Ok(_) => Err(FilesError::Failed),
        Err(e) => Err(reading_fault(e.kind())),
    }
}

/// Reads to the end, and takes at most one byte more than the limit.
fn whole_file<S: System>(
    alloc: Global,
    system: &mut S,
    file: &mut S::File,
    limit: u32,
    taken: &mut u64,
) -> Result<Bytes, FilesError>
    ensures whole { IfOk result (λ bytes. ReadsOn (S.bytes_left file.old) (S.bytes_left file.new) [] bytes) }
    ensures end { OnOk result (IsAtEnd (S.bytes_left file.new)) }
    ensures long { result ≡ Err FilesError.TooLong
        → (bytes : List ℕ) × (length bytes ≡ limit + 1) × ReadsOn (S.bytes_left file.old) (S.bytes_left file.new) [] bytes }
    ensures present { result ≢ Err FilesError.Absent }
    ensures failed { result ≡ Err FilesError.Failed → LogsFault (S.log system.old) (S.log system.new) }
    ensures log { LogsOnly (λ step. step.asks ≡ Reads) (S.log system.old) (S.log system.new) }
    ensures well { OnOk result (LogsOnly GoesOn (S.log system.old) (S.log system.new)) }
    ensures well_long { result ≡ Err FilesError.TooLong → LogsOnly GoesOn (S.log system.old) (S.log system.new) }
    ensures stays { S.places system.new ≡ S.places system.old }
    ensures within { IfOk result (λ bytes. length bytes ≤ limit) }
    ensures counted { IfOk result (λ bytes. taken.new ≡ count_after taken.old (length bytes)) }
    ensures too_long { result ≡ Err FilesError.TooLong → taken.new ≡ count_after taken.old (limit + 1) }
    ensures taken { taken.old ≤ taken.new }
{
    // The proof wants to know that the count has 64 bits.
    let _before = *taken;
    let room = PIECE.min(limit as usize + 1);
    let mut piece = Vec::from_elem(alloc, 0, room).map_err(OutOfMemory::from)?;
    let mut bytes = Bytes::new(alloc);
    for _turn in 0..u64::MAX {
        if read_more(system, file, piece.as_mut_slice(), limit, &mut bytes, taken)? {
            return Ok(bytes);
        }
    }
    Err(FilesError::Failed)
}

/// Reads a piece of a file after the bytes so far. Whether that was its end.
fn read_more<S: System>(
    system: &mut S,
    file: &mut S::File,
    piece: &mut [u8],
    limit: u32,
    bytes: &mut Bytes,
    taken: &mut u64,
) -> Result<bool, FilesError>
    requires room { 0 < length piece.old }
    requires within { length bytes.old ≤ limit }
    ensures on { OnOk result (ReadsOn (S.bytes_left file.old) (S.bytes_left file.new) bytes.old bytes.new) }
    ensures end { IfOk result (λ done. IsTrue done → IsAtEnd (S.bytes_left file.new)) }
    ensures grows { result ≡ Ok false → (length bytes.old < length bytes.new) ⊎ LogsFault (S.log system.old) (S.log system.new) }
    ensures within { OnOk result (length bytes.new ≤ limit) }
    ensures counted { OnOk result
        (taken.new ≡ count_after taken.old (length bytes.new - length bytes.old)) }
    ensures long { result ≡ Err FilesError.TooLong
        → (length bytes.new ≡ limit + 1) × ReadsOn (S.bytes_left file.old) (S.bytes_left file.new) bytes.old bytes.new }
    ensures too_long { result ≡ Err FilesError.TooLong
        → taken.new ≡ count_after taken.old (limit + 1 - length bytes.old) }
    ensures present { result ≢ Err FilesError.Absent }
    ensures failed { result ≡ Err FilesError.Failed → LogsFault (S.log system.old) (S.log system.new) }
    ensures log { LogsOnly (λ step. step.asks ≡ Reads) (S.log system.old) (S.log system.new) }
    ensures well { OnOk result (LogsOnly GoesOn (S.log system.old) (S.log system.new)) }
    ensures well_long { result ≡ Err FilesError.TooLong → LogsOnly GoesOn (S.log system.old) (S.log system.new) }
    ensures stays { S.places system.new ≡ S.places system.old }
    ensures taken { taken.old ≤ taken.new }
{
    let _before = *taken;
    let room = piece.len().min(limit as usize + 1 - bytes.len());
    let n = match system.read(file, &mut piece[..room]) {
        Ok(n) => n,
        Err(e) if e.kind() == ErrorKind::Interrupted => return Ok(false),
        Err(e) => return Err(reading_fault(e.kind())),
    };
    *taken = taken.saturating_add(n as u64);
    bytes.extend_from_slice(&piece[..n])?;
    if bytes.len() > limit as usize {
        return Err(FilesError::TooLong);
    }
    Ok(n == 0)
}
