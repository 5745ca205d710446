//! The call that reads a pool.

ghost use Rattle.std.specs.Prelude.{◌≡◌, ℕ, ◌+◌, ◌<◌, ◌^◌, ◌⊎◌, List, length, drop, IfOk, MatchResult, Err};
ghost use Rattle.jk_model.specs.declared.class_file.PoolEntry.{PoolEntry};
ghost use Rattle.jk_model.specs.ClassFile.{pool_bytes};
ghost use Rattle.jk_model.specs.ConstantPool.{HasPool, IsCutPool, StopsAtTag, HasBadIndex, HasBadText};
ghost use Rattle.const_pool.specs.Answer.{IsAnswer};
ghost use Rattle.const_pool.specs.Reading.{seen};

use crate::entries::pool_of;
use crate::judge::{EntryFault, judge_pool};
use byte_fields::{EndsEarly, ReadError};
use jk_model::{List, OutOfMemory, PoolEntry};
use std::alloc::Global;
use thiserror::Error;

/// A constant pool.
#[derive(Debug, Drop)]
pub struct Pool {
    /// One entry per index from 0.
    pub entries: List<PoolEntry>,
    /// The place after the pool's last byte, in bytes from the front of the file.
    pub end: u32,
}

/// Why no constant pool was read. The numbers are pool indices.
#[derive(Clone, Copy, Debug, PartialEq, Eq, Error)]
pub enum PoolError {
    /// At this index stands a tag that is none, or a Long or Double that leaves no index after it. 0
    /// stands for a count of 0.
    #[error("index {0} of the constant pool holds no entry")]
    BadTag(u16),
    /// The entry names an index that is out of range, or an entry of another kind.
    #[error("the entry at index {0} of the constant pool names no entry of the kind that it needs")]
    BadIndex(u16),
    /// The text is no modified UTF-8.
    #[error("the text at index {0} of the constant pool is no modified UTF-8")]
    BadUtf(u16),
    /// The bytes end within the pool.
    #[error("the bytes end within the constant pool")]
    Truncated,
    /// No memory was left. It says nothing of the bytes.
    #[error("out of memory")]
    OutOfMemory,
}

impl From<OutOfMemory> for PoolError {
    ghost use Rattle.std.specs.Prelude.{◌≡◌};
    ghost use Rattle.const_pool.specs.declared.pool.PoolError.TheVariants as Error;

    ghost from_gives = { λ _ e. e ≡ Error.OutOfMemory };

    fn from(_e: OutOfMemory) -> PoolError {
        PoolError::OutOfMemory
    }
}

impl From<EndsEarly> for PoolError {
    ghost use Rattle.std.specs.Prelude.{◌≡◌};
    ghost use Rattle.const_pool.specs.declared.pool.PoolError.TheVariants as Error;

    ghost from_gives = { λ _ e. e ≡ Error.Truncated };

    fn from(_e: EndsEarly) -> PoolError {
        PoolError::Truncated
    }
}

impl From<ReadError> for PoolError {
    ghost use Rattle.std.specs.Prelude.{◌≡◌};
    ghost use Rattle.const_pool.specs.Reading.{read_error};

    ghost from_gives = { λ e pool. pool ≡ read_error e };

    fn from(e: ReadError) -> PoolError {
        match e {
            ReadError::EndsEarly => PoolError::Truncated,
            ReadError::OutOfMemory => PoolError::OutOfMemory,
        }
    }
}

impl From<EntryFault> for PoolError {
    ghost use Rattle.std.specs.Prelude.{◌≡◌};
    ghost use Rattle.const_pool.specs.Reading.{fault_error};

    ghost from_gives = { λ fault pool. pool ≡ fault_error fault };

    fn from(fault: EntryFault) -> PoolError {
        match fault {
            EntryFault::BadIndex(index) => PoolError::BadIndex(index),
            EntryFault::BadUtf(index) => PoolError::BadUtf(index),
        }
    }
}

/// The bytes from a place on.
fn from_place(bytes: &[u8], from: u32) -> &[u8]
    ensures { result.now ≡ drop from bytes.now }
{
    bytes.get(from as usize..).unwrap_or(&[])
}

/// The pool in front, once it has passed twice, and the bytes after it.
fn read(alloc: Global, bytes: &[u8]) -> Result<(List<PoolEntry>, &[u8]), PoolError>
    ensures { IsAnswer bytes.now (seen (λ x. (x.0, x.1.now)) result) }
{
    let (entries, after) = pool_of(alloc, bytes)?;
    judge_pool(entries.as_slice())?;
    Ok((entries, after))
}

/// The constant pool that stands in a class file from byte `from` on, counted from 0, in time linear in
/// its bytes (the Java Virtual Machine Specification, 4.4). A place after the end is `Truncated`.
///
/// It is judged in two passes. The first reads the entries, and stops at a count of 0, a tag that is
/// none, a Long or Double at the last index, and where the bytes end. The second looks at all entries
/// in rising index: texts have to be modified UTF-8, and an entry has to name entries of the kinds
/// that it needs. The first fault is answered.
pub fn read_pool(alloc: Global, bytes: &[u8], from: u32) -> Result<Pool, PoolError>
    requires { length bytes.now < 2 ^ 31 }
    ensures read { IfOk result (λ p. HasPool (drop from bytes.now) p.entries) }
    ensures end { IfOk result (λ p. p.end ≡ from + length (pool_bytes p.entries)) }
    // Bytes hold one pool, and it is found unless memory runs out.
    ensures only { (pool : List PoolEntry) → HasPool (drop from bytes.now) pool
        → MatchResult result (λ p. p.entries ≡ pool) (λ e. e ≡ PoolError.OutOfMemory) }
    // Each refusal has its cause, and comes wherever its cause holds, unless memory runs out.
    ensures bad_tag { (i : ℕ) → result ≡ Err (PoolError.BadTag i) → StopsAtTag (drop from bytes.now) i }
    ensures only_bad_tag { (i : ℕ) → StopsAtTag (drop from bytes.now) i
        → MatchResult result (λ _. ⊥) (λ e. (e ≡ PoolError.BadTag i) ⊎ (e ≡ PoolError.OutOfMemory)) }
    ensures bad_index { (i : ℕ) → result ≡ Err (PoolError.BadIndex i) → HasBadIndex (drop from bytes.now) i }
    ensures only_bad_index { (i : ℕ) → HasBadIndex (drop from bytes.now) i
        → MatchResult result (λ _. ⊥) (λ e. (e ≡ PoolError.BadIndex i) ⊎ (e ≡ PoolError.OutOfMemory)) }
    ensures bad_utf { (i : ℕ) → result ≡ Err (PoolError.BadUtf i) → HasBadText (drop from bytes.now) i }
    ensures only_bad_utf { (i : ℕ) → HasBadText (drop from bytes.now) i
        → MatchResult result (λ _. ⊥) (λ e. (e ≡ PoolError.BadUtf i) ⊎ (e ≡ PoolError.OutOfMemory)) }
    ensures truncated { result ≡ Err PoolError.Truncated → IsCutPool (drop from bytes.now) }
    ensures only_truncated { IsCutPool (drop from bytes.now)
        → MatchResult result (λ _. ⊥) (λ e. (e ≡ PoolError.Truncated) ⊎ (e ≡ PoolError.OutOfMemory)) }
{
    let (entries, after) = read(alloc, from_place(bytes, from))?;
    let end = (bytes.len() - after.len()) as u32;
    Ok(Pool { entries, end })
}
