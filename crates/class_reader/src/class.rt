//! The whole of a class file.

ghost use Rattle.std.specs.Prelude.{◌≡◌, ◌↔◌, ℕ, ◌<◌, ◌^◌, length, drop, IsTrue, IfOk, MatchResult, Err};
ghost use Rattle.jk_model.specs.ClassFile.{IsClass, IsVersion};
ghost use Rattle.jk_model.specs.ReadFaults.{HasBadMagic, HasBadVersion, HasBadPool, IsTruncated, TrailsClass};
ghost use Rattle.const_pool.specs.Reading.{seen};
ghost use Rattle.class_reader.specs.Answers.{IsVersionAnswer, IsPoolAnswer, IsClassAnswer, IsClassFront, IsRefused, pool_refusal};

use crate::sections::sections_of;
use byte_fields::{ReadError, pair_of, u4_of};
use const_pool::{Pool, PoolError, read_pool};
use jk_model::ClassFile;
use std::alloc::Global;
use thiserror::Error;

/// Why bytes were not read as a class file.
#[derive(Clone, Copy, Debug, PartialEq, Eq, Error)]
pub enum ReadRefusal {
    /// The first four bytes aren't the magic number.
    #[error("the magic number is missing")]
    BadMagic,
    /// The version isn't one from 45.3 to 50.0.
    #[error("the version is not one from 45.3 to 50.0")]
    BadVersion,
    /// The bytes end before the class file does: this is how many there are.
    #[error("the class file ends early, after {0} bytes")]
    Truncated(u32),
    /// Bytes follow the class file, from this place on.
    #[error("bytes follow the class file from {0} on")]
    Trailing(u32),
    /// The constant pool has a fault at this index.
    #[error("the constant pool has a fault at index {0}")]
    BadPool(u16),
    /// No memory was left. It says nothing of the bytes after the version.
    #[error("out of memory")]
    OutOfMemory,
}

/// The number that each class file begins with.
pub const MAGIC: u32 = 0xcafe_babe;

/// Whether the version is one from 45.3 to 50.0.
pub fn is_version(major: u16, minor: u16) -> bool
    ensures accepted { IsTrue result ↔ IsVersion major minor }
{
    (45 < major || major == 45 && 3 <= minor) && (major < 50 || major == 50 && minor == 0)
}

/// That these bytes end early.
fn truncated(bytes: &[u8]) -> ReadRefusal
    requires { length bytes.now < 2 ^ 31 }
    ensures { result ≡ ReadRefusal.Truncated (length bytes.now) }
{
    ReadRefusal::Truncated(bytes.len() as u32)
}

/// The version after the magic number, minor and major, if it is accepted.
fn version_of(bytes: &[u8]) -> Result<(u16, u16), ReadRefusal>
    requires { length bytes.now < 2 ^ 31 }
    ensures { IsVersionAnswer bytes.now result }
{
    let Ok((magic, rest)) = u4_of(bytes) else {
        return Err(truncated(bytes));
    };
    if magic != MAGIC {
        return Err(ReadRefusal::BadMagic);
    }
    let Ok((version, _)) = pair_of(rest) else {
        return Err(truncated(bytes));
    };
    if !is_version(version.1, version.0) {
        return Err(ReadRefusal::BadVersion);
    }
    Ok(version)
}

/// How a fault of the pool is answered, in a file of this length.
fn pool_refusal(len: u32, e: PoolError) -> ReadRefusal
    ensures { result ≡ pool_refusal len e }
{
    match e {
        PoolError::BadTag(i) | PoolError::BadIndex(i) | PoolError::BadUtf(i) => {
            ReadRefusal::BadPool(i)
        }
        PoolError::Truncated => ReadRefusal::Truncated(len),
        PoolError::OutOfMemory => ReadRefusal::OutOfMemory,
    }
}

/// The constant pool, which stands after the version.
fn pool_of(alloc: Global, bytes: &[u8]) -> Result<Pool, ReadRefusal>
    requires { length bytes.now < 2 ^ 31 }
    ensures { IsPoolAnswer (length bytes.now) (drop 8 bytes.now) result }
{
    match read_pool(alloc, bytes, 8) {
        Ok(pool) => Ok(pool),
        Err(e) => Err(pool_refusal(bytes.len() as u32, e)),
    }
}

/// The class file in front, and the bytes after it.
fn class_in_front(alloc: Global, bytes: &[u8]) -> Result<(ClassFile, &[u8]), ReadRefusal>
    requires { length bytes.now < 2 ^ 31 }
    ensures { IsClassFront bytes.now (seen (λ x. (x.0, x.1.now)) result) }
{
    let (minor, major) = version_of(bytes)?;
    let pool = pool_of(alloc, bytes)?;
    let (_, after_pool) = bytes.split_at(pool.end as usize);
    let (sections, rest) = match sections_of(alloc, after_pool) {
        Ok(read) => read,
        Err(ReadError::EndsEarly) => return Err(truncated(bytes)),
        Err(ReadError::OutOfMemory) => return Err(ReadRefusal::OutOfMemory),
    };
    let ((flags, (this_class, super_class)), parts) = sections;
    let class = ClassFile {
        minor,
        major,
        pool: pool.entries,
        flags,
        this_class,
        super_class,
        interfaces: parts.interfaces,
        fields: parts.fields,
        methods: parts.methods,
        attributes: parts.attributes,
    };
    Ok((class, rest))
}

/// What `read_class` answers, as one relation.
fn answered(alloc: Global, bytes: &[u8]) -> Result<ClassFile, ReadRefusal>
    requires { length bytes.now < 2 ^ 31 }
    ensures { IsClassAnswer bytes.now result }
{
    let (class, rest) = class_in_front(alloc, bytes)?;
    if !rest.is_empty() {
        return Err(ReadRefusal::Trailing((bytes.len() - rest.len()) as u32));
    }
    Ok(class)
}

/// The class file that the bytes are, in time linear in them (the Java Virtual Machine
/// Specification, 4.1).
///
/// Bytes that are none have one fault, the first that is met in reading them from front to back;
/// the constant pool is judged before what follows it is read. No memory is taken before the
/// version is accepted.
pub fn read_class(alloc: Global, bytes: &[u8]) -> Result<ClassFile, ReadRefusal>
    requires { length bytes.now < 2 ^ 31 }
    ensures found { IfOk result (λ c. IsClass bytes.now c) }
    // Bytes are one class file, and it is found unless memory runs out.
    ensures only { (c : ClassFile) → IsClass bytes.now c
        → MatchResult result (λ d. d ≡ c) (λ e. e ≡ ReadRefusal.OutOfMemory) }

    // These two come before memory is taken.
    ensures bad_magic { result ≡ Err ReadRefusal.BadMagic ↔ HasBadMagic bytes.now }
    ensures bad_version { result ≡ Err ReadRefusal.BadVersion ↔ HasBadVersion bytes.now }

    // Each other refusal has its cause, and comes wherever its cause holds, unless memory runs out.
    ensures truncated { (n : ℕ) → result ≡ Err (ReadRefusal.Truncated n)
        → IsTruncated bytes.now × (n ≡ length bytes.now) }
    ensures only_truncated { IsTruncated bytes.now
        → IsRefused result (ReadRefusal.Truncated (length bytes.now)) ReadRefusal.OutOfMemory }
    ensures trailing { (n : ℕ) → result ≡ Err (ReadRefusal.Trailing n) → TrailsClass bytes.now n }
    ensures only_trailing { (n : ℕ) → TrailsClass bytes.now n
        → IsRefused result (ReadRefusal.Trailing n) ReadRefusal.OutOfMemory }
    ensures bad_pool { (i : ℕ) → result ≡ Err (ReadRefusal.BadPool i) → HasBadPool bytes.now i }
    ensures only_bad_pool { (i : ℕ) → HasBadPool bytes.now i
        → IsRefused result (ReadRefusal.BadPool i) ReadRefusal.OutOfMemory }
{
    answered(alloc, bytes)
}
