//! C18: classes that aren't known.

ghost use Rattle.std.specs.Prelude.{◌≡◌, ◌↔◌, ℕ, ◌<◌, IfOk, IfNone, IfSome, IsTrue, Some, length, slice_get};
ghost use Rattle.jk_model.specs.declared.class_file.MemberInfo.{MemberInfo};
ghost use Rattle.jk_model.specs.declared.class_file.PoolEntry.{PoolEntry};
ghost use Rattle.jk_model.specs.declared.class_file.PoolEntry.TheVariants.{Class, NameAndType};
ghost use Rattle.jk_model_classes.specs.Items.{Entry, HasItem, Spot};
ghost use Rattle.jk_model_classes.specs.References.{FolderScope, IsDescriptorEntry, MissesClass, RefersAt};
ghost use Rattle.class_files.specs.FolderClasses.{IsReadClass};
ghost use Rattle.name_rules.specs.FolderNames.{AreOwnNames};
ghost use Rattle.name_rules.specs.KnownNames.{AreLacking, DescriptorSays, IsEntryName, IsSaidBy, LacksOne};
ghost use Rattle.name_rules.specs.Marks.{Marks, MarksOf};

use crate::marks::{is_marked, set_mark};
use crate::mentions::{descriptor_lacks, name_lacks};
use crate::names::Names;
use class_files::FolderClass;
use domain_resolver::NameTable;
use jk_model::{ClassFile, MemberInfo, OutOfMemory, PoolEntry};
use std::alloc::Global;

// ---- The names of Class entries, each looked at once, however many entries have it.

/// Marks the texts that are names of Class entries.
fn mark_names(marks: &mut [bool], pool: &[PoolEntry])
    ensures { Marks (IsEntryName pool.now) marks.old marks.new }
{
    for entry in pool {
        if let PoolEntry::Class(name) = entry {
            set_mark(marks, usize::from(*name));
        }
    }
}

/// Marks of the texts that are names of Class entries.
fn name_marks(alloc: Global, c: &ClassFile) -> Result<Vec<bool>, OutOfMemory>
    ensures { IfOk result (λ marks. MarksOf (length c.now.pool) (IsEntryName c.now.pool) marks.items) }
{
    let mut marks = vec![in alloc; false; c.pool.len()]?;
    mark_names(&mut marks, c.pool.as_slice());
    Ok(marks)
}

/// Whether a Class entry with the name at an index says a class that isn't known.
fn text_lacks(names: &Names, f: &FolderClass, n: u16) -> Result<bool, OutOfMemory>
    requires read { IsReadClass f.now }
    requires name { IsEntryName f.now.file.pool n }
    ensures { IfOk result (λ r. IsTrue r ↔ LacksOne names.now (IsSaidBy f.now.file.pool n)) }
{
    match f.texts.text(n) {
        Some(text) => name_lacks(names, text.as_slice()),
        None => Ok(false),
    }
}

/// Marks of the names of Class entries that say a class that isn't known.
fn lacking_names(names: &Names, f: &FolderClass) -> Result<Vec<bool>, OutOfMemory>
    requires { IsReadClass f.now }
    ensures { IfOk result (λ marks. AreLacking names.now f.now.file.pool marks.items) }
{
    let marks = name_marks(names.alloc, &f.file)?;
    let mut lacking = Vec::with_capacity(names.alloc, marks.len())?;
    for (n, is_name) in marks.iter().enumerate() {
        let lacks = if *is_name {
            text_lacks(names, f, n as u16)?
        } else {
            false
        };
        lacking.push(lacks)?;
    }
    Ok(lacking)
}

// ---- The entries that are descriptors.

/// Marks the descriptors of members.
fn mark_members(marks: &mut [bool], members: &[MemberInfo])
    ensures { Marks (λ i. HasItem (λ (m : MemberInfo). m.descriptor ≡ i) members.now) marks.old marks.new }
{
    for m in members {
        set_mark(marks, usize::from(m.descriptor));
    }
}

/// Marks the descriptors of NameAndType entries.
fn mark_pairs(marks: &mut [bool], pool: &[PoolEntry])
    ensures { Marks (λ i. HasItem (λ (e : PoolEntry). (name : ℕ) × (e ≡ NameAndType name i)) pool.now) marks.old marks.new }
{
    for entry in pool {
        if let PoolEntry::NameAndType(_, descriptor) = entry {
            set_mark(marks, usize::from(*descriptor));
        }
    }
}

/// Marks of the entries that are descriptors of members or of NameAndType entries.
fn descriptor_marks(alloc: Global, c: &ClassFile) -> Result<Vec<bool>, OutOfMemory>
    ensures { IfOk result (λ marks. MarksOf (length c.now.pool) (IsDescriptorEntry c.now) marks.items) }
{
    let mut marks = vec![in alloc; false; c.pool.len()]?;
    mark_members(&mut marks, c.fields.as_slice());
    mark_members(&mut marks, c.methods.as_slice());
    mark_pairs(&mut marks, c.pool.as_slice());
    Ok(marks)
}

// ---- The entries.

/// Whether the text at an index is a descriptor with a class in it that isn't known.
fn text_at_lacks(names: &Names, f: &FolderClass, i: u16) -> Result<bool, OutOfMemory>
    requires { IsReadClass f.now }
    ensures { IfOk result (λ r. IsTrue r ↔ LacksOne names.now (DescriptorSays f.now.file.pool i)) }
{
    match f.texts.text(i) {
        Some(text) => descriptor_lacks(names, text.as_slice()),
        None => Ok(false),
    }
}

/// Whether the file refers to a class that isn't known by its entry at an index.
fn entry_lacks(
    names: &Names,
    f: &FolderClass,
    lacking: &[bool],
    entry: &PoolEntry,
    i: u16,
    is_descriptor: bool,
) -> Result<bool, OutOfMemory>
    requires read { IsReadClass f.now }
    requires lacking { AreLacking names.now f.now.file.pool lacking.now }
    requires at { slice_get f.now.file.pool i ≡ Some entry.now }
    requires descriptor { IsTrue is_descriptor ↔ IsDescriptorEntry f.now.file i }
    ensures { IfOk result (λ r. IsTrue r ↔ LacksOne names.now (RefersAt f.now.file i)) }
{
    match entry {
        PoolEntry::Class(name) => Ok(is_marked(lacking, usize::from(*name))),
        PoolEntry::Utf8(_) => {
            if is_descriptor {
                text_at_lacks(names, f, i)
            } else {
                Ok(false)
            }
        }
        _ => Ok(false),
    }
}

/// The least index of a Class entry or a descriptor that names a class which neither the folder has (`own`) nor the domain
/// knows otherwise (`outer`); none where each class is known. It takes time in proportion to the file.
pub fn first_missing_class(
    alloc: Global,
    f: &FolderClass,
    outer: &NameTable,
    own: &NameTable,
) -> Result<Option<u32>, OutOfMemory>
    requires { IsReadClass f.now }
    ensures missing { IfOk result (λ found. IfSome found (λ n. (s : FolderScope) → s.names ≡ outer.now → AreOwnNames s.files own.now
        → MissesClass s f.now.file (Entry n))) }
    ensures least { IfOk result (λ found. IfSome found (λ n. (s : FolderScope) → s.names ≡ outer.now → AreOwnNames s.files own.now
        → (i : ℕ) → i < n → MissesClass s f.now.file (Entry i) → ⊥)) }
    ensures none { IfOk result (λ found. IfNone found ((s : FolderScope) → s.names ≡ outer.now → AreOwnNames s.files own.now
        → (spot : Spot) → MissesClass s f.now.file spot → ⊥)) }
{
    let names = Names { alloc, outer, own };
    let lacking = lacking_names(&names, f)?;
    let descriptors = descriptor_marks(alloc, &f.file)?;
    for (i, entry) in f.file.pool.as_slice().iter().enumerate() {
        let is_descriptor = is_marked(&descriptors, i);
        if entry_lacks(&names, f, &lacking, entry, i as u16, is_descriptor)? {
            return Ok(Some(i as u32));
        }
    }
    Ok(None)
}
