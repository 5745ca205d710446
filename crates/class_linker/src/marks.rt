//! Which texts of a pool are names of Class entries, and which are descriptors. A text that many entries name is marked once,
//! so that it is read once.

ghost use Rattle.std.specs.Prelude.{◌≡◌, ◌↔◌, ℕ, IfOk, IsTrue, Some, false, length, replicate, slice_get, true};
ghost use Rattle.jk_model.specs.declared.class_file.MemberInfo.{MemberInfo};
ghost use Rattle.jk_model.specs.declared.class_file.PoolEntry.{PoolEntry};
ghost use Rattle.jk_model.specs.declared.class_file.PoolEntry.TheVariants.{Class, NameAndType};
ghost use Rattle.jk_model_classes.specs.Items.{HasItem};
ghost use Rattle.jk_model_classes.specs.References.{IsDescriptorEntry};
ghost use Rattle.class_linker.specs.KnownReferences.{AreMarked, IsNameEntry};
ghost use Rattle.name_rules.specs.Marks.{Marks};

use jk_model::{ClassFile, MemberInfo, OutOfMemory, PoolEntry};
use std::alloc::Global;

/// Marks the entry at an index, if there is one.
fn mark(marks: &mut [bool], i: u16)
    ensures { Marks (λ k. i ≡ k) marks.old marks.new }
{
    let i = usize::from(i);
    if i < marks.len() {
        marks[i] = true;
    }
}

/// Whether the entry at an index is marked.
pub(crate) fn is_marked(marks: &[bool], i: u16) -> bool
    ensures { IsTrue result ↔ (slice_get marks.now i ≡ Some true) }
{
    match marks.get(usize::from(i)) {
        Some(marked) => *marked,
        None => false,
    }
}

/// Marks the descriptors of members.
fn mark_members(marks: &mut [bool], members: &[MemberInfo])
    ensures { Marks (λ i. HasItem (λ (m : MemberInfo). m.descriptor ≡ i) members.now) marks.old marks.new }
{
    for m in members {
        mark(marks, m.descriptor);
    }
}

/// Marks the descriptor of an entry that is a NameAndType.
fn mark_pair(marks: &mut [bool], entry: &PoolEntry)
    ensures { Marks (λ i. (name : ℕ) × (entry.now ≡ NameAndType name i)) marks.old marks.new }
{
    match entry {
        PoolEntry::NameAndType(_, descriptor) => mark(marks, *descriptor),
        _ => {}
    }
}

/// Marks the descriptors of NameAndType entries.
fn mark_pairs(marks: &mut [bool], pool: &[PoolEntry])
    ensures { Marks (λ i. HasItem (λ (e : PoolEntry). (name : ℕ) × (e ≡ NameAndType name i)) pool.now) marks.old marks.new }
{
    for entry in pool {
        mark_pair(marks, entry);
    }
}

/// Marks the descriptors of members and of NameAndType entries, where nothing is marked yet.
fn mark_descriptors(marks: &mut [bool], c: &ClassFile)
    requires { marks.old ≡ replicate (length c.now.pool) false }
    ensures { AreMarked (IsDescriptorEntry c.now) c.now.pool marks.new }
{
    mark_members(marks, c.fields.as_slice());
    mark_members(marks, c.methods.as_slice());
    mark_pairs(marks, c.pool.as_slice());
}

/// Marks the name of an entry that is a Class.
fn mark_name(marks: &mut [bool], entry: &PoolEntry)
    ensures { Marks (λ i. entry.now ≡ Class i) marks.old marks.new }
{
    match entry {
        PoolEntry::Class(name) => mark(marks, *name),
        _ => {}
    }
}

/// Marks the names of Class entries, where nothing is marked yet.
fn mark_names(marks: &mut [bool], pool: &[PoolEntry])
    requires { marks.old ≡ replicate (length pool.now) false }
    ensures { AreMarked (IsNameEntry pool.now) pool.now marks.new }
{
    for entry in pool {
        mark_name(marks, entry);
    }
}

/// For each entry of the pool whether it is the descriptor of a member or of a NameAndType.
pub(crate) fn descriptor_marks(alloc: Global, c: &ClassFile) -> Result<Vec<bool>, OutOfMemory>
    ensures { IfOk result (λ marks. AreMarked (IsDescriptorEntry c.now) c.now.pool marks.items) }
{
    let mut marks = vec![in alloc; false; c.pool.len()]?;
    mark_descriptors(marks.as_mut_slice(), c);
    Ok(marks)
}

/// For each entry of the pool whether it is the name of a Class entry.
pub(crate) fn name_marks(alloc: Global, c: &ClassFile) -> Result<Vec<bool>, OutOfMemory>
    ensures { IfOk result (λ marks. AreMarked (IsNameEntry c.now.pool) c.now.pool marks.items) }
{
    let mut marks = vec![in alloc; false; c.pool.len()]?;
    mark_names(marks.as_mut_slice(), c.pool.as_slice());
    Ok(marks)
}
