//! The graph of a folder's class files: from each file to those whose classes it extends or lists.

ghost use Rattle.std.specs.Prelude.{◌≡◌, ℕ, IfOk, MatchOption, Some, length, slice_get};
ghost use Rattle.jk_model.specs.declared.class_file.PoolEntry.TheVariants.{Class};
ghost use Rattle.jk_model_classes.specs.Items.{HasItem};
ghost use Rattle.name_rules.specs.FolderEdges.{AreEdges, ExtendsPlace, GoesTo, IsListedName, ListsPlace, MeansPlace, TextMeans};
ghost use Rattle.class_files.specs.FolderClasses.{AreReadClasses, IsReadClass, files_of};
ghost use Rattle.name_rules.specs.Marks.{Marks, MarksOf};

use crate::marks::set_mark;
use class_files::FolderClass;
use domain_resolver::NameTable;
use jk_model::{ClassFile, OutOfMemory, PoolEntry};
use std::alloc::Global;

/// Where the name stands of the class that an entry is of.
fn name_index(entry: &PoolEntry) -> Option<u16>
    ensures { MatchOption result ((n : ℕ) → entry.now ≡ Class n → ⊥) (λ n. entry.now ≡ Class n) }
{
    match entry {
        PoolEntry::Class(name) => Some(*name),
        _ => None,
    }
}

/// Where the name stands of the Class entry at an index.
fn class_entry(pool: &[PoolEntry], i: u16) -> Option<u16>
    ensures { MatchOption result ((n : ℕ) → slice_get pool.now i ≡ Some (Class n) → ⊥) (λ n. slice_get pool.now i ≡ Some (Class n)) }
{
    let entry = pool.get(usize::from(i))?;
    name_index(entry)
}

/// Marks the texts that are names of these Class entries.
fn mark_listed(marks: &mut [bool], pool: &[PoolEntry], indices: &[u16])
    ensures { Marks (λ n. HasItem (λ i. slice_get pool.now i ≡ Some (Class n)) indices.now) marks.old marks.new }
{
    for i in indices {
        if let Some(name) = class_entry(pool, *i) {
            set_mark(marks, usize::from(name));
        }
    }
}

/// Marks of the texts that are names of the interfaces that a file lists. A text is there once, however often the file
/// lists it.
pub(crate) fn listed_names(alloc: Global, c: &ClassFile) -> Result<Vec<bool>, OutOfMemory>
    ensures { IfOk result (λ marks. MarksOf (length c.now.pool) (IsListedName c.now) marks.items) }
{
    let mut marks = vec![in alloc; false; c.pool.len()]?;
    mark_listed(&mut marks, c.pool.as_slice(), c.interfaces.as_slice());
    Ok(marks)
}

/// Marks the file that a name means.
fn mark_class(own: &NameTable, row: &mut [bool], name: &[u16])
    ensures { Marks (MeansPlace own.now name.now) row.old row.new }
{
    if let Some(class) = own.resolve(name) {
        set_mark(row, class.0 as usize);
    }
}

/// Marks the file whose class is the parent.
fn mark_parent(own: &NameTable, row: &mut [bool], f: &FolderClass)
    requires { IsReadClass f.now }
    ensures { Marks (ExtendsPlace f.now.file own.now) row.old row.new }
{
    if let Some(name) = f
        .texts
        .class_name(f.file.pool.as_slice(), f.file.super_class)
    {
        mark_class(own, row, name.as_slice());
    }
}

/// Marks the file that the text at an index means.
fn mark_text(own: &NameTable, row: &mut [bool], f: &FolderClass, n: u16)
    requires { IsReadClass f.now }
    ensures { Marks (TextMeans f.now.file.pool own.now n) row.old row.new }
{
    if let Some(name) = f.texts.text(n) {
        mark_class(own, row, name.as_slice());
    }
}

/// Marks the files whose classes are interfaces that a file lists.
fn mark_interfaces(own: &NameTable, row: &mut [bool], f: &FolderClass, listed: &[bool])
    requires read { IsReadClass f.now }
    requires listed { MarksOf (length f.now.file.pool) (IsListedName f.now.file) listed.now }
    ensures { Marks (ListsPlace f.now.file own.now) row.old row.new }
{
    for (n, is_listed) in listed.iter().enumerate() {
        if *is_listed {
            mark_text(own, row, f, n as u16);
        }
    }
}

/// Marks of the files, of which there are `count`, to which a file goes.
fn row_of(
    alloc: Global,
    own: &NameTable,
    f: &FolderClass,
    count: usize,
) -> Result<Vec<bool>, OutOfMemory>
    requires { IsReadClass f.now }
    ensures { IfOk result (λ row. MarksOf count (GoesTo f.now.file own.now) row.items) }
{
    let listed = listed_names(alloc, &f.file)?;
    let mut row = vec![in alloc; false; count]?;
    mark_parent(own, &mut row, f);
    mark_interfaces(own, &mut row, f, &listed);
    Ok(row)
}

/// For each file a mark for each file whose class it extends or lists. It takes time in proportion to the files, and to the
/// square of their number.
pub(crate) fn edges(
    alloc: Global,
    folder: &[FolderClass],
    own: &NameTable,
) -> Result<Vec<Vec<bool>>, OutOfMemory>
    requires { AreReadClasses folder.now }
    ensures { IfOk result (λ rows. AreEdges (files_of folder.now) own.now rows.items) }
{
    let mut rows = Vec::with_capacity(alloc, folder.len())?;
    for f in folder {
        let row = row_of(alloc, own, f, folder.len())?;
        rows.push(row)?;
    }
    Ok(rows)
}
