//! C19: what a class may not extend or list.

ghost use Rattle.std.specs.Prelude.{◌≡◌, ◌↔◌, ℕ, ◌<◌, IfOk, IfNone, IfSome, IsTrue, Some, length, slice_get};
ghost use Rattle.jk_model.specs.declared.class_file.ClassFile.{ClassFile as AClassFile};
ghost use Rattle.jk_model_classes.specs.Items.{Member, Spot};
ghost use Rattle.jk_model_classes.specs.References.{HasBadHierarchy, HasBadInterface, HasBadParent, MissesClass};
ghost use Rattle.name_rules.specs.BadHierarchies.{HasOwnNames, IsBadAt, IsBadParent, IsNoInterface, IsUnfit, TextIsBad, folder_scope};
ghost use Rattle.class_files.specs.FolderClasses.{AreReadClasses, IsReadClass, files_of};
ghost use Rattle.name_rules.specs.FolderNames.{AreOwnNames};
ghost use Rattle.name_rules.specs.Graphs.{IsSquare};

use crate::edges::{edges, listed_names};
use crate::rings::{close, has_edge};
use crate::scope::{Scope, flags_of, is_closed};
use class_files::FolderClass;
use class_table::ClassTable;
use domain_resolver::NameTable;
use jk_model::{AccessFlags, ClassFile, OutOfMemory, has};
use shared_values::Text;
use std::alloc::Global;

/// `java/lang/Object`
const OBJECT: [u16; 16] = [
    106, 97, 118, 97, 47, 108, 97, 110, 103, 47, 79, 98, 106, 101, 99, 116,
];

/// Whether a name means an interface or a final class.
fn is_unfit(x: &Scope, name: &[u16]) -> bool
    requires { HasOwnNames x.now }
    ensures { IsTrue result ↔ IsUnfit (folder_scope x.now) name.now }
{
    match flags_of(x, name) {
        Some(flags) => has(flags, AccessFlags::INTERFACE) || has(flags, AccessFlags::FINAL),
        None => false,
    }
}

/// Whether a name means a class that isn't an interface.
fn is_no_interface(x: &Scope, name: &[u16]) -> bool
    requires { HasOwnNames x.now }
    ensures { IsTrue result ↔ IsNoInterface (folder_scope x.now) name.now }
{
    match flags_of(x, name) {
        Some(flags) => !has(flags, AccessFlags::INTERFACE),
        None => false,
    }
}

/// Whether a class file may not extend the class of a name.
fn is_bad_parent(x: &Scope, c: &ClassFile, name: &Text) -> bool
    requires { HasOwnNames x.now }
    ensures { IsTrue result ↔ IsBadParent (folder_scope x.now) c.now name.now }
{
    if is_closed(name.as_slice()) {
        return true;
    }
    if is_unfit(x, name.as_slice()) {
        return true;
    }
    has(c.flags, AccessFlags::INTERFACE) && !name.is(&OBJECT)
}

/// Whether a class file extends what it may not.
fn has_bad_parent(x: &Scope, f: &FolderClass) -> bool
    requires own { HasOwnNames x.now }
    requires read { IsReadClass f.now }
    ensures { IsTrue result ↔ HasBadParent (folder_scope x.now) f.now.file }
{
    match f
        .texts
        .class_name(f.file.pool.as_slice(), f.file.super_class)
    {
        Some(name) => is_bad_parent(x, &f.file, name),
        None => false,
    }
}

/// Whether the text at an index is the name of a class that isn't an interface.
fn text_is_bad(x: &Scope, f: &FolderClass, n: u16) -> bool
    requires own { HasOwnNames x.now }
    requires read { IsReadClass f.now }
    ensures { IsTrue result ↔ TextIsBad (folder_scope x.now) f.now.file n }
{
    match f.texts.text(n) {
        Some(name) => is_no_interface(x, name.as_slice()),
        None => false,
    }
}

/// Whether a class file lists what isn't an interface.
fn has_bad_interface(alloc: Global, x: &Scope, f: &FolderClass) -> Result<bool, OutOfMemory>
    requires own { HasOwnNames x.now }
    requires read { IsReadClass f.now }
    ensures { IfOk result (λ r. IsTrue r ↔ HasBadInterface (folder_scope x.now) f.now.file) }
{
    let listed = listed_names(alloc, &f.file)?;
    for (n, is_listed) in listed.iter().enumerate() {
        if *is_listed && text_is_bad(x, f, n as u16) {
            return Ok(true);
        }
    }
    Ok(false)
}

/// Whether the file at a place goes to itself, or extends or lists what it may not.
fn is_bad(
    alloc: Global,
    x: &Scope,
    above: &[Vec<bool>],
    i: usize,
    f: &FolderClass,
) -> Result<bool, OutOfMemory>
    requires own { HasOwnNames x.now }
    requires read { IsReadClass f.now }
    requires square { IsSquare above.now }
    requires place { i < length above.now }
    ensures { IfOk result (λ r. IsTrue r ↔ IsBadAt (folder_scope x.now) above.now i f.now.file) }
{
    if has_edge(above, i, i) {
        return Ok(true);
    }
    if has_bad_parent(x, f) {
        return Ok(true);
    }
    has_bad_interface(alloc, x, f)
}

/// The place of the first class file of a folder whose class is its own ancestor, or extends or lists what it may not; none
/// where there is none. It takes time in proportion to the files, and to the cube of their number, of which there are few.
pub fn first_bad_hierarchy(
    alloc: Global,
    t: &ClassTable,
    folder: &[FolderClass],
    outer: &NameTable,
    own: &NameTable,
) -> Result<Option<usize>, OutOfMemory>
    requires read { AreReadClasses folder.now }
    requires own { AreOwnNames (files_of folder.now) own.now }
    requires known { (i : ℕ) (c : AClassFile) (spot : Spot) → slice_get (files_of folder.now) i ≡ Some c
        → MissesClass (record { files = files_of folder.now; names = outer.now; classes = t.now }) c spot → ⊥ }
    ensures bad { IfOk result (λ found. IfSome found (λ i. (c : AClassFile) × (slice_get (files_of folder.now) i ≡ Some c)
        × HasBadHierarchy (record { files = files_of folder.now; names = outer.now; classes = t.now }) c (Member 0))) }
    ensures first { IfOk result (λ found. IfSome found (λ i. (j : ℕ) (c : AClassFile) (spot : Spot) → j < i → slice_get (files_of folder.now) j ≡ Some c
        → HasBadHierarchy (record { files = files_of folder.now; names = outer.now; classes = t.now }) c spot → ⊥)) }
    ensures none { IfOk result (λ found. IfNone found ((j : ℕ) (c : AClassFile) (spot : Spot) → slice_get (files_of folder.now) j ≡ Some c
        → HasBadHierarchy (record { files = files_of folder.now; names = outer.now; classes = t.now }) c spot → ⊥)) }
{
    let mut above = edges(alloc, folder, own)?;
    close(&mut above);
    let scope = Scope {
        table: t,
        folder,
        outer,
        own,
    };
    for (i, f) in folder.iter().enumerate() {
        if is_bad(alloc, &scope, &above, i, f)? {
            return Ok(Some(i));
        }
    }
    Ok(None)
}
