//! A folder's files, with the names of its class files in an index.

ghost use Rattle.std.specs.Prelude.{◌≡◌, ◌≤◌, ◌⊎◌, ◌↔◌, ◌++◌, ℕ, List, codes, map, length, IfOk, IsTrue, IsUtf8, OnOk, MatchOption};
ghost use Rattle.std.specs.List.{AllByRecursion};
ghost use Rattle.jk_model.specs.Text.{utf16_of};
ghost use Rattle.jk_model_classes.specs.ResolverRules.{HasFileOf};
ghost use Rattle.jk_model_folders.specs.declared.files.FolderFile.{FolderFile as AFile};
ghost use Rattle.jk_model_folders.specs.FolderRules.{class_paths};
ghost use Rattle.jk_model_folders.specs.FolderTrees.{AreFiles, MAX_FILE};
ghost use Rattle.resolver_rules.specs.ClassNames.{AreNamesOf, has_name};

use jk_model::OutOfMemory;
use jk_model_folders::{FolderFile, FolderFiles};
use std::alloc::Global;
use std::collections::BTreeSet;
use std::marker::Model;

/// The units of `.class`.
const SUFFIX: [u16; 6] = [46, 99, 108, 97, 115, 115];

/// Names of classes, in UTF-16 code units.
type ClassNames = BTreeSet<Vec<u16>>;

/// A folder's files, which are all that a contract sees, and the names under which its class files stand.
#[derive(Drop)]
pub(crate) struct Folder<'f> {
    files: &'f FolderFiles,
    names: ClassNames,
}

impl<'f> Model for Folder<'f> {
    ghost use Rattle.jk_model_folders.specs.declared.files.FolderFiles.{FolderFiles};
    ghost use Rattle.jk_model_folders.specs.FolderRules.{class_paths};
    ghost use Rattle.jk_model_folders.specs.FolderTrees.{AreFiles};
    ghost use Rattle.resolver_rules.specs.ClassNames.{AreNamesOf};

    ghost Value = { FolderFiles };

    ghost view = { λ f. f.files.now };

    ghost invariant = { λ f. AreFiles f.files.now × AreNamesOf (class_paths f.files.now) f.names };
}

impl<'f> Folder<'f> {
    /// These files. It takes time in proportion to n log n for n class files, and memory in proportion to their
    /// paths.
    pub(crate) fn of(alloc: Global, files: &'f FolderFiles) -> Result<Folder<'f>, OutOfMemory>
        requires { AreFiles files.now }
        ensures { IfOk result (λ folder. folder ≡ files.now) }
    {
        let names = names_of(alloc, files.classes.as_slice())?;
        Ok(Folder { files, names })
    }

    /// Whether the folder has a class file under the path of this name. It takes no memory, and time in
    /// proportion to log n for n class files.
    pub(crate) fn has_class(&self, name: &[u16]) -> bool
        ensures { IsTrue result ↔ HasFileOf (class_paths self.now) name.now }
    {
        self.names.contains(name)
    }

    /// The bytes of `resolver.txt`.
    pub(crate) fn resolver(&self) -> &[u8]
        ensures bytes { result.now ≡ self.now.resolver }
        ensures short { length result.now ≤ MAX_FILE }
    {
        self.files.resolver.as_slice()
    }
}

/// The path in bytes of UTF-8.
fn text_of(bytes: &[u8]) -> &str
    requires { IsUtf8 bytes.now }
    ensures { result.now ≡ bytes.now }
{
    match str::from_utf8(bytes) {
        Ok(text) => text,
        Err(_) => unreachable!(),
    }
}

/// The units of a text in UTF-8.
fn utf16(alloc: Global, text: &str) -> Result<Vec<u16>, OutOfMemory>
    ensures { IfOk result (λ units. units.items ≡ utf16_of text.now) }
{
    let mut units = Vec::new(alloc);
    for c in text.chars() {
        units.extend_from_slice(c.encode_utf16(&mut [0; 2]))?;
    }
    Ok(units)
}

/// What stands before `.class`, or none where the units don't end so.
fn stem(path: &[u16]) -> Option<&[u16]>
    ensures { MatchOption result ((name : List ℕ) → path.now ≡ name ++ codes ".class" → ⊥) (λ name. path.now ≡ name.now ++ codes ".class") }
{
    path.strip_suffix(&SUFFIX)
}

/// Takes in the name of the class that stands under a path.
fn take_name(alloc: Global, names: &mut ClassNames, path: &[u8]) -> Result<(), OutOfMemory>
    requires { IsUtf8 path.now }
    ensures { OnOk result ((name : List ℕ) → IsTrue (has_name names.new name)
        ↔ (IsTrue (has_name names.old name) ⊎ (utf16_of path.now ≡ name ++ codes ".class"))) }
{
    let units = utf16(alloc, text_of(path))?;
    if let Some(name) = stem(units.as_slice()) {
        let name = Vec::from_slice(alloc, name)?;
        names.insert(name)?;
    }
    Ok(())
}

/// The names under which class files stand.
fn names_of(alloc: Global, files: &[FolderFile]) -> Result<ClassNames, OutOfMemory>
    requires { AllByRecursion (λ (f : AFile). IsUtf8 f.path) files.now }
    ensures { IfOk result (AreNamesOf (map (λ (f : AFile). f.path) files.now)) }
{
    let mut names = BTreeSet::new(alloc);
    for file in files {
        take_name(alloc, &mut names, file.path.as_slice())?;
    }
    Ok(names)
}
