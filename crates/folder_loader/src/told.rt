//! A folder by its files.

ghost use Rattle.std.specs.Prelude.{◌≡◌, ℕ, IfOk, OnErr, Err, List, Some, slice_get};
ghost use Rattle.jk_model.specs.declared.output.Place.{Place as APlace};
ghost use Rattle.jk_model.specs.declared.output.Rule.{Rule as ARule};
ghost use Rattle.jk_model_folders.specs.FolderRules.{AreOuterNames, HasGoodLines, IsClassFault, IsFilesFault, IsLive};
ghost use Rattle.jk_model_folders.specs.FolderTrees.{AreFiles};
ghost use Rattle.jk_model_folders.specs.Loads.{Loads, MayLoad};
ghost use Rattle.class_files.specs.declared.faults.ClassFilesError.TheVariants as Why;
ghost use Rattle.class_files.specs.declared.faults.FileFault.{FileFault as AFault};
ghost use Rattle.folder_loader.specs.LinkedFolders.{AreTypedFrom, IsLinkedFiles};
ghost use Rattle.folder_loader.specs.Refusals.{IsFileThere, IsLineRefusal, IsFileRefusal};

use crate::answers::{LoadAnswer, Loaded};
use crate::placing::link_classes;
use class_files::{ClassFilesError, class_files};
use domain_resolver::World;
use jk_model::{Bytes, Place, Rule};
use jk_model_folders::FolderFiles;
use resolver_rules::{OuterNames, ResolverFault, outer_names};
use shared_interfaces::laws::paths_are_in_the_order_of_bytes;
use std::alloc::Global;

/// The refusal of a folder for a line of its `resolver.txt`.
fn line_refusal(alloc: Global, fault: ResolverFault) -> LoadAnswer
    ensures { IsLineRefusal fault result }
{
    let (rule, number) = match fault {
        ResolverFault::BadLine(line) => (Rule::L6, line),
        ResolverFault::NotOffered(line) => (Rule::L7, line),
        ResolverFault::OutOfMemory => return LoadAnswer::OutOfMemory,
    };
    match Bytes::from_slice(alloc, b"resolver.txt") {
        Ok(path) => LoadAnswer::Refused(rule, Place::At { path, number }),
        Err(_) => LoadAnswer::OutOfMemory,
    }
}

/// The refusal of a folder for one of its class files.
fn file_refusal(alloc: Global, files: &FolderFiles, e: ClassFilesError) -> LoadAnswer
    requires { IsFileThere files.now e }
    ensures { IsFileRefusal files.now e result }
{
    let ClassFilesError::Broken(fault) = e else {
        return LoadAnswer::OutOfMemory;
    };
    let classes = files.classes.as_slice();
    let number = fault.number;
    match classes[fault.file].path.copied() {
        Ok(path) => LoadAnswer::Refused(fault.rule, Place::At { path, number }),
        Err(_) => LoadAnswer::OutOfMemory,
    }
}

/// Loads the class files of a folder.
fn load_classes(
    alloc: Global,
    files: &FolderFiles,
    outer: OuterNames,
    world: &mut World,
) -> Result<Loaded, ClassFilesError>
    requires may { MayLoad world.old }
    requires files { AreFiles files.now }
    requires lines { (into : List ℕ) × HasGoodLines files.now world.old into outer.lines × AreOuterNames world.old into outer.lines outer.names }
    ensures ok { IfOk result (λ l. IsLinkedFiles files.now world.old outer.lines outer.names l world.new) }
    // Each method with code of the folder's classes has a least typing among all classes.
    ensures typed { IfOk result (λ l. AreTypedFrom world.new.classes l.first) }
    ensures err { OnErr result (world.new ≡ world.old) }
    // Whatever domain these lines are good for.
    ensures fault { (fault : AFault) (into : List ℕ) → result ≡ Err (Why.Broken fault) → HasGoodLines files.now world.old into outer.lines
        → AreOuterNames world.old into outer.lines outer.names → IsClassFault files.now world.old into fault.rule fault.file fault.number }
{
    paths_are_in_the_order_of_bytes();
    match class_files(alloc, files) {
        Ok(classes) => link_classes(alloc, classes.as_slice(), outer, world),
        Err(e) => Err(e),
    }
}

/// Loads the files of a folder for the domain of this name, which isn't live.
pub(crate) fn load_files(
    alloc: Global,
    files: &FolderFiles,
    name: &[u8],
    world: &mut World,
) -> Result<Loaded, LoadAnswer>
    requires may { MayLoad world.old }
    requires files { AreFiles files.now }
    requires not_live { IsLive world.old name.now → ⊥ }
    ensures ok { IfOk result (λ l. Loads files.now world.old name.now l.first l.table l.offers l.stubs world.new) }
    // Each method with code of the folder's classes has a least typing among all classes.
    ensures typed { IfOk result (λ l. AreTypedFrom world.new.classes l.first) }
    ensures err { OnErr result (world.new ≡ world.old) }
    ensures refused { (rule : ARule) (place : APlace) → result ≡ Err (LoadAnswer.Refused rule place)
        → IsFilesFault files.now world.old name.now rule place }
    ensures no_read_fault { result ≡ Err LoadAnswer.ReadFault → ⊥ }
{
    let outer = match outer_names(alloc, files, world, name) {
        Ok(outer) => outer,
        Err(fault) => return Err(line_refusal(alloc, fault)),
    };
    match load_classes(alloc, files, outer, world) {
        Ok(loaded) => Ok(loaded),
        Err(e) => Err(file_refusal(alloc, files, e)),
    }
}
