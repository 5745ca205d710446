//! The classes of a folder among all others.

ghost use Rattle.std.specs.Prelude.{◌≡◌, ◌≤◌, IfOk, OnErr, Err, length, List as AList};
ghost use Rattle.jk_model_classes.specs.declared.sharing.ResolverLine.{ResolverLine as ALine};
ghost use Rattle.jk_model_classes.specs.Worlds.{NamedClass, WorldRecord};
ghost use Rattle.jk_model_folders.specs.FolderRules.{BreaksNames, NoneBroken, name_rules};
ghost use Rattle.jk_model_folders.specs.FolderTrees.{MOST_FILES};
ghost use Rattle.jk_model_folders.specs.Loads.{MayLoad};
ghost use Rattle.class_files.specs.FolderClasses.{AreReadClasses, files_of};
ghost use Rattle.class_files.specs.declared.faults.ClassFilesError.TheVariants as Why;
ghost use Rattle.class_files.specs.declared.faults.FileFault.{FileFault as AFault};
ghost use Rattle.folder_loader.specs.ClassesInOrder.{StandsUnlinked};
ghost use Rattle.folder_loader.specs.JudgedClasses.{IsFirstOf, IsJudged};
ghost use Rattle.folder_loader.specs.LinkedFolders.{AreLinkable, ArePathsInOrder, AreTypedFrom, IsLinkedFolder, HasMoreClasses, IsLinkFault, IsPlacedFault};
ghost use Rattle.name_rules.specs.FolderNames.{AreOwnNames};

use crate::all_links::set_links;
use crate::answers::Loaded;
use crate::judged_classes::{judge_code, judge_links, judge_shared};
use crate::judged_names::judge_names;
use crate::own_names::own_names;
use crate::placed::{Placed, placed_classes};
use crate::stubs::stubs_of;
use class_files::{ClassFilesError, FolderClass};
use domain_resolver::{NameTable, World};
use jk_model::{ClassId, List};
use jk_model_classes::{Link, Stub};
use resolver_rules::OuterNames;
use std::alloc::Global;

/// Gives the classes of a folder, which stand behind the others, their links, where they break none of C20 to C27, and answers
/// the stubs; or answers the first of these rules that one breaks.
fn linked_classes(
    alloc: Global,
    classes: &[FolderClass],
    placed: &Placed,
    links: List<List<Link>>,
    world: &mut World,
) -> Result<List<Stub>, ClassFilesError>
    requires read { AreReadClasses classes.now }
    requires stands { (w : WorldRecord) × (lines : AList ALine) × (names : AList NamedClass)
        × StandsUnlinked w lines (files_of classes.now) names placed.now links world.old }
    ensures ok { IfOk result (λ stubs. (w : WorldRecord) (lines : AList ALine) (names : AList NamedClass)
        (s : StandsUnlinked w lines (files_of classes.now) names placed.now links world.old)
        → IsJudged w (files_of classes.now) placed.now.first s.0.placed stubs world.new) }
    ensures typed { IfOk result (λ _. AreTypedFrom world.new.classes placed.now.first) }
    ensures err { OnErr result ((w : WorldRecord) (lines : AList ALine) (names : AList NamedClass)
        → StandsUnlinked w lines (files_of classes.now) names placed.now links world.old → HasMoreClasses w world.new) }
    ensures fault { (fault : AFault) → result ≡ Err (Why.Broken fault) → ArePathsInOrder (files_of classes.now)
        → (w : WorldRecord) (lines : AList ALine) (names : AList NamedClass)
        (s : StandsUnlinked w lines (files_of classes.now) names placed.now links world.old) → IsFirstOf w (files_of classes.now) s.0.placed fault }
{
    if let Err(e) = judge_links(alloc, world.classes(), classes, placed, links.as_slice()) {
        return Err(e);
    }
    let _count = world.classes().len();
    set_links(alloc, world, placed.first, links);
    if let Err(e) = judge_code(alloc, world.classes(), classes, placed) {
        return Err(e);
    }
    if let Err(e) = judge_shared(world, classes, placed) {
        return Err(e);
    }
    let stubs = stubs_of(alloc, world.classes(), placed.first)?;
    Ok(stubs)
}

/// What the folder brings.
fn loaded(placed: Placed, stubs: List<Stub>) -> Loaded
    ensures { result ≡ record { first = placed.first; table = placed.names; offers = placed.offers; stubs = stubs } }
{
    Loaded {
        first: placed.first,
        table: placed.names,
        offers: placed.offers,
        stubs,
    }
}

/// Puts the class files of a folder, which break neither C18 nor C19, behind the classes that are loaded, where they break none
/// of C20 to C27; or answers the first of these rules that one breaks. After an error some classes may stand behind the others.
fn classes_behind(
    alloc: Global,
    classes: &[FolderClass],
    outer: OuterNames,
    own: &NameTable,
    world: &mut World,
) -> Result<Loaded, ClassFilesError>
    requires may { MayLoad world.old }
    requires read { AreReadClasses classes.now }
    requires few { length classes.now ≤ MOST_FILES }
    requires linkable { AreLinkable world.old (files_of classes.now) outer.lines outer.names }
    requires own { AreOwnNames (files_of classes.now) own.now }
    requires named { NoneBroken name_rules (BreaksNames world.old (files_of classes.now) outer.names) }
    ensures ok { IfOk result (λ l. IsLinkedFolder world.old outer.lines (files_of classes.now) outer.names l world.new) }
    ensures typed { IfOk result (λ l. AreTypedFrom world.new.classes l.first) }
    ensures err { OnErr result (HasMoreClasses world.old world.new) }
    ensures fault { (fault : AFault) → result ≡ Err (Why.Broken fault)
        → IsPlacedFault world.old outer.lines (files_of classes.now) outer.names fault }
{
    let (placed, links) = placed_classes(alloc, classes, outer, own, world)?;
    match linked_classes(alloc, classes, &placed, links, world) {
        Ok(stubs) => Ok(loaded(placed, stubs)),
        Err(e) => Err(e),
    }
}

/// The same, and after an error all classes are as before.
fn place_classes(
    alloc: Global,
    classes: &[FolderClass],
    outer: OuterNames,
    own: &NameTable,
    world: &mut World,
) -> Result<Loaded, ClassFilesError>
    requires may { MayLoad world.old }
    requires read { AreReadClasses classes.now }
    requires few { length classes.now ≤ MOST_FILES }
    requires linkable { AreLinkable world.old (files_of classes.now) outer.lines outer.names }
    requires own { AreOwnNames (files_of classes.now) own.now }
    requires named { NoneBroken name_rules (BreaksNames world.old (files_of classes.now) outer.names) }
    ensures ok { IfOk result (λ l. IsLinkedFolder world.old outer.lines (files_of classes.now) outer.names l world.new) }
    ensures typed { IfOk result (λ l. AreTypedFrom world.new.classes l.first) }
    ensures err { OnErr result (world.new ≡ world.old) }
    ensures fault { (fault : AFault) → result ≡ Err (Why.Broken fault)
        → IsPlacedFault world.old outer.lines (files_of classes.now) outer.names fault }
{
    let first = ClassId(world.classes().len() as u32);
    match classes_behind(alloc, classes, outer, own, world) {
        Ok(loaded) => Ok(loaded),
        Err(e) => {
            world.cut_classes(first);
            Err(e)
        }
    }
}

/// Puts the class files of a folder behind the classes that are loaded, where they break none of C18 to C27, and answers what
/// the folder brings; or answers the first of these rules that one breaks, and then all classes are as before.
pub(crate) fn link_classes(
    alloc: Global,
    classes: &[FolderClass],
    outer: OuterNames,
    world: &mut World,
) -> Result<Loaded, ClassFilesError>
    requires may { MayLoad world.old }
    requires read { AreReadClasses classes.now }
    requires few { length classes.now ≤ MOST_FILES }
    requires linkable { AreLinkable world.old (files_of classes.now) outer.lines outer.names }
    ensures ok { IfOk result (λ l. IsLinkedFolder world.old outer.lines (files_of classes.now) outer.names l world.new) }
    ensures typed { IfOk result (λ l. AreTypedFrom world.new.classes l.first) }
    ensures err { OnErr result (world.new ≡ world.old) }
    ensures fault { (fault : AFault) → result ≡ Err (Why.Broken fault)
        → IsLinkFault world.old outer.lines (files_of classes.now) outer.names fault }
{
    let own = match own_names(alloc, classes) {
        Ok(own) => own,
        Err(_) => return Err(ClassFilesError::OutOfMemory),
    };
    match judge_names(alloc, world, classes, &outer.names, &own) {
        Ok(()) => place_classes(alloc, classes, outer, &own, world),
        Err(e) => Err(e),
    }
}
