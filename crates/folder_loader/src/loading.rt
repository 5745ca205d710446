//! A folder by its name below a root.

ghost use Rattle.std.specs.Prelude.{◌≡◌, ◌≢◌, ◌+◌, ◌++◌, ◌↔◌, ◌⊎◌, IsTrue, IfOk, MatchResult, OnErr, Err, List, Some, string_bytes};
ghost use Rattle.std.specs.List.{AllByRecursion};
ghost use Rattle.jk_model.specs.declared.output.Place.{Place as APlace};
ghost use Rattle.jk_model.specs.declared.output.Rule.{Rule as ARule};
ghost use Rattle.jk_model.specs.declared.output.Place.TheVariants as PlaceIs;
ghost use Rattle.jk_model.specs.declared.output.Rule.TheVariants as RuleIs;
ghost use Rattle.jk_model.specs.Outside.{Ask, FolderIsAbsent, HasRisen, ListOf, NeverFalls, Tree, ◌/-◌};
ghost use Rattle.jk_model_folders.specs.FolderRules.{IsFolderFault, IsLive};
ghost use Rattle.jk_model_folders.specs.FolderTrees.{MOST_ENTRIES, MOST_LEVELS};
ghost use Rattle.jk_model_folders.specs.Loads.{MayLoad};
ghost use Rattle.jk_outside.specs.Counts.{HasTaken};
ghost use Rattle.folder_reader.specs.AskedOnce.{AsksOnce};
ghost use Rattle.folder_reader.specs.FolderAnswers.{AskedFor, AsksWithin};
ghost use Rattle.folder_loader.specs.LinkedFolders.{AreTypedFrom};
ghost use Rattle.folder_loader.specs.LoadAnswers.{HasLoaded, IsRefused, IsReadRefusal};

use crate::answers::{LoadAnswer, Loaded};
use crate::told::load_files;
use domain_resolver::World;
use folder_reader::{FolderError, read_folder};
use jk_model::{OutOfMemory, Place, Rule};
use jk_outside::Files;
use std::alloc::Global;

/// Whether a live domain has this name.
fn is_live(world: &World, name: &str) -> bool
    ensures { IsTrue result ↔ IsLive world.now name.now }
{
    world.live_named(name.as_bytes()).is_some()
}

/// The path of the folder of a name below a root.
fn folder_path(alloc: Global, root: &str, name: &str) -> Result<String, OutOfMemory>
    ensures { IfOk result (λ path. string_bytes path ≡ (root.now /- name.now)) }
{
    let mut path = String::from_str(alloc, root)?;
    path.push('/')?;
    path.push_str(name)?;
    Ok(path)
}

/// What is answered of a folder whose files weren't read.
fn not_read(e: FolderError) -> LoadAnswer
    ensures { IsReadRefusal e result }
{
    match e {
        FolderError::NoFolder => LoadAnswer::Refused(Rule::L2, Place::Whole),
        FolderError::TooLarge => LoadAnswer::Refused(Rule::L5, Place::Whole),
        FolderError::ReadFault => LoadAnswer::ReadFault,
        FolderError::OutOfMemory => LoadAnswer::OutOfMemory,
    }
}

/// Loads the folder of a domain below a root: its classes stand behind those that were loaded, and what the domain is to have
/// is answered. Or it answers the first rule that the folder breaks, and where.
///
/// The domain gets the next number; it isn't added here. Each file is read once, and each class judged once.
pub fn load<F: Files>(
    alloc: Global,
    files: &mut F,
    root: &str,
    name: &str,
    world: &mut World,
) -> Result<Loaded, LoadAnswer>
    requires { MayLoad world.old }
    // The folder has files, in a told tree those that stand in it, and these break no rule.
    ensures ok { IfOk result (λ l. HasLoaded (F.tree files.old) (root.now /- name.now) world.old name.now l world.new) }
    // Each method with code of the folder's classes has a least typing among all classes.
    ensures typed { IfOk result (λ l. AreTypedFrom world.new.classes l.first) }
    ensures err { OnErr result (world.new ≡ world.old) }

    ensures refused { (rule : ARule) (place : APlace) → result ≡ Err (LoadAnswer.Refused rule place)
        → IsRefused (F.tree files.old) root.now world.old name.now rule place }
    ensures folder_fault { (t : Tree) (rule : ARule) (place : APlace) → F.tree files.old ≡ Some t → result ≡ Err (LoadAnswer.Refused rule place)
        → IsFolderFault t root.now world.old name.now rule place }
    // A folder of a told tree that breaks a rule is refused by exactly this rule, there, unless the files fail or memory runs out.
    ensures only_refused { (t : Tree) (rule : ARule) (place : APlace) → F.tree files.old ≡ Some t
        → IsFolderFault t root.now world.old name.now rule place
        → MatchResult result (λ _. ⊥) (λ e. (e ≡ LoadAnswer.Refused rule place) ⊎ (e ≡ LoadAnswer.ReadFault) ⊎ (e ≡ LoadAnswer.OutOfMemory)) }
    // L2 comes where the folder was asked for and isn't there: where no tree is told, a fault was counted.
    ensures no_folder { result ≡ Err (LoadAnswer.Refused RuleIs.L2 PlaceIs.Whole)
        → FolderIsAbsent (F.tree files.old) (root.now /- name.now) (F.faults files.old) (F.faults files.new) }
    ensures missed { result ≡ Err (LoadAnswer.Refused RuleIs.L2 PlaceIs.Whole)
        → AskedFor (F.asked files.old) (F.asked files.new) (ListOf (root.now /- name.now) MOST_ENTRIES) }
    // L5 comes of files that tell no tree where more was taken than the least limit of L5 allows.
    ensures large { result ≡ Err (LoadAnswer.Refused RuleIs.L5 PlaceIs.Whole)
        → HasTaken (F.tree files.old) (MOST_LEVELS + 1) (F.taken files.old) (F.taken files.new) }
    // The name of a live domain is refused by L1 alone, and nothing is asked for it.
    ensures live { IsLive world.old name.now → result ≡ Err (LoadAnswer.Refused RuleIs.L1 PlaceIs.Whole) }
    ensures live_asks { IsLive world.old name.now → F.asked files.new ≡ F.asked files.old }
    ensures read_fault { result ≡ Err LoadAnswer.ReadFault → HasRisen (F.faults files.old) (F.faults files.new) }
    // It is never answered before something was asked.
    ensures something { result ≡ Err LoadAnswer.ReadFault → F.asked files.new ≢ F.asked files.old }

    // An answer other than `ReadFault` counted no fault of told files.
    ensures calm { (t : Tree) → F.tree files.old ≡ Some t → result ≢ Err LoadAnswer.ReadFault → F.faults files.new ≡ F.faults files.old }
    ensures stays { F.tree files.new ≡ F.tree files.old }
    ensures faults { NeverFalls (F.faults files.old) (F.faults files.new) }
    ensures taken { NeverFalls (F.taken files.old) (F.taken files.new) }
    ensures asks { (more : List Ask) × (F.asked files.new ≡ F.asked files.old ++ more) × AllByRecursion (AsksWithin (root.now /- name.now)) more }
    // Each file is asked for at most once, and each folder of a told tree.
    ensures once { AsksOnce (F.tree files.old) (F.asked files.old) (F.asked files.new) }
{
    if is_live(world, name) {
        return Err(LoadAnswer::Refused(Rule::L1, Place::Whole));
    }
    let folder = folder_path(alloc, root, name)?;
    match read_folder(alloc, files, folder.as_str()) {
        Ok(found) => load_files(alloc, &found, name.as_bytes(), world),
        Err(e) => Err(not_read(e)),
    }
}
