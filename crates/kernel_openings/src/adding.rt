//! Domains that are added.

ghost use Rattle.std.specs.Prelude.{◌≡◌, ◌≢◌, ◌+◌, ◌≤◌, ◌⊎◌, ◌∷◌, ◌++◌, [], true, length, List as AList, Some, Err, IfErr, IfOk, MatchResult, OnErr, OnOk};
ghost use Rattle.std.specs.List.{AllByRecursion};
ghost use Rattle.jk_model.specs.declared.output.Line.{Line as ALine};
ghost use Rattle.jk_model.specs.declared.output.Line.TheVariants as Says;
ghost use Rattle.jk_model.specs.declared.output.Place.{Place as APlace};
ghost use Rattle.jk_model.specs.declared.output.Place.TheVariants as PlaceIs;
ghost use Rattle.jk_model.specs.declared.output.Rule.{Rule as ARule};
ghost use Rattle.jk_model.specs.declared.output.Rule.TheVariants as RuleIs;
ghost use Rattle.jk_model.specs.Outside.{Ask, FolderIsAbsent, HasRisen, ListOf, NeverFalls, Tree, ◌/-◌};
ghost use Rattle.jk_model.specs.ScriptGrammar.{is_name};
ghost use Rattle.jk_outside.specs.Counts.{HasTaken};
ghost use Rattle.folder_reader.specs.AskedOnce.{AsksOnce};
ghost use Rattle.folder_reader.specs.FolderAnswers.{AskedFor, AsksWithin};
ghost use Rattle.jk_model_folders.specs.FolderRules.{IsFolderFault, IsLive};
ghost use Rattle.jk_model_folders.specs.FolderTrees.{MOST_ENTRIES, MOST_LEVELS};
ghost use Rattle.jk_model_machine_state.specs.Machines.{world_of};
ghost use Rattle.kernel_openings.specs.AddedDomains.{AddsDomain, IsCauseOf, IsLacking, Opening, OpensAccepted, line_of};
ghost use Rattle.kernel_openings.specs.declared.answers.AddAnswer.{AddAnswer as AAnswer};
ghost use Rattle.kernel_openings.specs.LoadedFolders.{IsLoadRefusal};

use crate::answers::AddAnswer;
use crate::opening::open;
use folder_loader::{LoadAnswer, load};
use frame_store::FrameStore;
use jk_model::{ClassId, DomainId, Quotas};
use jk_outside::Files;
use kernel_parts::KernelParts;
use machine_laws::folders::accepted_folders_stay_sound;
use object_store::ObjectStore;
use one_verdict::laws::folders_have_one_verdict;

/// Adds the domain of the folder of this name below a root, and answers its number. After an error all is as before.
pub fn add_domain<H: ObjectStore + Drop, F: FrameStore + Drop, R: Files>(
    k: &mut KernelParts<H, F>,
    files: &mut R,
    root: &str,
    name: &str,
    quotas: Quotas,
) -> Result<DomainId, AddAnswer>
    requires named { is_name name.now ≡ true }
    requires words { (44 ≤ quotas.heap) × (quotas.heap ≤ 16777216) }
    requires chunks { (1 ≤ quotas.chunks) × (quotas.chunks ≤ 262144) }
    requires counts { (quotas.threads ≤ 4096) × (quotas.names ≤ 4096) }
    ensures number { IfOk result (λ d. d.0 ≡ length k.old.domains) }
    ensures ok { let o : Opening = record { tree = R.tree files.old; root = root.now; name = name.now; quotas = quotas } in
        OnOk result (AddsDomain o k.old (Says.Loaded name.now ∷ []) k.new) }
    ensures opened { OnOk result (OpensAccepted k.old name.now quotas k.new) }
    // Each error has its cause.
    ensures cause { let o : Opening = record { tree = R.tree files.old; root = root.now; name = name.now; quotas = quotas } in
        IfErr result (IsCauseOf o k.old) }
    // A folder of a told tree that breaks a rule is refused by exactly this rule, there, unless the files fail or memory runs out.
    ensures only_refused { (t : Tree) (rule : ARule) (place : APlace) → R.tree files.old ≡ Some t
        → IsFolderFault t root.now (world_of k.old) name.now rule place
        → MatchResult result (λ _. ⊥) (λ e. (e ≡ AddAnswer.Refused rule place) ⊎ (e ≡ AddAnswer.ReadFault) ⊎ (e ≡ AddAnswer.OutOfMemory)) }
    // Of a folder of a told tree that breaks no rule the first thing that is lacking is answered, unless the files fail or memory runs out.
    ensures only_lacking { let o : Opening = record { tree = R.tree files.old; root = root.now; name = name.now; quotas = quotas } in
        (t : Tree) (e : AAnswer) → R.tree files.old ≡ Some t → IsLacking e → IsCauseOf o k.old e
        → MatchResult result (λ _. ⊥) (λ a. (a ≡ e) ⊎ (a ≡ AddAnswer.ReadFault) ⊎ (a ≡ AddAnswer.OutOfMemory)) }
    // What the event prints at an answer leads to the machine as it was.
    ensures refused { let o : Opening = record { tree = R.tree files.old; root = root.now; name = name.now; quotas = quotas } in
        IfErr result (λ e. (line : ALine) → line_of name.now e ≡ Some line → AddsDomain o k.old (line ∷ []) k.old) }
    // L2 comes where the folder was asked for and isn't there: where no tree is told, a fault was counted.
    ensures no_folder { result ≡ Err (AddAnswer.Refused RuleIs.L2 PlaceIs.Whole)
        → FolderIsAbsent (R.tree files.old) (root.now /- name.now) (R.faults files.old) (R.faults files.new) }
    ensures missed { result ≡ Err (AddAnswer.Refused RuleIs.L2 PlaceIs.Whole)
        → AskedFor (R.asked files.old) (R.asked files.new) (ListOf (root.now /- name.now) MOST_ENTRIES) }
    // L5 comes of files that tell no tree where more was taken than the least limit of L5 allows.
    ensures large { result ≡ Err (AddAnswer.Refused RuleIs.L5 PlaceIs.Whole)
        → HasTaken (R.tree files.old) (MOST_LEVELS + 1) (R.taken files.old) (R.taken files.new) }
    // The name of a live domain is refused by L1 alone, and nothing is asked for it.
    ensures live { IsLive (world_of k.old) name.now → result ≡ Err (AddAnswer.Refused RuleIs.L1 PlaceIs.Whole) }
    ensures live_asks { IsLive (world_of k.old) name.now → R.asked files.new ≡ R.asked files.old }
    ensures err { OnErr result (k.new ≡ k.old) }
    ensures read_fault { result ≡ Err AddAnswer.ReadFault → HasRisen (R.faults files.old) (R.faults files.new) }
    // It is never answered before something was asked.
    ensures something { result ≡ Err AddAnswer.ReadFault → R.asked files.new ≢ R.asked files.old }
    // An answer other than `ReadFault` counted no fault of told files.
    ensures calm { (t : Tree) → R.tree files.old ≡ Some t → result ≢ Err AddAnswer.ReadFault → R.faults files.new ≡ R.faults files.old }
    ensures stays { R.tree files.new ≡ R.tree files.old }
    ensures faults { NeverFalls (R.faults files.old) (R.faults files.new) }
    ensures taken { NeverFalls (R.taken files.old) (R.taken files.new) }
    ensures asks { (more : AList Ask) × (R.asked files.new ≡ R.asked files.old ++ more) × AllByRecursion (AsksWithin (root.now /- name.now)) more }
    // Each file is asked for at most once, and each folder of a told tree.
    ensures once { AsksOnce (R.tree files.old) (R.asked files.old) (R.asked files.new) }
    ensures counts { (k.new.next_thread ≡ k.old.next_thread) × (k.new.next_segment ≡ k.old.next_segment) }
{
    accepted_folders_stay_sound();
    folders_have_one_verdict();
    k.shared.is_sound();
    let first = ClassId(k.world.classes().len() as u32);
    let number = DomainId(k.world.domain_count() as u32);
    let loaded = match load(k.alloc, files, root, name, &mut k.world) {
        Ok(loaded) => loaded,
        Err(e) => return Err(not_loaded(e)),
    };
    k.world.holds();
    match open(
        k.alloc,
        &mut k.world,
        &mut k.owns,
        &mut k.shared,
        &mut k.heap,
        &mut k.frames,
        loaded,
        name,
        &quotas,
    ) {
        Ok(()) => Ok(number),
        Err(e) => {
            k.world.cut_classes(first);
            Err(e)
        }
    }
}

/// What is answered of a folder that isn't loaded.
fn not_loaded(e: LoadAnswer) -> AddAnswer
    ensures { IsLoadRefusal e result }
{
    match e {
        LoadAnswer::Refused(rule, place) => AddAnswer::Refused(rule, place),
        LoadAnswer::ReadFault => AddAnswer::ReadFault,
        LoadAnswer::OutOfMemory => AddAnswer::OutOfMemory,
    }
}
