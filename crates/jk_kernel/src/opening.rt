//! Domains that are opened.

ghost use Rattle.std.specs.Prelude.{◌≡◌, ◌≢◌, ◌+◌, ◌≤◌, ◌⊎◌, ◌∷◌, ◌++◌, [], true, length, List as AList, Some, Err, IfErr, IfOk, MatchResult, OnErr, OnOk};
ghost use Rattle.std.specs.List.{AllByRecursion};
ghost use Rattle.jk_model.specs.declared.output.Line.{Line as ALine};
ghost use Rattle.jk_model.specs.declared.output.Line.TheVariants as Says;
ghost use Rattle.jk_model.specs.declared.output.Place.{Place as APlace};
ghost use Rattle.jk_model.specs.declared.output.Place.TheVariants as PlaceIs;
ghost use Rattle.jk_model.specs.declared.output.Rule.{Rule as ARule};
ghost use Rattle.jk_model.specs.declared.output.Rule.TheVariants as RuleIs;
ghost use Rattle.jk_model.specs.Outside.{Ask, FolderIsAbsent, HasRisen, ListOf, NeverFalls, Tree, ◌/-◌};
ghost use Rattle.jk_model.specs.ScriptGrammar.{is_name};
ghost use Rattle.jk_model_folders.specs.FolderRules.{IsFolderFault, IsLive};
ghost use Rattle.jk_model_folders.specs.FolderTrees.{MOST_ENTRIES, MOST_LEVELS};
ghost use Rattle.jk_model_machine_state.specs.Machines.{world_of};
ghost use Rattle.jk_outside.specs.Counts.{HasTaken};
ghost use Rattle.folder_reader.specs.AskedOnce.{AsksOnce};
ghost use Rattle.folder_reader.specs.FolderAnswers.{AskedFor, AsksWithin};
ghost use Rattle.kernel_openings.specs.AddedDomains.{AddsDomain, IsCauseOf, IsLacking, Opening, line_of};
ghost use Rattle.kernel_openings.specs.declared.answers.AddAnswer.{AddAnswer as AAnswer};

use crate::kernel::Kernel;
use crate::laws::machines_stay_sound;
use frame_store::FrameStore;
use jk_model::{DomainId, Quotas};
use jk_outside::Files;
use kernel_openings::{AddAnswer, add_domain};
use object_store::ObjectStore;

impl<H: ObjectStore + Drop, F: FrameStore + Drop> Kernel<H, F> {
    /// Opens the domain of the folder of this name below a root, with these quotas, and answers its number. Or it answers the first rule
    /// that refuses it, or that the files failed, or want of memory: the machine is as before then.
    pub fn add_domain<R: Files>(
        &mut self,
        files: &mut R,
        root: &str,
        name: &str,
        quotas: Quotas,
    ) -> Result<DomainId, AddAnswer>
        requires named { is_name name.now ≡ true }
        requires words { (44 ≤ quotas.heap) × (quotas.heap ≤ 16777216) }
        requires chunks { (1 ≤ quotas.chunks) × (quotas.chunks ≤ 262144) }
        requires counts { (quotas.threads ≤ 4096) × (quotas.names ≤ 4096) }
        ensures number { IfOk result (λ d. d.0 ≡ length self.old.domains) }
        ensures ok { let o : Opening = record { tree = R.tree files.old; root = root.now; name = name.now; quotas = quotas } in
            OnOk result (AddsDomain o self.old (Says.Loaded name.now ∷ []) self.new) }
        // Each error has its cause.
        ensures cause { let o : Opening = record { tree = R.tree files.old; root = root.now; name = name.now; quotas = quotas } in
            IfErr result (IsCauseOf o self.old) }
        // A folder of a told tree that breaks a rule is refused by exactly this rule, there, unless the files fail or memory runs out.
        ensures only_refused { (t : Tree) (rule : ARule) (place : APlace) → R.tree files.old ≡ Some t
            → IsFolderFault t root.now (world_of self.old) name.now rule place
            → MatchResult result (λ _. ⊥) (λ e. (e ≡ AddAnswer.Refused rule place) ⊎ (e ≡ AddAnswer.ReadFault) ⊎ (e ≡ AddAnswer.OutOfMemory)) }
        // Of a folder of a told tree that breaks no rule the first thing that is lacking is answered, unless the files fail or memory runs out.
        ensures only_lacking { let o : Opening = record { tree = R.tree files.old; root = root.now; name = name.now; quotas = quotas } in
            (t : Tree) (e : AAnswer) → R.tree files.old ≡ Some t → IsLacking e → IsCauseOf o self.old e
            → MatchResult result (λ _. ⊥) (λ a. (a ≡ e) ⊎ (a ≡ AddAnswer.ReadFault) ⊎ (a ≡ AddAnswer.OutOfMemory)) }
        // What the event prints at an answer leads to the machine as it was.
        ensures refused { let o : Opening = record { tree = R.tree files.old; root = root.now; name = name.now; quotas = quotas } in
            IfErr result (λ e. (line : ALine) → line_of name.now e ≡ Some line → AddsDomain o self.old (line ∷ []) self.old) }
        // L2 comes where the folder was asked for and isn't there: where no tree is told, a fault was counted.
        ensures no_folder { result ≡ Err (AddAnswer.Refused RuleIs.L2 PlaceIs.Whole)
            → FolderIsAbsent (R.tree files.old) (root.now /- name.now) (R.faults files.old) (R.faults files.new) }
        ensures missed { result ≡ Err (AddAnswer.Refused RuleIs.L2 PlaceIs.Whole)
            → AskedFor (R.asked files.old) (R.asked files.new) (ListOf (root.now /- name.now) MOST_ENTRIES) }
        // L5 comes of files that tell no tree where more was taken than the least limit of L5 allows.
        ensures large { result ≡ Err (AddAnswer.Refused RuleIs.L5 PlaceIs.Whole)
            → HasTaken (R.tree files.old) (MOST_LEVELS + 1) (R.taken files.old) (R.taken files.new) }
        // The name of a live domain is refused by L1 alone, and nothing is asked for it.
        ensures live { IsLive (world_of self.old) name.now → result ≡ Err (AddAnswer.Refused RuleIs.L1 PlaceIs.Whole) }
        ensures live_asks { IsLive (world_of self.old) name.now → R.asked files.new ≡ R.asked files.old }
        ensures err { OnErr result (self.new ≡ self.old) }
        ensures read_fault { result ≡ Err AddAnswer.ReadFault → HasRisen (R.faults files.old) (R.faults files.new) }
        // It is never answered before something was asked.
        ensures something { result ≡ Err AddAnswer.ReadFault → R.asked files.new ≢ R.asked files.old }
        // An answer other than `ReadFault` counted no fault of told files.
        ensures calm { (t : Tree) → R.tree files.old ≡ Some t → result ≢ Err AddAnswer.ReadFault → R.faults files.new ≡ R.faults files.old }
        ensures stays { R.tree files.new ≡ R.tree files.old }
        ensures faults { NeverFalls (R.faults files.old) (R.faults files.new) }
        ensures taken { NeverFalls (R.taken files.old) (R.taken files.new) }
        ensures asks { (more : AList Ask) × (R.asked files.new ≡ R.asked files.old ++ more) × AllByRecursion (AsksWithin (root.now /- name.now)) more }
        // Each file is asked for at most once, and each folder of a told tree.
        ensures once { AsksOnce (R.tree files.old) (R.asked files.old) (R.asked files.new) }
        ensures counts { (self.new.next_thread ≡ self.old.next_thread) × (self.new.next_segment ≡ self.old.next_segment) }
    {
        machines_stay_sound();
        add_domain(&mut self.parts, files, root, name, quotas)
    }
}
