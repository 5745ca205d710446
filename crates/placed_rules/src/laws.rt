//! What holds of a placed folder, by the definitions alone. The function has no body: it stands for its clauses.

ghost use Rattle.std.specs.Prelude.{List, length, map};
ghost use Rattle.jk_model.specs.declared.class_file.ClassFile.{ClassFile as AClassFile};
ghost use Rattle.jk_model_classes.specs.declared.records.ClassRecord.{ClassRecord as AClass};
ghost use Rattle.jk_model_classes.specs.declared.sharing.ResolverLine.{ResolverLine as ALine};
ghost use Rattle.jk_model_classes.specs.Worlds.{NamedClass, WorldRecord};
ghost use Rattle.jk_model_folders.specs.FolderRules.{IsPlaced, PlacedFolder};
ghost use Rattle.placed_rules.specs.PlacedFaults.{AreLinkedIn, AreRecorded};

/// Each class of a placed folder has the record of its file, and among the classes without their links each has those that its
/// record has later.
pub fn placed_folders_are_judged()
    ensures recorded { (w : WorldRecord) (lines : List ALine) (cs : List AClassFile) (names : List NamedClass) (p : PlacedFolder)
        → IsPlaced w lines cs names p → AreRecorded p.classes (record { 0 = length w.classes }) p.order cs }
    ensures linked { (w : WorldRecord) (lines : List ALine) (cs : List AClassFile) (names : List NamedClass) (p : PlacedFolder)
        → (h : IsPlaced w lines cs names p)
        → AreLinkedIn p.unlinked p.table (record { 0 = length w.classes }) p.order cs (map (λ (r : AClass). r.links) h.added) }
{}
