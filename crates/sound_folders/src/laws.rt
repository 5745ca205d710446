//! The laws. The functions have no bodies: each stands for its clauses. Name tables say what names mean in the domains.

ghost use Rattle.std.specs.Prelude.{◌++◌, ◌∷◌, [], ℕ, List, Contains};
ghost use Rattle.jk_model.specs.declared.identifiers.ClassId.{ClassId as AClassId};
ghost use Rattle.jk_model_classes.specs.declared.records.ClassRecord.{ClassRecord as ARecord};
ghost use Rattle.jk_model_classes.specs.declared.sharing.Offer.{Offer as AnOffer};
ghost use Rattle.jk_model_classes.specs.declared.sharing.Stub.{Stub as AStub};
ghost use Rattle.jk_model_classes.specs.Classes.{AreOrdered};
ghost use Rattle.jk_model_classes.specs.SystemRecords.{AreSystemRecords};
ghost use Rattle.jk_model_classes.specs.Worlds.{NamedClass as AName, WorldRecord as AWorld};
ghost use Rattle.jk_model_folders.specs.declared.files.FolderFiles.{FolderFiles as SomeFiles};
ghost use Rattle.jk_model_sound_classes.specs.SoundClasses.{AreSoundClasses};
ghost use Rattle.sound_folders.specs.LinkedWorlds.{Accepts, AreLinked, HaveNamesOf};
ghost use Rattle.sound_folders.specs.NamesAndTypes.{AgreeOnTypes, HasOwnNames, SayTypes};

/// The system classes alone are sound and linked, where there is no domain.
pub fn first_classes_are_sound()
    ensures sound { (classes : List ARecord) → AreSystemRecords classes → AreSoundClasses classes [] }
    ensures linked { (classes : List ARecord) → AreSystemRecords classes → AreLinked classes [] }
{}

/// Where each name table is one that was there, the classes and names stay sound and linked.
pub fn same_names_stay_sound()
    ensures sound { (classes : List ARecord) (old tables : List (List AName)) → AreSoundClasses classes old
        → HaveNamesOf tables old → AreSoundClasses classes tables }
    ensures linked { (classes : List ARecord) (old tables : List (List AName)) → AreLinked classes old
        → HaveNamesOf tables old → AreLinked classes tables }
{}

/// With the classes of an accepted folder behind the others, and the name table of its domain behind the others, the classes and
/// names are sound and linked as before.
pub fn accepted_folders_stay_sound()
    ensures sound { (old : AWorld) (tables : List (List AName)) (f : SomeFiles) (name : List ℕ) (first : AClassId) (table : List AName)
        (offers : List AnOffer) (stubs : List AStub) (new : AWorld) → AreSoundClasses old.classes tables → AreLinked old.classes tables
        → Accepts f old name first table offers stubs new → AreOrdered new.classes → AreSoundClasses new.classes (tables ++ table ∷ []) }
    ensures linked { (old : AWorld) (tables : List (List AName)) (f : SomeFiles) (name : List ℕ) (first : AClassId) (table : List AName)
        (offers : List AnOffer) (stubs : List AStub) (new : AWorld) → AreSoundClasses old.classes tables → AreLinked old.classes tables
        → Accepts f old name first table offers stubs new → AreOrdered new.classes → AreLinked new.classes (tables ++ table ∷ []) }
{}

/// In each domain a class stands under its own name, a method takes and answers what its descriptor says by the domain's names, and so
/// methods of one type take the same parameters and answer the same.
pub fn names_say_types()
    ensures names { (classes : List ARecord) (tables : List (List AName)) (table : List AName) → AreLinked classes tables
        → Contains tables table → HasOwnNames classes table }
    ensures types { (classes : List ARecord) (tables : List (List AName)) (table : List AName) → AreLinked classes tables
        → Contains tables table → SayTypes classes table }
    ensures methods { (classes : List ARecord) (tables : List (List AName)) (table : List AName) → AreLinked classes tables
        → Contains tables table → AgreeOnTypes classes table }
{}
