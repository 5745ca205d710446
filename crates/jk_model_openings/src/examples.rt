//! What the definitions in `specs/` say of a worked example. The function has no body: it stands for its clauses, and the example is in
//! `specs/Examples.antt`.

ghost use Rattle.std.specs.Prelude.{◌≡◌, []};
ghost use Rattle.jk_model_heaps.specs.ExampleClasses.{system_records};
ghost use Rattle.jk_model_heaps.specs.Heaps.{heap_words};
ghost use Rattle.jk_model_openings.specs.Examples.{first_heap, first_inside};
ghost use Rattle.jk_model_openings.specs.OpenedDomains.{IsOpening};

/// A domain has 44 words as it begins, and can't be opened with fewer: its PrintStream takes 4, and each of the eight standing
/// throwables 5.
pub fn an_opening_takes_44_words()
    ensures words { heap_words system_records first_heap ≡ 44 }
    ensures opens { IsOpening system_records [] 44 first_inside }
    ensures not_less { IsOpening system_records [] 43 first_inside → ⊥ }
{}
