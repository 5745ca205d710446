//! What the definitions in `specs/` say of worked examples. The functions have no bodies: each stands for its clauses, and the examples
//! are in `specs/Examples.antt`.

ghost use Rattle.std.specs.Prelude.{ℕ, [], List};
ghost use Rattle.jk_model.specs.declared.identifiers.SegmentNo.{SegmentNo};
ghost use Rattle.jk_model_classes.specs.declared.records.BaseRef.TheVariants as Base;
ghost use Rattle.jk_model_classes.specs.declared.records.ClassRecord.{ClassRecord};
ghost use Rattle.jk_model_classes.specs.Worlds.{NamedClass};
ghost use Rattle.jk_model_domains.specs.Objects.{Plain, Task, Text, PRINT_STREAM};
ghost use Rattle.jk_model_graphs.specs.Copiable.{AllCopiable, IsCopiable, MeetsUncopiable};
ghost use Rattle.jk_model_graphs.specs.Copies.{IsCopy};
ghost use Rattle.jk_model_graphs.specs.Examples.{HOLDER, NODE, all_shared, array_pairs, both_shared, classes, empty_array, given_twice, holder, holder_copied, holder_pairs, holders, of_sub, of_sub_copied, of_sub_pairs, one_text, own_node, ring, ring_pairs, self_holder, self_holder_copied, target, text_pairs, two_texts, with_ring};
ghost use Rattle.jk_model_graphs.specs.Reach.{Reach, ReachCosts};
ghost use Rattle.jk_model_heaps.specs.SystemClasses.{STRING_BUFFER};

/// A ring of two is copied into another heap as a ring of two, and into its own heap too.
pub fn ring_is_copied()
    ensures elsewhere { IsCopy classes ring target (with_ring target) ring_pairs }
    ensures within { IsCopy classes ring ring.heap (with_ring ring.heap) ring_pairs }
    ensures costs { ReachCosts classes ring 12 }
{}

/// A text that is given twice is copied once. Two texts are no copy of it, whatever one pairs.
pub fn text_given_twice()
    ensures once { IsCopy classes given_twice target one_text text_pairs }
    ensures costs { ReachCosts classes given_twice 5 }
    ensures no_tree { (pairs : List (ℕ × ℕ)) → IsCopy classes given_twice target two_texts pairs → ⊥ }
{}

/// An array that holds itself is copied as one that holds itself. A capability passes as itself, and null as null.
pub fn array_that_holds_itself()
    ensures copied { IsCopy classes self_holder target self_holder_copied array_pairs }
    ensures costs { ReachCosts classes self_holder 6 }
{}

/// Transient fields are left empty, each by its type, and what they name is neither reached nor paid for. Their own words are paid.
pub fn transient_fields()
    ensures copied { IsCopy classes holder target holder_copied holder_pairs }
    ensures not_reached { Reach classes holder 2 → ⊥ }
    ensures costs { ReachCosts classes holder 7 }
{}

/// Fields of a parent are copied and followed as those of the class itself. Transient ones of both are left empty, a long as a long, and
/// their words are paid.
pub fn fields_of_parents()
    ensures copied { IsCopy classes of_sub target of_sub_copied of_sub_pairs }
    ensures not_reached { Reach classes of_sub 3 → ⊥ }
    ensures costs { ReachCosts classes of_sub 19 }
{}

/// An object that may not be copied is met as an item of an array that may be. One that a transient field names isn't met.
pub fn uncopiable_objects()
    ensures met { MeetsUncopiable classes both_shared both_shared holders 2 }
    ensures not_met { AllCopiable classes all_shared all_shared of_sub }
{}

/// What may be copied between domains of which neither has a name for any class: texts, arrays of whole numbers, and objects of system
/// classes that are marked so. An array of a class that the two don't share isn't, though it holds nothing; nor a Task, nor a PrintStream.
pub fn copiable_without_names()
    ensures text { IsCopiable classes [] [] (Text []) }
    ensures whole_numbers { IsCopiable classes [] [] (empty_array Base.Long) }
    ensures buffer { IsCopiable classes [] [] (Plain STRING_BUFFER []) }
    ensures empty_array { IsCopiable classes [] [] (empty_array (Base.Class NODE)) → ⊥ }
    ensures unmarked { IsCopiable classes [] [] (Plain NODE []) → ⊥ }
    ensures print_stream { IsCopiable classes [] [] (Plain PRINT_STREAM []) → ⊥ }
    ensures task { (s : SegmentNo) (records : List ClassRecord) (from to : List NamedClass) → IsCopiable records from to (Task s) → ⊥ }
{}

/// What may be copied between domains that share two classes, one of which is serializable: its objects, and arrays of both. Two classes
/// under one name are not shared.
pub fn copiable_by_names()
    ensures serializable { IsCopiable classes both_shared both_shared (Plain NODE []) }
    ensures not_serializable { IsCopiable classes both_shared both_shared (Plain HOLDER []) → ⊥ }
    ensures array { IsCopiable classes both_shared both_shared (empty_array (Base.Class HOLDER)) }
    ensures two_classes { IsCopiable classes both_shared own_node (Plain NODE []) → ⊥ }
    ensures array_of_two_classes { IsCopiable classes both_shared own_node (empty_array (Base.Class NODE)) → ⊥ }
{}
