//! Worked examples of the rows. The functions have no bodies: each stands for its clauses, and what they speak of stands in
//! `specs/Examples.antt`.

ghost use Rattle.std.specs.Prelude.{◌≡◌, ℕ, ◌+◌, List, [], ◌∷◌, Some, None, length, negsuc, pos};
ghost use Rattle.jk_model.specs.declared.instructions.Instr.{Instr};
ghost use Rattle.jk_model.specs.declared.opcodes.TheConstants.{AASTORE};
ghost use Rattle.jk_model.specs.declared.steps.Raise.TheVariants as Raised;
ghost use Rattle.jk_model.specs.declared.values.Value.{Value};
ghost use Rattle.jk_model.specs.declared.values.Value.TheVariants as Held;
ghost use Rattle.jk_model_classes.specs.declared.records.BaseRef.TheVariants as Base;
ghost use Rattle.jk_model_classes.specs.declared.records.ClassRecord.{ClassRecord};
ghost use Rattle.jk_model_classes.specs.Classes.{OBJECT};
ghost use Rattle.jk_model_typing.specs.FrameTypes.{STRING};
ghost use Rattle.jk_model_typing.specs.Scopes.{CodeScope};
ghost use Rattle.jk_model_domains.specs.NumberRows.{IsOnTop};
ghost use Rattle.jk_model_domains.specs.Objects.{Array, class_type, object_named};
ghost use Rattle.jk_model_heaps.specs.Heaps.{heap_words, with_object};
ghost use Rattle.jk_model_heaps.specs.Instances.{IsA, IsInstance};
ghost use Rattle.jk_model_heaps.specs.StoredValues.{stored};
ghost use Rattle.jk_model_heaps.specs.SystemClasses.{ARRAY_INDEX_EXCEPTION, ARRAY_STORE_EXCEPTION, CLONEABLE, NULL_POINTER_EXCEPTION, SERIALIZABLE};
ghost use Rattle.jk_model_heaps.specs.Workings.{GoesOn, Outcome, Raises, Setting, Working};
ghost use Rattle.jk_model_heap_rows.specs.ArrayTrees.{IsTree, tree_words};
ghost use Rattle.jk_model_heap_rows.specs.ElementRows.{place_at};
ghost use Rattle.jk_model_heap_rows.specs.Examples.{LOWER, UPPER, arrays_of, arrays_of_arrays, member_at, of_kind, three_arrays, upper_and_lower};
ghost use Rattle.jk_model_heap_rows.specs.FieldRows.{field_place};
ghost use Rattle.jk_model_heap_rows.specs.HeapRows.{HeapRow};
ghost use Rattle.jk_model_heap_rows.specs.NewObjectRows.{counts_of};

/// Arrays of arrays cost four words for each array, one for each item, and one more for each long. Where the first count is 0
/// there is one array, whatever the second one is, and where no second count is given all items are null.
pub fn costs_of_trees()
    ensures ints { tree_words (arrays_of_arrays Base.Int) (2 ∷ 3 ∷ []) ≡ 20 }
    ensures longs { tree_words (arrays_of_arrays Base.Long) (2 ∷ 3 ∷ []) ≡ 26 }
    ensures empty { tree_words (arrays_of_arrays Base.Int) (0 ∷ 3 ∷ []) ≡ 4 }
    ensures outer { tree_words (arrays_of_arrays Base.Int) (2 ∷ []) ≡ 6 }
{}

/// An array of two arrays of three ints each is three arrays, and they cost those 20 words.
pub fn tree_of_ints()
    ensures tree { IsTree (arrays_of_arrays Base.Int) (2 ∷ 3 ∷ []) (record { value = Held.Obj 7; objects = three_arrays }) }
    ensures count { length three_arrays ≡ 3 }
    ensures words { heap_words [] three_arrays ≡ 20 }
{}

/// One negative count is enough, also after a 0.
pub fn negative_counts()
    ensures after_zero { counts_of (pos 0 ∷ negsuc 0 ∷ []) ≡ None }
    ensures none { counts_of (pos 2 ∷ pos 3 ∷ []) ≡ Some (2 ∷ 3 ∷ []) }
{}

/// Two items have the indices 0 and 1.
pub fn places_of_two()
    ensures last { place_at (Held.Null ∷ Held.Null ∷ []) (pos 1) ≡ Some 1 }
    ensures past { place_at (Held.Null ∷ Held.Null ∷ []) (pos 2) ≡ None }
    ensures negative { place_at (Held.Null ∷ Held.Null ∷ []) (negsuc 0) ≡ None }
{}

/// What is stored of an int goes by the type of the field or element.
pub fn stored_ints()
    ensures byte { stored (of_kind Base.Byte) (Held.Int (pos 200)) ≡ Held.Int (negsuc 55) }
    ensures char { stored (of_kind Base.Char) (Held.Int (negsuc 0)) ≡ Held.Int (pos 65535) }
    ensures short { stored (of_kind Base.Short) (Held.Int (pos 40000)) ≡ Held.Int (negsuc 25535) }
    ensures even_truth { stored (of_kind Base.Bool) (Held.Int (pos 2)) ≡ Held.Int (pos 0) }
    ensures odd_truth { stored (of_kind Base.Bool) (Held.Int (pos 3)) ≡ Held.Int (pos 1) }
    ensures int { stored (of_kind Base.Int) (Held.Int (pos 40000)) ≡ Held.Int (pos 40000) }
{}

/// An array of ints is an instance of what every array is of, and of no array of objects. An array of arrays of ints is one of objects
/// and of what every array is of.
pub fn arrays_are_instances()
    ensures object { (classes : List ClassRecord) → IsA classes (arrays_of Base.Int) (class_type OBJECT) }
    ensures cloneable { (classes : List ClassRecord) → IsA classes (arrays_of Base.Int) (class_type CLONEABLE) }
    ensures serializable { (classes : List ClassRecord) → IsA classes (arrays_of Base.Int) (class_type SERIALIZABLE) }
    ensures no_objects { (classes : List ClassRecord) → ¬ IsA classes (arrays_of Base.Int) (arrays_of (Base.Class OBJECT)) }
    ensures arrays { (classes : List ClassRecord) → IsA classes (arrays_of_arrays Base.Int) (arrays_of (Base.Class OBJECT)) }
    ensures cloneables { (classes : List ClassRecord) → IsA classes (arrays_of_arrays Base.Int) (arrays_of (Base.Class CLONEABLE)) }
    ensures not_deeper { (classes : List ClassRecord) → ¬ IsA classes (arrays_of_arrays Base.Int) (arrays_of_arrays (Base.Class OBJECT)) }
{}

/// The fields of the class above come first, and a field of the same name below is another one.
pub fn places_of_fields()
    ensures first { field_place upper_and_lower LOWER (member_at UPPER 0) ≡ Some 0 }
    ensures second { field_place upper_and_lower LOWER (member_at UPPER 1) ≡ Some 1 }
    ensures own { field_place upper_and_lower LOWER (member_at LOWER 0) ≡ Some 2 }
    ensures above { field_place upper_and_lower UPPER (member_at UPPER 1) ≡ Some 1 }
    ensures not_below { field_place upper_and_lower UPPER (member_at LOWER 0) ≡ None }
{}

/// Of what a store into an array of one text meets, null comes first, then an index that is too large, and then a value that is no
/// text. Nothing changes then.
pub fn stores_that_fail()
    ensures null { (x : Setting) (s : CodeScope) (i : Instr) (w : Working) (v : Value) → i.op ≡ AASTORE
        → IsOnTop w.frame (Held.Null ∷ Held.Int (pos 5) ∷ v ∷ []) → HeapRow x s i w w (Raises (Raised.Fresh NULL_POINTER_EXCEPTION)) }
    ensures index { (x : Setting) (s : CodeScope) (i : Instr) (w : Working) (v : Value) → i.op ≡ AASTORE
        → IsOnTop w.frame (Held.Obj 7 ∷ Held.Int (pos 5) ∷ v ∷ [])
        → object_named w.inside.heap 7 ≡ Some (Array (class_type STRING) (Held.Null ∷ []))
        → HeapRow x s i w w (Raises (Raised.Fresh ARRAY_INDEX_EXCEPTION)) }
    ensures value { (x : Setting) (s : CodeScope) (i : Instr) (w : Working) (a : ℕ) → i.op ≡ AASTORE
        → IsOnTop w.frame (Held.Obj 7 ∷ Held.Int (pos 0) ∷ Held.Obj a ∷ [])
        → object_named w.inside.heap 7 ≡ Some (Array (class_type STRING) (Held.Null ∷ []))
        → ¬ IsInstance x.classes x.caps w.inside.heap (Held.Obj a) (class_type STRING)
        → HeapRow x s i w w (Raises (Raised.Fresh ARRAY_STORE_EXCEPTION)) }
{}

/// None of these stores can come to anything else: no case of them holds beside another, so that null isn't met as a bad index, nor a bad
/// index as a bad value, and nothing is stored. A store of a text is no failure: it leaves an array of the same type with the text in it.
pub fn stores_that_fail_do_nothing_else()
    ensures null { (x : Setting) (s : CodeScope) (i : Instr) (w new : Working) (outcome : Outcome) (v : Value) → i.op ≡ AASTORE
        → IsOnTop w.frame (Held.Null ∷ Held.Int (pos 5) ∷ v ∷ []) → HeapRow x s i w new outcome
        → (new ≡ w) × (outcome ≡ Raises (Raised.Fresh NULL_POINTER_EXCEPTION)) }
    ensures index { (x : Setting) (s : CodeScope) (i : Instr) (w new : Working) (outcome : Outcome) (v : Value) → i.op ≡ AASTORE
        → IsOnTop w.frame (Held.Obj 7 ∷ Held.Int (pos 5) ∷ v ∷ [])
        → object_named w.inside.heap 7 ≡ Some (Array (class_type STRING) (Held.Null ∷ [])) → HeapRow x s i w new outcome
        → (new ≡ w) × (outcome ≡ Raises (Raised.Fresh ARRAY_INDEX_EXCEPTION)) }
    ensures value { (x : Setting) (s : CodeScope) (i : Instr) (w new : Working) (outcome : Outcome) (a : ℕ) → i.op ≡ AASTORE
        → IsOnTop w.frame (Held.Obj 7 ∷ Held.Int (pos 0) ∷ Held.Obj a ∷ [])
        → object_named w.inside.heap 7 ≡ Some (Array (class_type STRING) (Held.Null ∷ []))
        → ¬ IsInstance x.classes x.caps w.inside.heap (Held.Obj a) (class_type STRING) → HeapRow x s i w new outcome
        → (new ≡ w) × (outcome ≡ Raises (Raised.Fresh ARRAY_STORE_EXCEPTION)) }
    ensures text { (x : Setting) (s : CodeScope) (i : Instr) (w new : Working) (outcome : Outcome) (a : ℕ) → i.op ≡ AASTORE
        → IsOnTop w.frame (Held.Obj 7 ∷ Held.Int (pos 0) ∷ Held.Obj a ∷ [])
        → object_named w.inside.heap 7 ≡ Some (Array (class_type STRING) (Held.Null ∷ []))
        → IsInstance x.classes x.caps w.inside.heap (Held.Obj a) (class_type STRING) → HeapRow x s i w new outcome
        → (new.inside.heap ≡ with_object 7 (Array (class_type STRING) (Held.Obj a ∷ [])) w.inside.heap)
        × (outcome ≡ GoesOn (w.frame.head.at + 1)) }
{}
