//! What holds of the whole table. The functions have no bodies: each stands for its clauses.

ghost use Rattle.std.specs.Prelude.{◌≡◌, ℕ, ◌<◌, ⊤, List, Some, true, flat_map, MatchOption};
ghost use Rattle.std.specs.List.{AllByRecursion, range_with_len};
ghost use Rattle.jk_model.specs.SystemTable.{number_named, first_method_number};
ghost use Rattle.jk_model.specs.Descriptors.{IsFieldDescriptor, IsMethodDescriptor};
ghost use Rattle.system_table.specs.Laws.{Class, IsAt, IsInFront, method_numbers_of};

/// No two classes have one name.
pub fn names_differ()
    ensures { (m : ℕ) (n : ℕ) (c : Class) (d : Class) → IsAt c m → IsAt d n → c.name ≡ d.name → m ≡ n }
{}

/// A class comes after its parent. The first class alone has none.
pub fn parents_stand_in_front()
    ensures { (n : ℕ) (c : Class) → IsAt c n → MatchOption c.parent (n ≡ 0) (λ name. IsInFront name n) }
{}

/// A class comes after the interfaces that it lists.
pub fn interfaces_stand_in_front()
    ensures { (n : ℕ) (c : Class) → IsAt c n → AllByRecursion (λ name. IsInFront name n) c.interfaces }
{}

/// A closed class is no class's parent.
pub fn closed_classes_have_no_children()
    ensures { (m : ℕ) (n : ℕ) (c : Class) (d : Class) → IsAt c m → IsAt d n → c.closed ≡ true → d.parent ≡ Some c.name → ⊥ }
{}

/// What a descriptor of a field or a method says is a type of a field or a method.
pub fn descriptors_are_of_types()
    ensures fields { (n : ℕ) (c : Class) → IsAt c n → AllByRecursion (λ f. IsFieldDescriptor f.descriptor) c.fields }
    ensures methods { (n : ℕ) (c : Class) → IsAt c n → AllByRecursion (λ m. IsMethodDescriptor m.descriptor) c.methods }
{}

/// The numbers of the methods, one class after the other, are 0 to 110.
pub fn method_numbers()
    ensures { flat_map method_numbers_of (range_with_len 0 45) ≡ range_with_len 0 111 }
{}
