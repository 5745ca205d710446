//! What the definitions in `specs/` say by themselves. The functions have no bodies: each stands for its clauses.

ghost use Rattle.std.specs.Prelude.{◌≡◌, ℕ, List, Contains, None, Some};
ghost use Rattle.jk_model_classes.specs.declared.records.ClassRecord.{ClassRecord};
ghost use Rattle.jk_model_domains.specs.Objects.{NamedObject, Object, object_named};
ghost use Rattle.jk_model_graphs.specs.Copies.{ArePaired, IsCopy};
ghost use Rattle.jk_model_graphs.specs.Reach.{Graph, ReachCosts};

/// A copy by its names: each name that the heap had keeps its object, the copies of a pair have names that it lacked, and each name that
/// it has now and lacked is that of a copy.
pub fn copies_by_name()
    ensures stays { (classes : List ClassRecord) (source : Graph) (before : List NamedObject) (copy : Graph) (pairs : List (ℕ × ℕ)) (b : ℕ)
        (object : Object) → IsCopy classes source before copy pairs → object_named before b ≡ Some object → object_named copy.heap b ≡ Some object }
    ensures new_names { (classes : List ClassRecord) (source : Graph) (before : List NamedObject) (copy : Graph) (pairs : List (ℕ × ℕ)) (a b : ℕ)
        → IsCopy classes source before copy pairs → Contains pairs (a, b)
        → (object_named before b ≡ None) × ArePaired classes source.heap copy.heap pairs a b }
    ensures no_others { (classes : List ClassRecord) (source : Graph) (before : List NamedObject) (copy : Graph) (pairs : List (ℕ × ℕ)) (b : ℕ)
        (object : Object) → IsCopy classes source before copy pairs → object_named copy.heap b ≡ Some object → object_named before b ≡ None
        → (a : ℕ) × Contains pairs (a, b) }
{}

/// What values reach has one cost, in whatever order its names stand.
pub fn reach_has_one_cost()
    ensures { (classes : List ClassRecord) (g : Graph) (n k : ℕ) → ReachCosts classes g n → ReachCosts classes g k → n ≡ k }
{}
