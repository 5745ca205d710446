//! What holds of ordered classes, by the definitions alone. The functions have no bodies: each stands for its
//! clauses.

ghost use Rattle.std.specs.Prelude.{◌≡◌, ◌≤◌, ◌++◌, ◌∷◌, List, flat_map};
ghost use Rattle.jk_model.specs.declared.identifiers.ClassId.{ClassId};
ghost use Rattle.jk_model_classes.specs.declared.records.ClassRecord.{ClassRecord};
ghost use Rattle.jk_model_classes.specs.Classes.{AreOrdered, IsSubclass, field_walk, own_interfaces, parents_of, superclasses, with_interfaces};
ghost use Rattle.jk_model_classes.specs.Layouts.{InstanceField, instance_fields};

/// An object of a class begins with the fields of each class above it, so that a field has one place in all of them.
pub fn layouts_begin()
    ensures { (classes : List ClassRecord) (a b : ClassId) → AreOrdered classes → IsSubclass classes a b
        → (rest : List InstanceField) × (instance_fields classes a ≡ instance_fields classes b ++ rest) }
{}

/// What stands above a class stands above those below it, and of two classes above one class, the one with the lower
/// number stands above the other.
pub fn superclasses_are_a_chain()
    ensures above { (classes : List ClassRecord) (a b c : ClassId) → AreOrdered classes → IsSubclass classes a b → IsSubclass classes b c
        → IsSubclass classes a c }
    ensures chain { (classes : List ClassRecord) (a b c : ClassId) → AreOrdered classes → IsSubclass classes a b → IsSubclass classes a c
        → c.0 ≤ b.0 → IsSubclass classes b c }
{}

/// Each walk is made of those of the classes directly above.
pub fn walks_go_up_one_step()
    ensures parents { (classes : List ClassRecord) (c : ClassId) → AreOrdered classes
        → superclasses classes c ≡ c ∷ flat_map (superclasses classes) (parents_of classes c) }
    ensures interfaces { (classes : List ClassRecord) (c : ClassId) → AreOrdered classes
        → with_interfaces classes c ≡ c ∷ own_interfaces classes c }
    ensures fields { (classes : List ClassRecord) (c : ClassId) → AreOrdered classes
        → field_walk classes c ≡ with_interfaces classes c ++ flat_map (field_walk classes) (parents_of classes c) }
{}
