//! What holds of the order of paths, by the definitions alone. The function has no body: it stands for its clause.

ghost use Rattle.std.specs.Prelude.{◌≡◌, ◌↔◌, ◌++◌, ℕ, List, IsUtf8, codes};
ghost use Rattle.jk_model.specs.Text.{utf16_of};
ghost use Rattle.jk_model_classes.specs.SharedRules.{IsBeforeInOrder, path_ranks};

/// Paths of class files are in the order of their bytes in UTF-8 exactly where the names of their classes are in the order of
/// `is_path_before`.
pub fn paths_are_in_the_order_of_bytes()
    ensures { (p q a b : List ℕ) → IsUtf8 p → IsUtf8 q → utf16_of p ≡ a ++ codes ".class" → utf16_of q ≡ b ++ codes ".class"
        → IsBeforeInOrder p q ↔ IsBeforeInOrder (path_ranks a) (path_ranks b) }
{}
