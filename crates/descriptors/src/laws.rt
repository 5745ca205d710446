//! What the definitions say of descriptors. The functions have no bodies: each stands for its clause.

ghost use Rattle.std.specs.Prelude.{◌≡◌, ℕ, List};
ghost use Rattle.jk_model.specs.declared.descriptors.FieldType.{FieldType};
ghost use Rattle.jk_model.specs.declared.descriptors.MethodType.{MethodType};
ghost use Rattle.jk_model.specs.Descriptors.{IsFieldText, IsMethodText};

/// A text is the text of at most one type of a field.
pub fn one_field_type()
    ensures { (units : List ℕ) (t u : FieldType) → IsFieldText units t → IsFieldText units u → t ≡ u }
{}

/// A text is the text of at most one type of a method.
pub fn one_method_type()
    ensures { (units : List ℕ) (m n : MethodType) → IsMethodText units m → IsMethodText units n → m ≡ n }
{}
