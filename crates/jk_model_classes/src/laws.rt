//! What the definitions in `specs/` say by themselves. The functions have no bodies: each stands for its
//! clauses.

ghost use Rattle.std.specs.Prelude.{◌≡◌, ℕ, List, [], ◌∷◌};
ghost use Rattle.jk_model.specs.declared.class_file.ClassFile.{ClassFile};
ghost use Rattle.jk_model.specs.declared.class_file.MemberInfo.{MemberInfo};
ghost use Rattle.jk_model.specs.declared.class_file.PoolEntry.{PoolEntry};
ghost use Rattle.jk_model.specs.declared.output.Rule.{Rule};
ghost use Rattle.jk_model.specs.declared.output.Rule.TheVariants.{C6};
ghost use Rattle.jk_model_classes.specs.OneClassRules.{IsFirstFault, HasNoFault};

/// A class file under a path has one first fault at most, and none where it breaks no rule.
pub fn one_first_fault()
    ensures one { (c : ClassFile) (path : List ℕ) (rule other : Rule) (m n : ℕ)
        → IsFirstFault c path rule m → IsFirstFault c path other n → (rule ≡ other) × (m ≡ n) }
    ensures none { (c : ClassFile) (path : List ℕ) (rule : Rule) (n : ℕ) → HasNoFault c path → IsFirstFault c path rule n → ⊥ }
{}

/// A class that is final and abstract breaks C6 first, at the class itself, whatever else it breaks.
pub fn final_and_abstract()
    ensures { (pool : List PoolEntry) (fields methods : List MemberInfo) (path : List ℕ)
        → IsFirstFault (record {
          minor = 0;
          major = 48;
          pool = pool;
          flags = 0x0411;
          this_class = 1;
          super_class = 3;
          interfaces = [];
          fields = fields;
          methods = methods;
          attributes = [];
        }) path C6 0 }
{}
