//! What the definitions in `specs/` say by themselves. The functions have no bodies: each stands for its clauses.

ghost use Rattle.std.specs.Prelude.{◌≡◌, Some, codes, map, slice_get};
ghost use Rattle.jk_model.specs.SystemTable.{system_classes};
ghost use Rattle.jk_model_domains.specs.NumberRows.{ARITHMETIC_EXCEPTION};
ghost use Rattle.jk_model_domains.specs.Objects.{CAPABILITY, PRINT_STREAM, TASK};

/// The system classes that the definitions name stand at these places of the system table.
pub fn classes_of_the_system()
    ensures print_stream { slice_get (map (λ e. e.name) system_classes) PRINT_STREAM.0 ≡ Some (codes "java/io/PrintStream") }
    ensures capability { slice_get (map (λ e. e.name) system_classes) CAPABILITY.0 ≡ Some (codes "jk/Capability") }
    ensures task { slice_get (map (λ e. e.name) system_classes) TASK.0 ≡ Some (codes "jk/Task") }
    ensures arithmetic_exception { slice_get (map (λ e. e.name) system_classes) ARITHMETIC_EXCEPTION.0 ≡ Some (codes "java/lang/ArithmeticException") }
{}
