//! jk/Remote, below which an interface is one that a capability shows.

ghost use Rattle.std.specs.Prelude.{◌≡◌, ◌↔◌, IsTrue, MatchOption};
ghost use Rattle.jk_model.specs.declared.identifiers.ClassId.{ClassId};
ghost use Rattle.jk_model_classes.specs.Stubs.{ImplementsRemote, IsRemote};

use class_table::ClassTable;
use jk_model::ClassId;
use system_table::class_named;

/// The name jk/Remote, in UTF-16 code units.
const REMOTE: [u16; 9] = [106, 107, 47, 82, 101, 109, 111, 116, 101];

/// The class jk/Remote.
pub(crate) fn remote() -> Option<ClassId>
    ensures { MatchOption result ((c : ClassId) → IsRemote c → ⊥) (λ c. IsRemote c) }
{
    Some(ClassId(u32::from(class_named(&REMOTE)?)))
}
