//! A method's type with several owners, which contracts see as the type.

ghost use Rattle.std.specs.Prelude.{◌≡◌, ◌↔◌, IfOk, IsTrue};
ghost use Rattle.jk_model.specs.Descriptors.{method_text};
ghost use Rattle.shared_values.specs.Fingerprints.{fingerprint_of};

use crate::fingerprints::kind_fingerprint;
use crate::same_kind::is_same_kind;
use jk_model::{MethodType, OutOfMemory};
use std::alloc::Global;
use std::marker::Model;
use std::rc::Rc;

/// What stands in memory once.
#[derive(Drop)]
struct Stored {
    kind: MethodType,
    fingerprint: u64,
}

/// The type of a method, which stands in memory once for all methods of that type, with the fingerprint of
/// its descriptor. An owner's handle takes 8 bytes.
#[derive(Drop)]
pub struct SharedKind {
    stored: Rc<Stored>,
}

impl Model for SharedKind {
    ghost use Rattle.std.specs.Prelude.{◌≡◌};
    ghost use Rattle.jk_model.specs.Descriptors.{method_text};
    ghost use Rattle.jk_model.specs.declared.descriptors.MethodType.{MethodType};
    ghost use Rattle.shared_values.specs.Fingerprints.{fingerprint_of};

    ghost Value = { MethodType };

    ghost view = { λ s. s.stored.value.kind };

    ghost invariant = { λ s. s.stored.value.fingerprint ≡ fingerprint_of (method_text s.stored.value.kind) };
}

impl SharedKind {
    /// The type, with one owner so far. It takes time in proportion to the descriptor's length, and memory of
    /// constant size beside the type's own.
    pub fn new(alloc: Global, kind: MethodType) -> Result<SharedKind, OutOfMemory>
        ensures { IfOk result (λ shared. shared ≡ kind) }
    {
        let fingerprint = kind_fingerprint(&kind);
        let stored = Rc::new(alloc, Stored { kind, fingerprint })?;
        Ok(SharedKind { stored })
    }

    /// One more owner of the same type. It takes no memory, and fails only where the count of owners is at
    /// its end.
    pub fn share(&self) -> Result<SharedKind, OutOfMemory>
        ensures { IfOk result (λ shared. shared ≡ self.now) }
    {
        let stored = self.stored.clone()?;
        Ok(SharedKind { stored })
    }

    /// The type.
    pub fn get(&self) -> &MethodType
        ensures { result.now ≡ self.now }
    {
        &self.stored.as_ref().kind
    }

    /// The fingerprint of its descriptor, in constant time.
    pub fn fingerprint(&self) -> u64
        ensures { result ≡ fingerprint_of (method_text self.now) }
    {
        self.stored.as_ref().fingerprint
    }

    /// Whether it is this type. It takes no memory, and at most time in proportion to the shorter descriptor.
    pub fn is(&self, kind: &MethodType) -> bool
        ensures { IsTrue result ↔ (self.now ≡ kind.now) }
    {
        is_same_kind(self.get(), kind)
    }
}
