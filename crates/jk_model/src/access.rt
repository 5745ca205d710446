//! The flags of classes and of members, with the names of the Java Virtual Machine Specification, second
//! edition (4.1, 4.5, 4.6). Records keep a flag's bits, so that a bit without a name is kept too.

ghost use Rattle.std.specs.Prelude.{⊤, ◌≡◌, ◌∷◌, [], codes};
ghost use Rattle.jk_model.specs.Flags.{has};

use bitflags::{Flag, Flags, bitflag_items};

/// The flags of a class or of a member. A bit that has no name here is ignored.
#[derive(Clone, Copy, PartialEq, Eq, Debug)]
pub struct AccessFlags(pub u16);

bitflag_items! {
    impl AccessFlags: u16 {
        const PUBLIC = 0x0001;
        const PRIVATE = 0x0002;
        const PROTECTED = 0x0004;
        const STATIC = 0x0008;
        const FINAL = 0x0010;
        const SUPER = 0x0020;
        const SYNCHRONIZED = 0x0020;
        const VOLATILE = 0x0040;
        const TRANSIENT = 0x0080;
        const NATIVE = 0x0100;
        const INTERFACE = 0x0200;
        const ABSTRACT = 0x0400;
        const STRICT = 0x0800;
    }
}

impl Flags for AccessFlags {
    type Bits = u16;

    ghost exact = { ⊤ };

    ghost table = { (codes "PUBLIC", 1) ∷ (codes "PRIVATE", 2) ∷ (codes "PROTECTED", 4) ∷ (codes "STATIC", 8)
        ∷ (codes "FINAL", 16) ∷ (codes "SUPER", 32) ∷ (codes "SYNCHRONIZED", 32) ∷ (codes "VOLATILE", 64) ∷ (codes "TRANSIENT", 128)
        ∷ (codes "NATIVE", 256) ∷ (codes "INTERFACE", 512) ∷ (codes "ABSTRACT", 1024) ∷ (codes "STRICT", 2048) ∷ [] };

    ghost set_of = { λ flags. flags.0 };

    fn flags<'a>() -> &'a [Flag<AccessFlags>] {
        AccessFlags::FLAGS
    }

    fn bits(&self) -> u16 {
        self.0
    }

    fn from_bits_retain(bits: u16) -> AccessFlags {
        AccessFlags(bits)
    }
}

/// Whether a record's bits have this flag.
pub fn has(bits: u16, flag: AccessFlags) -> bool
    ensures { result ≡ has bits flag.0 }
{
    AccessFlags(bits).contains(flag)
}
