//! Names in ASCII, as scripts have them, read as units.

ghost use Rattle.std.specs.Prelude.{◌≡◌, ◌≤◌, length, take};
ghost use Rattle.jk_model_classes.specs.Worlds.{DomainRecord, class_named, domain_of};

use domain_resolver::World;
use jk_model::{ClassId, DomainId};

/// The most bytes of a word of a script.
pub(crate) const MOST_BYTES: usize = 255;

/// The class that a domain knows by this name in ASCII.
pub(crate) fn class_named(w: &World, d: DomainId, class: &[u8]) -> Option<ClassId>
    requires { length class.now ≤ 255 }
    ensures { (names : DomainRecord) → domain_of w.now d ≡ Some names → result ≡ class_named names.table class.now }
{
    let mut units = [0u16; MOST_BYTES];
    widen(class, &mut units);
    let names = w.domain(d)?;
    names.table().resolve(&units[..class.len()])
}

/// Puts bytes in front of some units, each as one unit.
pub(crate) fn widen(bytes: &[u8], units: &mut [u16])
    requires { length bytes.now ≤ length units.old }
    ensures front { take (length bytes.now) units.new ≡ bytes.now }
    ensures length { length units.new ≡ length units.old }
{
    for i in 0..bytes.len() {
        units[i] = u16::from(bytes[i]);
    }
}
