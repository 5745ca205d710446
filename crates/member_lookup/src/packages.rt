//! Runtime packages: a package with a home.

ghost use Rattle.std.specs.Prelude.{◌≡◌, ◌↔◌, IsTrue};
ghost use Rattle.jk_model_classes.specs.Lookups.{AreInOnePackage, IsPackageOf};
ghost use Rattle.member_lookup.specs.Words.{HaveOnePackage};

use class_table::ClassTable;
use jk_model::ClassId;
use jk_model_classes::ClassRecord;

const SLASH: u16 = 47;

/// The beginning of a name up to the last `/`, that one included.
fn package_of(name: &[u16]) -> &[u16]
    ensures { IsPackageOf name.now result.now }
{
    let mut end = name.len();
    while end > 0 && name[end - 1] != SLASH {
        end -= 1;
    }
    &name[..end]
}

/// Whether two classes are in one runtime package: a package with a home. It takes no memory, and time in proportion to
/// their names.
pub fn in_one_package(t: &ClassTable, a: ClassId, b: ClassId) -> bool
    ensures { IsTrue result ↔ AreInOnePackage t.now a b }
{
    match (t.class(a), t.class(b)) {
        (Some(a), Some(b)) => have_one_home(a, b) && have_one_package(a, b),
        _ => false,
    }
}

/// Whether two classes have the same home, or neither has one.
fn have_one_home(a: &ClassRecord, b: &ClassRecord) -> bool
    ensures { IsTrue result ↔ (a.now.home ≡ b.now.home) }
{
    a.home == b.home
}

/// Whether the names of two classes have the same package.
fn have_one_package(a: &ClassRecord, b: &ClassRecord) -> bool
    ensures { IsTrue result ↔ HaveOnePackage a.now.name b.now.name }
{
    package_of(a.name.as_slice()) == package_of(b.name.as_slice())
}
