//! What names mean in a folder that is read.

ghost use Rattle.std.specs.Prelude.{◌↔◌, IsTrue};
ghost use Rattle.name_rules.specs.KnownNames.{Lacks};

use domain_resolver::NameTable;
use std::alloc::Global;

/// What names mean.
#[derive(Clone, Copy)]
pub(crate) struct Names<'a> {
    pub(crate) alloc: Global,
    /// The classes of the domain's other names: of system classes and imports.
    pub(crate) outer: &'a NameTable,
    /// The places of the folder's files by the names of their classes.
    pub(crate) own: &'a NameTable,
}

impl<'a> Names<'a> {
    /// Whether a name has no meaning.
    pub(crate) fn lack(&self, name: &[u16]) -> bool
        ensures { IsTrue result ↔ Lacks self.now name.now }
    {
        self.own.resolve(name).is_none() && self.outer.resolve(name).is_none()
    }
}
