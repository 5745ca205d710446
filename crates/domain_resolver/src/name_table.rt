//! What the names of a domain mean.

ghost use Rattle.std.specs.Prelude.{◌≡◌, ◌<◌, ◌==◌, ◌↔◌, ◌∷◌, ◌++◌, [], ℕ, true, IsTrue, if◌then◌else◌, MatchOption, IfOk, OnOk, OnErr, None, Some, length, nat_eq, option_map, slice_get};
ghost use Rattle.jk_model.specs.declared.identifiers.ClassId.{ClassId as AClassId};
ghost use Rattle.indexmap.specs.IndexSet.{contains, spare};
ghost use Rattle.shared_values.specs.Fingerprints.{fingerprint_of};
ghost use Rattle.jk_model_classes.specs.Worlds.{NamedClass, class_named, Gives, IsNamed};
ghost use Rattle.domain_resolver.specs.NameIndex.{IsNewest, AreChained, HasName, LacksName};

use indexmap::IndexSet;
use jk_model::{ClassId, OutOfMemory};
use shared_values::{Text, fingerprint};
use std::alloc::Global;
use std::collections::BTreeMap;
use std::marker::Model;

/// A name and the class that it means.
#[derive(Drop)]
struct NameEntry {
    name: Text,
    class: ClassId,
    /// The place of the newest entry before this one whose name has the same fingerprint.
    before: Option<usize>,
}

/// The classes of a domain by their names, in the order in which they were given. A contract sees the list of
/// names with their classes; no name is there twice. A name stands in memory once for all tables that have it.
#[derive(Drop)]
pub struct NameTable {
    entries: Vec<NameEntry>,
    /// The place of the newest entry whose name has a fingerprint. It is kept by order: strangers choose the names, and where a
    /// hash is known, they find many that agree in the few bits of it that say where a hashed map puts them.
    newest: BTreeMap<u64, usize>,
    /// The numbers of the classes that some name means.
    classes: IndexSet<u32>,
}

impl Model for NameTable {
    ghost use Rattle.std.specs.Prelude.{List, map};
    ghost use Rattle.jk_model_classes.specs.Worlds.{NamedClass};
    ghost use Rattle.domain_resolver.specs.NameIndex.{named_class, IsIndex};

    ghost Value = { List NamedClass };

    ghost view = { λ t. map named_class t.entries.items };

    ghost invariant = { λ t. IsIndex t.entries.items t.newest.entries t.classes.keys };
}

impl NameTable {
    /// A table without names, which takes no memory yet.
    pub fn new(alloc: Global) -> NameTable
        ensures { result ≡ [] }
    {
        NameTable {
            entries: Vec::new(alloc),
            newest: BTreeMap::new(alloc),
            classes: IndexSet::new(alloc),
        }
    }

    /// Gives a name a meaning. False, with nothing changed, exactly where it means another class.
    pub fn give(&mut self, name: &Text, class: ClassId) -> Result<bool, OutOfMemory>
        ensures given { IfOk result (λ given. Gives self.old name.now class given self.new) }
        ensures err { OnErr result (self.new ≡ self.old) }
        // Of a name that means a class already it takes no memory.
        ensures there { (other : AClassId) → class_named self.old name.now ≡ Some other → OnErr result ⊥ }
    {
        if let Some(other) = self.resolve_text(name) {
            return Ok(other == class);
        }
        let name = name.share()?;
        self.add(name, class)?;
        Ok(true)
    }

    /// What a name means. It takes no memory, and time in proportion to the name.
    pub fn resolve(&self, name: &[u16]) -> Option<ClassId>
        ensures { result ≡ class_named self.now name.now }
    {
        self.class_of(name, fingerprint(name))
    }

    /// What a name means that keeps its fingerprint. It takes no memory, and goes over the name only to compare it with one that
    /// has the same fingerprint.
    pub fn resolve_text(&self, name: &Text) -> Option<ClassId>
        ensures { result ≡ class_named self.now name.now }
    {
        self.class_of(name.as_slice(), name.fingerprint())
    }

    /// Whether some name means this class. It takes no memory, and constant time.
    pub fn has_class(&self, class: ClassId) -> bool
        ensures { IsTrue result ↔ IsNamed self.now class }
    {
        self.classes.contains(&class.0)
    }

    /// How many names there are.
    pub fn len(&self) -> usize
        ensures { result ≡ length self.now }
    {
        self.entries.len()
    }

    /// Whether there is no name.
    pub fn is_empty(&self) -> bool
        ensures { IsTrue result ↔ (self.now ≡ []) }
    {
        self.entries.is_empty()
    }

    /// The class of the name at a place, in the order in which they were given.
    pub fn class_at(&self, i: usize) -> Option<ClassId>
        ensures { result ≡ option_map (λ (e : NamedClass). e.class) (slice_get self.now i) }
    {
        let entry = self.entries.get(i)?;
        Some(entry.class)
    }

    /// What holds of each table: no name is there twice. It does nothing.
    pub fn names_differ(&self)
        ensures { (i j : ℕ) (a b : NamedClass) → slice_get self.now i ≡ Some a → slice_get self.now j ≡ Some b → a.name ≡ b.name → i ≡ j }
    {
        let _entries = &self.entries;
    }

    /// What a name of this fingerprint means.
    fn class_of(&self, name: &[u16], fingerprint: u64) -> Option<ClassId>
        requires { fingerprint ≡ fingerprint_of name.now }
        ensures { result ≡ class_named self.now name.now }
    {
        let newest = self.newest.get(&fingerprint).copied();
        class_from(self.entries.as_slice(), newest, name)
    }

    /// Puts a name that has no meaning yet after all others.
    fn add(&mut self, name: Text, class: ClassId) -> Result<(), OutOfMemory>
        requires { class_named self.old name ≡ None }
        ensures ok { OnOk result (self.new ≡ self.old ++ record { name = name; class = class } ∷ []) }
        ensures err { OnErr result (self.new ≡ self.old) }
    {
        self.entries.reserve(1)?;
        self.classes.reserve(1)?;
        let place = self.entries.len();
        let before = self.newest.insert(name.fingerprint(), place)?;
        insert_reserved(&mut self.classes, class.0);
        self.entries.push_reserved(NameEntry {
            name,
            class,
            before,
        });
        Ok(())
    }
}

/// The class of the entry with this name. It looks at the entries whose names have its fingerprint, of which
/// the newest stands at the place given.
fn class_from(entries: &[NameEntry], newest: Option<usize>, name: &[u16]) -> Option<ClassId>
    requires newest { IsNewest entries.now (fingerprint_of name.now) (length entries.now) newest }
    requires each { AreChained entries.now }
    ensures { MatchOption result (LacksName entries.now name.now) (λ class. HasName entries.now name.now class) }
{
    let mut next = newest;
    while let Some(place) = next {
        let entry = &entries[place];
        if entry.name.is(name) {
            return Some(entry.class);
        }
        next = entry.before;
    }
    None
}

/// Puts a number into a set that has room for it.
fn insert_reserved(numbers: &mut IndexSet<u32>, number: u32)
    requires { 0 < spare numbers.old }
    ensures { (n : ℕ) → contains nat_eq numbers.new n ≡ (if number == n then true else contains nat_eq numbers.old n) }
{
    match numbers.insert(number) {
        Ok(_) => {}
        Err(_) => unreachable!(),
    }
}
