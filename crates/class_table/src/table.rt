//! The table of all classes.

ghost use Rattle.std.specs.Prelude.{◌≡◌, ◌+◌, ◌-◌, ◌^◌, ◌<◌, ◌≤◌, ◌↔◌, ◌++◌, ◌∷◌, [], Some, IfOk, IfNone, IfSome, IsTrue, OnErr, OnOk, length, option_map, slice_get, take};
ghost use Rattle.std.specs.Slice.{IsItemAt};
ghost use Rattle.jk_model.specs.Flags.{STATIC, has};
ghost use Rattle.jk_model.specs.declared.identifiers.ClassId.{ClassId as AClassId};
ghost use Rattle.jk_model_classes.specs.declared.records.ClassRecord.{ClassRecord as AClass};
ghost use Rattle.jk_model_classes.specs.declared.records.FieldRecord.{FieldRecord};
ghost use Rattle.jk_model_classes.specs.Classes.{AreOrdered, GetsLinks, HasClass, Implements, IsSubclass, StandsAbove, field_walk, firsts, record_of, with_interfaces};
ghost use Rattle.jk_model_classes.specs.Layouts.{InstanceField, cost_of, instance_fields, layout_of};
ghost use Rattle.jk_model_classes.specs.Lookups.{FieldIs, FindsFrom, IsFieldOf, IsMethodOf};
ghost use Rattle.jk_model_classes.specs.SystemRecords.{AreSystemRecords};

use crate::entry::Entry;
use crate::layouts::Layout;
use crate::new_entry::new_entry;
use crate::{reading, upwards};
use jk_model::{ClassId, List, MemberId, OutOfMemory};
use jk_model_classes::{ClassRecord, Link};
use member_index::{FieldKey, MethodKey};
use std::alloc::Global;
use std::marker::Model;
use system_records::system_record;
use system_table::count;

/// The records of all classes, which contracts see as the list of them. The system classes come first, in the
/// order of their table.
///
/// Beside its record each class keeps the classes of its walk, each once (4 bytes each), an index of its members
/// (24 bytes each or fewer), where its own instance fields stand (8 bytes each or fewer), and an ancestor by which a
/// search upwards takes long steps.
#[derive(Drop)]
pub struct ClassTable {
    alloc: Global,
    /// One for each class.
    pub(crate) entries: Vec<Entry>,
}

impl Model for ClassTable {
    ghost use Rattle.std.specs.Prelude.{List};
    ghost use Rattle.jk_model_classes.specs.declared.records.ClassRecord.{ClassRecord};

    ghost Value = { List ClassRecord };

    ghost use Rattle.class_table.specs.Entries.{IsTable, records};

    ghost view = { λ t. records t.entries.items };

    ghost invariant = { λ t. IsTable t.entries.items };
}

impl ClassTable {
    /// The system classes alone.
    pub fn new(alloc: Global) -> Result<ClassTable, OutOfMemory>
        ensures { IfOk result (λ t. AreSystemRecords t) }
    {
        let mut table = ClassTable {
            alloc,
            entries: Vec::new(alloc),
        };
        for n in 0..count() {
            let class = system_record(alloc, n)?;
            table.add(class)?;
        }
        Ok(table)
    }

    /// What holds of each table: a class stands after its parent and its interfaces, and has at most 65,535 fields
    /// and as many methods. It does nothing.
    pub fn ordered(&self)
        ensures ordered { AreOrdered self.now }
        ensures members { (c : AClassId) (r : AClass) → record_of self.now c ≡ Some r
            → (length r.fields ≤ 65535) × (length r.methods ≤ 65535) }
    {
        let _entries = &self.entries;
    }

    /// How many classes there are.
    pub fn len(&self) -> usize
        ensures count { result ≡ length self.now }
        ensures few { result < 2 ^ 32 }
    {
        self.entries.len()
    }

    /// Puts a class after all others, and answers its number. It takes time in proportion to the record's members
    /// (n log n) and to the walks of its parent and of the interfaces that it lists, and memory as said at the type.
    /// After an error all is as before.
    pub fn add(&mut self, c: ClassRecord) -> Result<ClassId, OutOfMemory>
        requires above { StandsAbove (length self.old) c }
        requires few { length self.old < 2 ^ 32 - 1 }
        requires fields { length c.fields ≤ 65535 }
        requires methods { length c.methods ≤ 65535 }
        ensures number { IfOk result (λ n. n.0 ≡ length self.old) }
        ensures ok { OnOk result (self.new ≡ self.old ++ c ∷ []) }
        ensures err { OnErr result (self.new ≡ self.old) }
    {
        let number = ClassId(self.entries.len() as u32);
        let entry = new_entry(self.alloc, self.entries.as_slice(), c)?;
        self.entries.push(entry)?;
        Ok(number)
    }

    /// Gives a class other links.
    pub fn set_links(&mut self, c: ClassId, links: List<Link>)
        requires { HasClass self.old c }
        ensures { GetsLinks self.old c links self.new }
    {
        let entry = &mut self.entries[c.0 as usize];
        entry.class.links = links;
    }

    /// Drops every class from this one on.
    pub fn cut(&mut self, first: ClassId)
        ensures { self.new ≡ take first.0 self.old }
    {
        self.entries.truncate(first.0 as usize);
    }

    /// The record of a class; none where there is no such class.
    pub fn class(&self, c: ClassId) -> Option<&ClassRecord>
        ensures { IsItemAt self.now c.0 result }
    {
        let entry = upwards::entry_at(self.entries.as_slice(), c)?;
        Some(&entry.class)
    }

    /// Whether class a is class b or stands below it through parents. It takes no memory, and at most one step for each
    /// class above a.
    pub fn is_subclass(&self, a: ClassId, b: ClassId) -> bool
        ensures { IsTrue result ↔ IsSubclass self.now a b }
    {
        upwards::is_subclass(self.entries.as_slice(), a, b)
    }

    /// Whether i is an interface that class a implements. An interface implements itself. It takes no memory, and at most
    /// one step for each class and interface above a.
    pub fn implements(&self, a: ClassId, i: ClassId) -> bool
        ensures { IsTrue result ↔ Implements self.now a i }
    {
        reading::implements(self.entries.as_slice(), a, i)
    }

    /// What an object of a class is made of, in constant time; none where there is no such class.
    pub fn layout(&self, c: ClassId) -> Option<Layout<'_>>
        ensures none { IfNone result (HasClass self.now c → ⊥) }
        ensures some { IfSome result (λ l. HasClass self.now c × (l ≡ layout_of self.now c)) }
    {
        if (c.0 as usize) < self.len() {
            Some(Layout::new(self, c))
        } else {
            None
        }
    }

    /// How many words an object of a class costs, in constant time; none where there is no such class.
    pub fn cost(&self, c: ClassId) -> Option<u32>
        ensures none { IfNone result (HasClass self.now c → ⊥) }
        ensures some { IfSome result (λ n. HasClass self.now c × (n ≡ cost_of self.now c)) }
    {
        reading::cost(self.entries.as_slice(), c)
    }

    /// The place of an instance field in the layouts of its class and of all classes below it, in constant time; none
    /// where the member is no instance field.
    pub fn place_of(&self, m: MemberId) -> Option<usize>
        ensures none { IfNone result ((field : FieldRecord) → FieldIs self.now m field → IsTrue (has field.flags STATIC)) }
        ensures some { IfSome result (λ i. option_map (λ (f : InstanceField). f.member) (slice_get (instance_fields self.now m.class) i) ≡ Some m) }
    {
        reading::place_of(self.entries.as_slice(), m)
    }

    /// The class's own field of a name and a type, at place `from` or after it. It takes no memory, and time in proportion
    /// to log n for n fields and to the length of the name where it finds one.
    pub fn own_field(&self, c: ClassId, key: &FieldKey<'_>, from: u16) -> Option<u16>
        ensures { FindsFrom (IsFieldOf self.now key.now.name key.now.kind) c from result }
    {
        reading::own_field(self.entries.as_slice(), c, key, from)
    }

    /// The class's own method of a name and a type, at place `from` or after it. As `own_field`.
    pub fn own_method(&self, c: ClassId, key: &MethodKey<'_>, from: u16) -> Option<u16>
        ensures { FindsFrom (IsMethodOf self.now key.now.name key.now.kind) c from result }
    {
        reading::own_method(self.entries.as_slice(), c, key, from)
    }

    /// The classes and interfaces among which a field of class c is looked for, each once, in the order in which they come;
    /// none where there is no such class.
    pub fn walk(&self, c: ClassId) -> Option<&[ClassId]>
        ensures none { IfNone result (HasClass self.now c → ⊥) }
        ensures some { IfSome result (λ w. HasClass self.now c × (w.now ≡ firsts (field_walk self.now c))) }
    {
        reading::walk(self.entries.as_slice(), c)
    }

    /// An interface and those above it, each once, in the order in which they come: the beginning of its walk. None where
    /// there is no such class.
    pub fn interface_walk(&self, i: ClassId) -> Option<&[ClassId]>
        ensures none { IfNone result (HasClass self.now i → ⊥) }
        ensures some { IfSome result (λ w. HasClass self.now i × (w.now ≡ firsts (with_interfaces self.now i))) }
    {
        reading::interface_walk_of(self.entries.as_slice(), i)
    }
}
