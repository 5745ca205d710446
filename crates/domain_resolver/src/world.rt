//! The world in which a folder is loaded.

ghost use Rattle.std.specs.Prelude.{◌≡◌, ◌+◌, ◌-◌, ◌^◌, ◌<◌, ◌≤◌, ◌∷◌, ◌++◌, [], ℕ, List, length, take, true, IfOk, OnOk, OnErr, MatchOption, Some, slice_get};
ghost use Rattle.std.specs.Option.{option_copied};
ghost use Rattle.jk_model.specs.declared.identifiers.DomainId.{DomainId as ADomainId};
ghost use Rattle.jk_model_classes.specs.Classes.{HasClass, GetsLinks, StandsAbove, AreOrdered};
ghost use Rattle.jk_model_classes.specs.SystemRecords.{AreSystemRecords};
ghost use Rattle.jk_model_classes.specs.Worlds.{DomainRecord, domain_of, IsLiveNamed};
ghost use Rattle.domain_resolver.specs.LiveDomains.{EndsDomain, IsLiveLast, IsNumbered, LosesName, SetsEnded};
ghost use Rattle.domain_resolver.specs.LiveNames.{place_of};

use crate::domain_names::DomainNames;
use crate::live_names::{LiveNames, find, put, take_out};
use crate::name_table::NameTable;
use crate::offers::Offers;
use class_table::ClassTable;
use jk_model::{Bytes, ClassId, DomainId, List, OutOfMemory};
use jk_model_classes::{ClassRecord, Link};
use std::alloc::Global;
use std::collections::BTreeMap;
use std::marker::Model;

/// All classes, and all domains ever added, in order. A live domain is found by its name in an ordered map.
#[derive(Drop)]
pub struct World {
    alloc: Global,
    classes: ClassTable,
    domains: Vec<DomainNames>,
    /// The numbers of the live domains by their names.
    live: LiveNames,
}

impl Model for World {
    ghost use Rattle.jk_model_classes.specs.Worlds.{WorldRecord};
    ghost use Rattle.domain_resolver.specs.LiveDomains.{IsIndexed};
    ghost use Rattle.domain_resolver.specs.LiveNames.{place_of};

    ghost Value = { WorldRecord };

    ghost view = { λ w. record { classes = w.classes; domains = w.domains.items } };

    ghost invariant = { λ w. IsIndexed (place_of w.live) w.domains.items };
}

impl World {
    /// The system classes, and no domain.
    pub fn new(alloc: Global) -> Result<World, OutOfMemory>
        ensures classes { IfOk result (λ w. AreSystemRecords w.classes) }
        ensures domains { IfOk result (λ w. w.domains ≡ []) }
    {
        let classes = ClassTable::new(alloc)?;
        Ok(World {
            alloc,
            classes,
            domains: Vec::new(alloc),
            live: BTreeMap::new(alloc),
        })
    }

    /// What holds of each world: a domain's number is its place, the names of live domains differ, and a class
    /// stands after its parent and its interfaces. It does nothing.
    pub fn holds(&self)
        ensures numbered { IsNumbered self.now.domains }
        ensures few_domains { length self.now.domains < 2 ^ 32 - 1 }
        ensures names_differ { (name : List ℕ) (a b : ADomainId) → IsLiveNamed self.now name a → IsLiveNamed self.now name b → a ≡ b }
        ensures ordered { AreOrdered self.now.classes }
    {
        let _domains = &self.domains;
        self.classes.ordered();
    }

    /// All classes.
    pub fn classes(&self) -> &ClassTable
        ensures { result.now ≡ self.now.classes }
    {
        &self.classes
    }

    /// Puts a class after all others, and answers its number, as `ClassTable::add` does. After an error all is
    /// as before.
    pub fn add_class(&mut self, c: ClassRecord) -> Result<ClassId, OutOfMemory>
        requires above { StandsAbove (length self.old.classes) c }
        requires few { length self.old.classes < 2 ^ 32 - 1 }
        requires fields { length c.fields ≤ 65535 }
        requires methods { length c.methods ≤ 65535 }
        ensures number { IfOk result (λ n. n.0 ≡ length self.old.classes) }
        ensures ok { OnOk result (self.new ≡ record self.old { classes = self.old.classes ++ c ∷ [] }) }
        ensures err { OnErr result (self.new ≡ self.old) }
    {
        self.classes.add(c)
    }

    /// Gives a class other links.
    pub fn set_links(&mut self, c: ClassId, links: List<Link>)
        requires { HasClass self.old.classes c }
        ensures classes { GetsLinks self.old.classes c links self.new.classes }
        ensures domains { self.new.domains ≡ self.old.domains }
    {
        self.classes.set_links(c, links);
    }

    /// Drops every class from this one on.
    pub fn cut_classes(&mut self, first: ClassId)
        ensures { self.new ≡ record self.old { classes = take first.0 self.old.classes } }
    {
        self.classes.cut(first);
    }

    /// How many domains were ever added.
    pub fn domain_count(&self) -> usize
        ensures count { result ≡ length self.now.domains }
        ensures few { result < 2 ^ 32 - 1 }
    {
        self.domains.len()
    }

    /// A domain by its number; none where there is none.
    pub fn domain(&self, d: DomainId) -> Option<&DomainNames>
        ensures { option_copied result ≡ domain_of self.now d }
    {
        self.domains.get(d.0 as usize)
    }

    /// The live domain of this name. It takes no memory, and time in proportion to log n for n live domains.
    pub fn live_named(&self, name: &[u8]) -> Option<DomainId>
        ensures { MatchOption result ((d : ADomainId) → IsLiveNamed self.now name.now d → ⊥) (λ d. IsLiveNamed self.now name.now d) }
    {
        let place = find(&self.live, name)?;
        Some(DomainId(place))
    }

    /// Adds a live domain after all others, and answers its number. After an error all is as before.
    pub fn add_domain(
        &mut self,
        name: Bytes,
        table: NameTable,
        offers: Offers,
    ) -> Result<DomainId, OutOfMemory>
        requires free { (d : ADomainId) → IsLiveNamed self.old name d → ⊥ }
        requires few { length self.old.domains < 2 ^ 32 - 2 }
        ensures number { IfOk result (λ d. d.0 ≡ length self.old.domains) }
        ensures ok { OnOk result (self.new ≡ record self.old {
          domains = self.old.domains
              ++ record { id = record { 0 = length self.old.domains }; name = name; live = true; table = table; offers = offers } ∷ [];
        }) }
        ensures err { OnErr result (self.new ≡ self.old) }
    {
        let place = self.domains.len() as u32;
        let id = DomainId(place);
        self.domains.reserve(1)?;
        put(&mut self.live, self.alloc, name.as_slice(), place)?;
        let domain = DomainNames::new(id, name, table, offers);
        self.domains.push_reserved(domain);
        Ok(id)
    }

    /// Takes back the domain that was added last, which is live: all is as before it was added, and its name is free. The classes
    /// whose home it is are to be cut too. It takes no memory.
    pub fn take_back_domain(&mut self)
        requires { IsLiveLast self.old.domains }
        ensures { self.new ≡ record self.old { domains = take (length self.old.domains - 1) self.old.domains } }
    {
        if let Some(domain) = self.domains.pop() {
            take_out(&mut self.live, domain.name().as_slice());
        }
    }

    /// Ends a domain: no name finds it any more. Its names and offers stay. It takes no memory.
    pub fn end_domain(&mut self, d: DomainId)
        requires { d.0 < length self.old.domains }
        ensures { EndsDomain self.old d self.new }
    {
        end_at(&mut self.domains, &mut self.live, d.0 as usize);
    }
}

/// Ends the domain at a place, and lets its name go where it lived.
fn end_at(domains: &mut Vec<DomainNames>, live: &mut LiveNames, place: usize)
    requires { place < length domains.old.items }
    ensures domains { SetsEnded domains.old.items place domains.new.items }
    ensures live { (r : DomainRecord) → slice_get domains.old.items place ≡ Some r → LosesName r (place_of live.old) (place_of live.new) }
{
    let domain = &mut domains[place];
    if domain.is_live() {
        take_out(live, domain.name().as_slice());
    }
    domain.end();
}
