//! What a domain is to others.

ghost use Rattle.std.specs.Prelude.{◌≡◌, false, true};

use crate::name_table::NameTable;
use crate::offers::Offers;
use jk_model::{Bytes, DomainId};
use std::marker::Model;

/// What a domain is to others: its name, whether it lives, what its names mean and what it offers. Names and
/// offers stay when it is killed.
#[derive(Drop)]
pub struct DomainNames {
    id: DomainId,
    name: Bytes,
    live: bool,
    table: NameTable,
    offers: Offers,
}

impl Model for DomainNames {
    ghost use Rattle.jk_model_classes.specs.Worlds.{DomainRecord};

    ghost Value = { DomainRecord };

    ghost view = { λ d. record { id = d.id; name = d.name; live = d.live; table = d.table; offers = d.offers } };
}

impl DomainNames {
    /// A live domain.
    pub(crate) fn new(id: DomainId, name: Bytes, table: NameTable, offers: Offers) -> DomainNames
        ensures { result ≡ record { id = id; name = name; live = true; table = table; offers = offers } }
    {
        DomainNames {
            id,
            name,
            live: true,
            table,
            offers,
        }
    }

    /// Its number.
    pub fn id(&self) -> DomainId
        ensures { result ≡ self.now.id }
    {
        self.id
    }

    /// Its name.
    pub fn name(&self) -> &Bytes
        ensures { result.now ≡ self.now.name }
    {
        &self.name
    }

    /// Whether it lives.
    pub fn is_live(&self) -> bool
        ensures { result ≡ self.now.live }
    {
        self.live
    }

    /// What its names mean.
    pub fn table(&self) -> &NameTable
        ensures { result.now ≡ self.now.table }
    {
        &self.table
    }

    /// What it offers.
    pub fn offers(&self) -> &Offers
        ensures { result.now ≡ self.now.offers }
    {
        &self.offers
    }

    /// Lets it live no more.
    pub(crate) fn end(&mut self)
        ensures { self.new ≡ record self.old { live = false } }
    {
        self.live = false;
    }
}
