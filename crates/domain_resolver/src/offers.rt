//! What a domain offers to others.

ghost use Rattle.std.specs.Prelude.{◌≡◌, ◌↔◌, [], Contains, IsTrue, IfOk, IsPermutation, IsSorted};
ghost use Rattle.std.specs.Option.{option_copied};
ghost use Rattle.jk_model_classes.specs.Worlds.{IsOfferedTo, IsOfferedAs};
ghost use Rattle.jk_model_classes.specs.declared.sharing.Offer.{Offer as AnOffer};
ghost use Rattle.domain_resolver.specs.OfferOrder.{offer_cmp, to_cmp};

use jk_model::{Bytes, ClassId, OutOfMemory};
use jk_model_classes::Offer;
use std::alloc::Global;
use std::cmp::Ordering;
use std::marker::Model;

/// The offers of a domain, in the order of classes and then of the domains to which they go, so that one is
/// found by a search in order. A contract sees the list of them.
#[derive(Drop)]
pub struct Offers {
    offers: Vec<Offer>,
}

impl Model for Offers {
    ghost use Rattle.std.specs.Prelude.{List, IsSorted};
    ghost use Rattle.jk_model_classes.specs.declared.sharing.Offer.{Offer};
    ghost use Rattle.domain_resolver.specs.OfferOrder.{offer_cmp};

    ghost Value = { List Offer };

    ghost view = { λ o. o.offers.items };

    ghost invariant = { λ o. IsSorted offer_cmp o.offers.items };
}

impl Offers {
    /// No offers, which take no memory yet.
    pub fn new(alloc: Global) -> Offers
        ensures { result ≡ [] }
    {
        Offers {
            offers: Vec::new(alloc),
        }
    }

    /// These offers. It takes time in proportion to n log n for n offers.
    pub fn of(mut offers: Vec<Offer>) -> Result<Offers, OutOfMemory>
        ensures { IfOk result (λ o. IsPermutation offers.items o) }
    {
        sort(&mut offers)?;
        Ok(Offers { offers })
    }

    /// All offers in their order.
    pub fn as_slice(&self) -> &[Offer]
        ensures { result.now ≡ self.now }
    {
        self.offers.as_slice()
    }

    /// Whether the class is offered at all. It takes no memory, and time in proportion to log n.
    pub fn has_class(&self, class: ClassId) -> bool
        ensures { IsTrue result ↔ ((o : AnOffer) × Contains self.now o × (o.class ≡ class)) }
    {
        has_offer_of(self.offers.as_slice(), class)
    }

    /// Whether the class is offered to every domain to which the other offer goes: the one of this name, or all
    /// where there is none. It takes no memory, and time in proportion to log n.
    pub fn goes_along(&self, class: ClassId, to: &Option<Bytes>) -> bool
        ensures { IsTrue result ↔ IsOfferedAs self.now class to.now }
    {
        match to {
            None => has_offer(self.offers.as_slice(), class, None),
            Some(name) => self.is_offered_to(class, name.as_slice()),
        }
    }

    /// Whether the class is offered to the domain of this name. It takes no memory, and time in proportion to
    /// log n.
    pub fn is_offered_to(&self, class: ClassId, name: &[u8]) -> bool
        ensures { IsTrue result ↔ IsOfferedTo self.now class name.now }
    {
        let offers = self.offers.as_slice();
        has_offer(offers, class, None) || has_offer(offers, class, Some(name))
    }
}

/// How the domains to which two offers go are ordered: all domains come first.
fn compare_to(a: &Option<Bytes>, b: Option<&[u8]>) -> Ordering
    ensures { result ≡ to_cmp a.now (option_copied b.entry) }
{
    match (a, b) {
        (None, None) => Ordering::Equal,
        (None, Some(_)) => Ordering::Less,
        (Some(_), None) => Ordering::Greater,
        (Some(a), Some(b)) => a.as_slice().cmp(&b),
    }
}

/// How an offer is ordered to that of this class to this domain, or to all.
fn compare_with(offer: &Offer, class: ClassId, to: Option<&[u8]>) -> Ordering
    ensures { result ≡ offer_cmp offer.now (record { class = class; to = option_copied to.entry }) }
{
    match offer.class.0.cmp(&class.0) {
        Ordering::Equal => compare_to(&offer.to, to),
        other => other,
    }
}

/// How two offers are ordered.
fn compare(a: &Offer, b: &Offer) -> Ordering
    ensures { result ≡ offer_cmp a.now b.now }
{
    match &b.to {
        None => compare_with(a, b.class, None),
        Some(to) => compare_with(a, b.class, Some(to.as_slice())),
    }
}

/// Puts offers in order.
fn sort(offers: &mut Vec<Offer>) -> Result<(), OutOfMemory>
    ensures same { IsPermutation offers.old.items offers.new.items }
    ensures sorted { IfOk result (λ _. IsSorted offer_cmp offers.new.items) }
{
    offers.sort_by(|a, b| compare(a, b))?;
    Ok(())
}

/// Whether offers in order have one of this class to this domain, or to all.
fn has_offer(offers: &[Offer], class: ClassId, to: Option<&[u8]>) -> bool
    requires { IsSorted offer_cmp offers.now }
    ensures { IsTrue result ↔ Contains offers.now (record { class = class; to = option_copied to.entry }) }
{
    offers
        .binary_search_by(|offer| compare_with(offer, class, to))
        .is_ok()
}

/// Whether offers in order have one of this class.
fn has_offer_of(offers: &[Offer], class: ClassId) -> bool
    requires { IsSorted offer_cmp offers.now }
    ensures { IsTrue result ↔ ((o : AnOffer) × Contains offers.now o × (o.class ≡ class)) }
{
    offers
        .binary_search_by(|offer| offer.class.0.cmp(&class.0))
        .is_ok()
}
