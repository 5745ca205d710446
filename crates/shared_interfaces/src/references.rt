//! C26: to what a shared class refers is shared as far as itself.

ghost use Rattle.std.specs.Prelude.{◌↔◌, ◌<◌, ◌≤◌, IsTrue, length};
ghost use Rattle.jk_model_classes.specs.SharedRules.{BreaksC26, GoesAlong};
ghost use Rattle.shared_interfaces.specs.Earliest.{IsEarliest};
ghost use Rattle.shared_interfaces.specs.Shapes.{ExposesAny, ExposesInRun, IsOfferedBy, IsRun, StaysBehind};

use crate::earliest::{Breach, earlier};
use domain_resolver::{Offers, World};
use jk_model::{Bytes, ClassId, DomainId};
use jk_model_classes::Offer;

/// The first class of a folder that is shared and refers to a class that isn't shared with it. It asks for one class
/// after another, as the offers are in the order of classes, and goes over the references of each once.
pub(crate) fn first_exposed(
    w: &World,
    home: DomainId,
    first: ClassId,
    offers: &Offers,
) -> Option<Breach>
    ensures { IsEarliest w.now.classes (BreaksC26 w.now home first offers.now) result }
{
    let all = offers.as_slice();
    let mut best = None;
    let mut start = 0;
    while start < all.len() {
        let class = all[start].class;
        let end = end_of_run(all, start);
        let number = exposes(w, home, first, offers, class, start, end).then_some(0);
        best = earlier(w.classes(), best, class, number);
        start = end;
    }
    best
}

/// Where the offers end that follow the one at `start` and are of its class.
fn end_of_run(offers: &[Offer], start: usize) -> usize
    requires { start < length offers.now }
    ensures { IsRun offers.now start result }
{
    let class = offers[start].class;
    for end in start + 1..offers.len() {
        if offers[end].class.0 != class.0 {
            return end;
        }
    }
    offers.len()
}

/// Whether a class of the folder, which the offers from `start` to `end` are of, refers to one that doesn't go along
/// with each of them.
fn exposes(
    w: &World,
    home: DomainId,
    first: ClassId,
    offers: &Offers,
    class: ClassId,
    start: usize,
    end: usize,
) -> bool
    requires { end ≤ length offers.now }
    ensures { IsTrue result ↔ ExposesInRun w.now home first offers.now start end class }
{
    if class.0 < first.0 {
        return false;
    }
    match w.classes().class(class) {
        Some(record) => exposes_any(w, home, offers, start, end, record.references.as_slice()),
        None => false,
    }
}

/// Whether one of the classes doesn't go along with each offer from `start` to `end`.
fn exposes_any(
    w: &World,
    home: DomainId,
    offers: &Offers,
    start: usize,
    end: usize,
    references: &[ClassId],
) -> bool
    requires { end ≤ length offers.now }
    ensures { IsTrue result ↔ ExposesAny w.now home offers.now start end references.now }
{
    for c in references {
        if stays_behind(w, home, offers, start, end, *c) {
            return true;
        }
    }
    false
}

/// Whether a class doesn't go along with one of the offers from `start` to `end`. Where it is of the system, or is
/// offered to all, none is asked.
fn stays_behind(
    w: &World,
    home: DomainId,
    offers: &Offers,
    start: usize,
    end: usize,
    c: ClassId,
) -> bool
    requires { end ≤ length offers.now }
    ensures { IsTrue result ↔ StaysBehind w.now home offers.now start end c }
{
    if goes_along(w, home, offers, &None, c) {
        return false;
    }
    let all = offers.as_slice();
    for i in start..end {
        if !goes_along(w, home, offers, &all[i].to, c) {
            return true;
        }
    }
    false
}

/// Whether a class is one of the system, or its home offers it wherever an offer goes.
fn goes_along(w: &World, home: DomainId, offers: &Offers, to: &Option<Bytes>, c: ClassId) -> bool
    ensures { IsTrue result ↔ GoesAlong w.now home offers.now to.now c }
{
    let Some(record) = w.classes().class(c) else {
        return false;
    };
    match record.home {
        None => true,
        Some(d) => is_offered_by(w, home, offers, d, to, c),
    }
}

/// Whether a domain offers a class wherever an offer goes.
fn is_offered_by(
    w: &World,
    home: DomainId,
    offers: &Offers,
    d: DomainId,
    to: &Option<Bytes>,
    c: ClassId,
) -> bool
    ensures { IsTrue result ↔ IsOfferedBy w.now home offers.now to.now d c }
{
    if d == home {
        return offers.goes_along(c, to);
    }
    match w.domain(d) {
        Some(domain) => domain.offers().goes_along(c, to),
        None => false,
    }
}
