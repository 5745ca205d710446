//! What a domain offers by its `resolver.txt`.

ghost use Rattle.std.specs.Prelude.{◌≡◌, IfOk, MatchOption};
ghost use Rattle.jk_model_classes.specs.declared.sharing.Offer.{Offer as AnOffer};
ghost use Rattle.folder_loader.specs.OffersOfLines.{AreOffersOf, IsOfferOf, IsOneOffer};

use domain_resolver::{NameTable, Offers};
use jk_model::{Bytes, OutOfMemory, Units};
use jk_model_classes::{Offer, ResolverLine, ResolverWord};
use std::alloc::Global;

/// A name in ASCII as UTF-16, where each byte is a unit.
fn units_of(alloc: Global, bytes: &[u8]) -> Result<Units, OutOfMemory>
    ensures { IfOk result (λ units. units ≡ bytes.now) }
{
    let mut units = Units::new(alloc);
    for byte in bytes {
        units.push(u16::from(*byte))?;
    }
    Ok(units)
}

/// To whom an offer goes, once more.
fn copied(to: &Option<Bytes>) -> Result<Option<Bytes>, OutOfMemory>
    ensures { IfOk result (λ copy. copy ≡ to.now) }
{
    match to {
        Some(name) => Ok(Some(name.copied()?)),
        None => Ok(None),
    }
}

/// The offer that a line makes; none where it shares no class that has a name in the domain.
fn offer_of(
    alloc: Global,
    line: &ResolverLine,
    table: &NameTable,
) -> Result<Option<Offer>, OutOfMemory>
    ensures { IfOk result (λ found. MatchOption found ((o : AnOffer) → IsOfferOf table.now line.now o → ⊥) (λ o. IsOneOffer table.now line.now o)) }
{
    let ResolverWord::Share { class, to } = &line.says else {
        return Ok(None);
    };
    let units = units_of(alloc, class.as_slice())?;
    let Some(class) = table.resolve(units.as_slice()) else {
        return Ok(None);
    };
    let to = copied(to)?;
    Ok(Some(Offer { class, to }))
}

/// What the lines of a `resolver.txt` offer.
pub(crate) fn offers_of(
    alloc: Global,
    lines: &[ResolverLine],
    table: &NameTable,
) -> Result<Offers, OutOfMemory>
    ensures { IfOk result (λ offers. AreOffersOf table.now lines.now offers) }
{
    let mut offers = Vec::new(alloc);
    for line in lines {
        if let Some(offer) = offer_of(alloc, line, table)? {
            offers.push(offer)?;
        }
    }
    Offers::of(offers)
}
