//! Which live domain has a name.

ghost use Rattle.std.specs.Prelude.{◌≡◌, ℕ, List, None, Some, bytes_eq, if◌then◌else◌, OnOk, OnErr};
ghost use Rattle.domain_resolver.specs.LiveNames.{place_of};

use jk_model::OutOfMemory;
use std::alloc::Global;
use std::collections::BTreeMap;

/// The places of the live domains, by their names.
pub(crate) type LiveNames = BTreeMap<Vec<u8>, u32>;

/// The place for a name.
pub(crate) fn find(names: &LiveNames, name: &[u8]) -> Option<u32>
    ensures { result ≡ place_of names.now name.now }
{
    names.get(name).copied()
}

/// Takes in a name and its place.
pub(crate) fn put(
    names: &mut LiveNames,
    alloc: Global,
    name: &[u8],
    place: u32,
) -> Result<(), OutOfMemory>
    ensures ok { OnOk result ((q : List ℕ) → place_of names.new q ≡ (if bytes_eq name.now q then Some place else place_of names.old q)) }
    ensures err { OnErr result ((q : List ℕ) → place_of names.new q ≡ place_of names.old q) }
{
    let name = Vec::from_slice(alloc, name)?;
    names.insert(name, place)?;
    Ok(())
}

/// Lets a name go.
pub(crate) fn take_out(names: &mut LiveNames, name: &[u8])
    ensures { (q : List ℕ) → place_of names.new q ≡ (if bytes_eq name.now q then None else place_of names.old q) }
{
    names.remove(name);
}
