//! How what domains share is made anew of its parts.

ghost use Rattle.std.specs.Prelude.{◌≡◌, ℕ, ◌+◌, ◌<◌, ◌≤◌, ◌^◌, ◌==◌, ◌++◌, ◌∷◌, [], Contains, IfOk, OnOk, None, Some, find, if◌then◌else◌, length, map, slice_get, vec_capacity, vec_len};
ghost use Rattle.jk_model.specs.Capabilities.{last_number};
ghost use Rattle.jk_model_heaps.specs.Capabilities.{CapRange};
ghost use Rattle.jk_model_sharing.specs.BoundNames.{longest_name};
ghost use Rattle.jk_model_sharing.specs.CapabilityCalls.{count_numbers, first_range};
ghost use Rattle.jk_model_sharing.specs.SharedStates.{SharedState as State, caps_of};
ghost use Rattle.thread_segments.specs.declared.domains.DomainEntry.{DomainEntry as AnEntry};
ghost use Rattle.thread_segments.specs.declared.parts.NamePart.{NamePart as AName};
ghost use Rattle.thread_segments.specs.RestoredParts.{AreCapsOf, AreCountedUp, AreDomainsOf, AreEntriesOf, AreThreadsOf, ChangesEntry, MayMake, count_at, entry_told, more_names, more_threads, name_home, thread_home, with_name_room, with_names, with_one, with_made, with_thread_room};
ghost use Rattle.thread_segments.specs.RestoredStates.{IsToldBy};
ghost use Rattle.thread_stacks.specs.declared.parts.ThreadPart.{ThreadPart as AThread};

use crate::capabilities::Capabilities;
use crate::domains::DomainEntry;
use crate::names::Names;
use crate::parts::{CapPart, DomainPart, NamePart, SharedParts};
use crate::stub_index::StubIndex;
use capability_table::CapsError;
use jk_model::{DomainId, List, OutOfMemory};
use jk_model_classes::Stub;
use std::alloc::Global;
use thread_stacks::{ThreadPart, Threads};

/// What a domain asks of a quota: nothing after its end.
fn asked(live: bool, quota: u32) -> u32
    ensures { result ≡ (if live then quota else 0) }
{
    if live { quota } else { 0 }
}

/// The threads, with room for those that live domains may begin, and for the segments of these domains.
pub(crate) fn restored_threads(alloc: Global, parts: &SharedParts) -> Result<Threads, OutOfMemory>
    requires { (s : State) × IsToldBy s parts.now }
    ensures { IfOk result (AreThreadsOf parts.now) }
{
    let mut threads = Threads::new(alloc);
    reserve_threads(&mut threads, parts.domains.as_slice())?;
    threads.restore(
        parts.threads.as_slice(),
        parts.next_thread,
        parts.next_segment,
    )?;
    Ok(threads)
}

/// Makes room for the threads and segments of live domains.
fn reserve_threads(threads: &mut Threads, domains: &[DomainPart]) -> Result<(), OutOfMemory>
    ensures { OnOk result (threads.new ≡ with_thread_room domains.now threads.old) }
{
    for domain in domains {
        threads.reserve(
            asked(domain.live, domain.quotas.threads),
            asked(domain.live, domain.quotas.chunks),
        )?;
    }
    Ok(())
}

/// The stubs, found by their classes.
pub(crate) fn restored_stubs(alloc: Global, stubs: List<Stub>) -> Result<StubIndex, OutOfMemory>
    ensures { IfOk result (λ index. index.stubs ≡ stubs) }
{
    let mut index = StubIndex::new(alloc);
    index.reserve(stubs.len())?;
    index.add(stubs);
    Ok(index)
}

/// The names, with room for those that live domains may bind.
pub(crate) fn restored_names(alloc: Global, parts: &SharedParts) -> Result<Names, OutOfMemory>
    requires { (n : AName) → Contains parts.now.names n → length n.text ≤ longest_name }
    ensures { IfOk result (λ names. names ≡ with_names parts.now.names (with_name_room parts.now.domains (record { names = []; most = 0 }))) }
{
    let mut names = Names::new(alloc);
    reserve_names(&mut names, parts.domains.as_slice())?;
    add_names(&mut names, parts.names.as_slice())?;
    Ok(names)
}

/// Makes room for the names of live domains.
fn reserve_names(names: &mut Names, domains: &[DomainPart]) -> Result<(), OutOfMemory>
    ensures { OnOk result (names.new ≡ with_name_room domains.now names.old) }
{
    for domain in domains {
        names.reserve(asked(domain.live, domain.quotas.names))?;
    }
    Ok(())
}

/// Binds names behind the others, and makes room for each.
fn add_names(names: &mut Names, parts: &[NamePart]) -> Result<(), OutOfMemory>
    requires within { length names.old.names ≤ names.old.most }
    requires short { (n : AName) → Contains parts.now n → length n.text ≤ longest_name }
    ensures { OnOk result (names.new ≡ with_names parts.now names.old) }
{
    for part in parts {
        names.reserve(1)?;
        names.add(part.text.as_slice(), part.cap, part.binder);
    }
    Ok(())
}

/// The capabilities, each in its owner's range.
pub(crate) fn restored_caps(alloc: Global, parts: &SharedParts) -> Result<Capabilities, OutOfMemory>
    requires { (s : State) × IsToldBy s parts.now }
    ensures { IfOk result (λ caps. (s : State) → IsToldBy s parts.now → caps ≡ caps_of s) }
{
    let mut caps = Capabilities::new(alloc);
    admit_all(&mut caps, parts.domains.as_slice())?;
    make_all(&mut caps, parts.caps.as_slice());
    Ok(caps)
}

/// Gives each domain its range.
fn admit_all(caps: &mut Capabilities, domains: &[DomainPart]) -> Result<(), OutOfMemory>
    requires none { caps.old ≡ [] }
    requires state { (s : State) × AreDomainsOf domains.now s }
    ensures { OnOk result ((s : State) → AreDomainsOf domains.now s → caps.new ≡ map (with_made []) (caps_of s)) }
{
    for (place, domain) in domains.iter().enumerate() {
        admit(caps, DomainId(place as u32), domain.quotas.caps)?;
    }
    Ok(())
}

/// Gives a domain that has none a range, where there are so many numbers.
fn admit(caps: &mut Capabilities, owner: DomainId, count: u32) -> Result<(), OutOfMemory>
    requires new { find (λ (r : CapRange). r.owner.0 == owner.0) caps.old ≡ None }
    requires numbers { count_numbers caps.old + count ≤ last_number }
    ensures { OnOk result (caps.new ≡ caps.old ++ first_range caps.old owner count ∷ []) }
{
    match caps.admit(owner, count) {
        Ok(()) => Ok(()),
        Err(CapsError::OutOfMemory) => Err(OutOfMemory),
        Err(CapsError::Numbers) => unreachable!(),
    }
}

/// Makes the capabilities, each in its owner's range.
fn make_all(caps: &mut Capabilities, parts: &[CapPart])
    requires { (s : State) × AreCapsOf caps.old parts.now s }
    ensures { (s : State) → AreCapsOf caps.old parts.now s → caps.new ≡ caps_of s }
{
    for part in parts {
        make(caps, part);
    }
}

/// Creates the next capability of its owner's range, and revokes it where it is revoked.
fn make(caps: &mut Capabilities, part: &CapPart)
    requires { MayMake caps.old part.now }
    ensures { caps.new ≡ map (with_one part.now) caps.old }
{
    match caps.create(part.owner, part.class, part.target) {
        Ok(k) => {
            if part.revoked {
                caps.revoke(k);
            }
        }
        Err(_) => unreachable!(),
    }
}

/// The domains, with their threads and names counted.
pub(crate) fn restored_entries(
    alloc: Global,
    parts: &SharedParts,
) -> Result<Vec<DomainEntry>, OutOfMemory>
    requires { (s : State) × IsToldBy s parts.now }
    ensures { IfOk result (λ domains. AreEntriesOf parts.now domains.items) }
{
    let mut domains = entries_of(alloc, parts.domains.as_slice())?;
    count_threads(&mut domains, parts.threads.as_slice());
    count_names(&mut domains, parts.names.as_slice());
    Ok(domains)
}

/// The domains, of whose threads and names none is counted yet.
fn entries_of(alloc: Global, parts: &[DomainPart]) -> Result<Vec<DomainEntry>, OutOfMemory>
    ensures { IfOk result (λ domains. domains.items ≡ map entry_told parts.now) }
{
    let mut domains = Vec::with_capacity(alloc, parts.len())?;
    for part in parts {
        domains.push_reserved(DomainEntry {
            live: part.live,
            quotas: part.quotas,
            steps_left: part.steps_left,
            threads: 0,
            names: 0,
        });
    }
    Ok(domains)
}

/// Counts each thread where it was started.
fn count_threads(domains: &mut Vec<DomainEntry>, threads: &[ThreadPart])
    requires there { (i : ℕ) (t : AThread) → slice_get threads.now i ≡ Some t → t.domain.0 < length domains.old.items }
    requires few { (i : ℕ) (e : AnEntry) → slice_get domains.old.items i ≡ Some e → e.threads + count_at thread_home threads.now i < 2 ^ 32 }
    ensures { AreCountedUp thread_home more_threads domains.old.items domains.new.items threads.now }
{
    for thread in threads {
        count_thread(domains, thread.domain);
    }
}

/// Counts one more thread of a domain.
fn count_thread(domains: &mut Vec<DomainEntry>, d: DomainId)
    requires there { d.0 < length domains.old.items }
    requires few { (e : AnEntry) → slice_get domains.old.items d.0 ≡ Some e → e.threads + 1 < 2 ^ 32 }
    ensures { ChangesEntry (more_threads 1) domains.old.items domains.new.items d }
{
    let entry = &mut domains[d.0 as usize];
    entry.threads += 1;
}

/// Counts each name where it was bound.
fn count_names(domains: &mut Vec<DomainEntry>, names: &[NamePart])
    requires there { (i : ℕ) (n : AName) → slice_get names.now i ≡ Some n → n.binder.0 < length domains.old.items }
    requires few { (i : ℕ) (e : AnEntry) → slice_get domains.old.items i ≡ Some e → e.names + count_at name_home names.now i < 2 ^ 32 }
    ensures { AreCountedUp name_home more_names domains.old.items domains.new.items names.now }
{
    for name in names {
        count_name(domains, name.binder);
    }
}

/// Counts one more name of a domain.
fn count_name(domains: &mut Vec<DomainEntry>, d: DomainId)
    requires there { d.0 < length domains.old.items }
    requires few { (e : AnEntry) → slice_get domains.old.items d.0 ≡ Some e → e.names + 1 < 2 ^ 32 }
    ensures { ChangesEntry (more_names 1) domains.old.items domains.new.items d }
{
    let entry = &mut domains[d.0 as usize];
    entry.names += 1;
}
