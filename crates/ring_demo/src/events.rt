//! The events of the demo.

ghost use Rattle.std.specs.Prelude.{◌≡◌, ◌<◌, ◌≤◌, ◌∷◌, [], ◌++◌, map, decimal, IfOk, OnOk};
ghost use Rattle.std.specs.List.{range_with_len};
ghost use Rattle.ring_demo.specs.DemoEvents.{base_opens, demo_events, domain_opens, go_starts, main_starts};

use crate::measures::{domains_of, hops_of, nodes_of, steps_of};
use jk_model::{Bytes, Event, List, OutOfMemory, Quotas};
use std::alloc::Global;

/// What the domain may have that the classes of the rings come from. It runs nothing.
const BASE_QUOTAS: Quotas = Quotas {
    heap: 64,
    chunks: 2,
    caps: 0,
    threads: 1,
    names: 0,
    steps: None,
};

/// What a domain of the ring may have.
const RING_QUOTAS: Quotas = Quotas {
    heap: 400_000,
    chunks: 256,
    caps: 1,
    threads: 2,
    names: 1,
    steps: None,
};

/// A text with a number behind it.
fn numbered(alloc: Global, text: &str, number: u32) -> Result<Bytes, OutOfMemory>
    ensures { IfOk result (λ bytes. bytes ≡ text.now ++ decimal number) }
{
    let text = format!(in alloc; "{text}{number}")?;
    Bytes::from_slice(alloc, text.as_bytes())
}

/// A list of two words.
fn two_words(alloc: Global, first: Bytes, second: Bytes) -> Result<List<Bytes>, OutOfMemory>
    ensures { IfOk result (λ words. words ≡ first ∷ second ∷ []) }
{
    let mut words = List::new(alloc);
    words.push(first)?;
    words.push(second)?;
    Ok(words)
}

/// `domain base heap 64 stack 2 caps 0 threads 1 names 0`
fn open_base(alloc: Global) -> Result<Event, OutOfMemory>
    ensures { IfOk result (λ event. event ≡ base_opens) }
{
    Ok(Event::Domain {
        name: Bytes::from_slice(alloc, b"base")?,
        quotas: BASE_QUOTAS,
    })
}

/// `domain di heap 400000 caps 1 threads 2 names 1`
fn open_domain(alloc: Global, domain: u32) -> Result<Event, OutOfMemory>
    ensures { IfOk result (λ event. event ≡ domain_opens domain) }
{
    Ok(Event::Domain {
        name: numbered(alloc, "d", domain)?,
        quotas: RING_QUOTAS,
    })
}

/// `start di Main hi hj`, where `j` is the next domain in the ring.
fn start_main(alloc: Global, domains: u32, domain: u32) -> Result<Event, OutOfMemory>
    requires within { domain < domains }
    requires few { domains ≤ 8 }
    ensures { IfOk result (λ event. event ≡ main_starts domains domain) }
{
    let own = numbered(alloc, "h", domain)?;
    let next = numbered(alloc, "h", (domain + 1) % domains)?;
    Ok(Event::Start {
        name: numbered(alloc, "d", domain)?,
        class: Bytes::from_slice(alloc, b"Main")?,
        words: two_words(alloc, own, next)?,
    })
}

/// `start di Go m k`
fn start_go(alloc: Global, nodes: u32, hops: u32, domain: u32) -> Result<Event, OutOfMemory>
    ensures { IfOk result (λ event. event ≡ go_starts nodes hops domain) }
{
    let nodes = numbered(alloc, "", nodes)?;
    let hops = numbered(alloc, "", hops)?;
    Ok(Event::Start {
        name: numbered(alloc, "d", domain)?,
        class: Bytes::from_slice(alloc, b"Go")?,
        words: two_words(alloc, nodes, hops)?,
    })
}

/// Opens each domain of the ring.
fn push_opens(events: &mut List<Event>, alloc: Global, domains: u32) -> Result<(), OutOfMemory>
    ensures { OnOk result (events.new ≡ events.old ++ map domain_opens (range_with_len 0 domains)) }
{
    for domain in 0..domains {
        events.push(open_domain(alloc, domain)?)?;
    }
    Ok(())
}

/// Starts `Main` in each domain of the ring.
fn push_mains(events: &mut List<Event>, alloc: Global, domains: u32) -> Result<(), OutOfMemory>
    requires { domains ≤ 8 }
    ensures { OnOk result (events.new ≡ events.old ++ map (main_starts domains) (range_with_len 0 domains)) }
{
    for domain in 0..domains {
        events.push(start_main(alloc, domains, domain)?)?;
    }
    Ok(())
}

/// Starts `Go` in each domain of the ring.
fn push_goes(
    events: &mut List<Event>,
    alloc: Global,
    domains: u32,
    nodes: u32,
    hops: u32,
) -> Result<(), OutOfMemory>
    ensures { OnOk result (events.new ≡ events.old ++ map (go_starts nodes hops) (range_with_len 0 domains)) }
{
    for domain in 0..domains {
        events.push(start_go(alloc, nodes, hops, domain)?)?;
    }
    Ok(())
}

/// The events of the demo of a seed, of which there are at most 27.
pub fn demo_events(alloc: Global, seed: u32) -> Result<List<Event>, OutOfMemory>
    ensures { IfOk result (λ events. events ≡ demo_events seed) }
{
    let domains = domains_of(seed);
    let mut events = List::new(alloc);
    events.push(open_base(alloc)?)?;
    push_opens(&mut events, alloc, domains)?;
    push_mains(&mut events, alloc, domains)?;
    events.push(Event::Round {
        rounds: 1,
        steps: 1000,
    })?;
    push_goes(&mut events, alloc, domains, nodes_of(seed), hops_of(seed))?;
    events.push(Event::Round {
        rounds: 1_000_000,
        steps: steps_of(seed),
    })?;
    Ok(events)
}
