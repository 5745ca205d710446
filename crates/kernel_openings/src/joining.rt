//! What a domain is to others, and its part of what they share.

ghost use Rattle.std.specs.Prelude.{◌≡◌, ◌-◌, ◌^◌, ◌<◌, ◌≤◌, ◌⊎◌, ◌∷◌, ◌++◌, [], true, length, Err, IfErr, OnErr, OnOk};
ghost use Rattle.jk_model.specs.declared.identifiers.DomainId.{DomainId as ADomainId};
ghost use Rattle.jk_model_classes.specs.Worlds.{IsLiveNamed};
ghost use Rattle.jk_model_sharing.specs.CapabilityCalls.{LacksNumbers};
ghost use Rattle.jk_model_sharing.specs.SharedStates.{admitted, caps_of};
ghost use Rattle.thread_segments.specs.Asked.{AreWithin, IsNext};
ghost use Rattle.kernel_openings.specs.declared.answers.AddAnswer.TheVariants as Adding;
ghost use Rattle.kernel_openings.specs.Joining.{IsFullFor};

use crate::answers::AddAnswer;
use domain_resolver::{NameTable, Offers, World};
use jk_model::{Bytes, DomainId, List, OutOfMemory, Quotas};
use jk_model_classes::Stub;
use thread_segments::{CapsError, Shared};

/// The most domains of a run.
const MOST_DOMAINS: usize = 65_535;

/// What a domain is to others, and the stubs of its classes.
#[derive(Drop)]
pub(crate) struct Newcomer {
    pub(crate) name: Bytes,
    pub(crate) table: NameTable,
    pub(crate) offers: Offers,
    pub(crate) stubs: List<Stub>,
}

/// Whether one more domain with these quotas may join: numbers are left for its capabilities (L4), and there are fewer domains than
/// there may be (L8), asked in this order.
pub(crate) fn may_join(world: &World, shared: &Shared, quotas: &Quotas) -> Result<(), AddAnswer>
    ensures ok { OnOk result ((LacksNumbers (caps_of shared.now) quotas.now.caps → ⊥) × (length world.now.domains < 65535)) }
    ensures full { IfErr result (IsFullFor world.now shared.now quotas.now) }
{
    shared.is_sound();
    if quotas.caps > shared.numbers_left() {
        return Err(AddAnswer::CapNumbers);
    }
    if world.domain_count() >= MOST_DOMAINS {
        return Err(AddAnswer::TooManyDomains);
    }
    Ok(())
}

/// Puts a domain's names and offers behind those of the others, and gives it its part of what they share. There is room for it. After
/// an error all is as before.
pub(crate) fn join(
    world: &mut World,
    shared: &mut Shared,
    d: DomainId,
    newcomer: Newcomer,
    quotas: &Quotas,
) -> Result<(), OutOfMemory>
    requires free { (e : ADomainId) → IsLiveNamed world.old newcomer.name e → ⊥ }
    requires few { length world.old.domains < 65535 }
    requires number { d.0 ≡ length world.old.domains }
    requires next { IsNext shared.old d }
    requires quotas { AreWithin quotas.now }
    requires numbers { LacksNumbers (caps_of shared.old) quotas.now.caps → ⊥ }
    ensures world { OnOk result (world.new ≡ record world.old {
      domains = world.old.domains
          ++ record { id = d; name = newcomer.name; live = true; table = newcomer.table; offers = newcomer.offers } ∷ [];
    }) }
    ensures shared { OnOk result (shared.new ≡ admitted d quotas.now newcomer.stubs shared.old) }
    ensures same_world { OnErr result (world.new ≡ world.old) }
    ensures same_shared { OnErr result (shared.new ≡ shared.old) }
{
    let Newcomer {
        name,
        table,
        offers,
        stubs,
    } = newcomer;
    let _d = world.add_domain(name, table, offers)?;
    match shared.admit(d, quotas, stubs) {
        Ok(()) => Ok(()),
        Err(CapsError::OutOfMemory) => {
            world.take_back_domain();
            Err(OutOfMemory)
        }
        Err(CapsError::Numbers) => unreachable!(),
    }
}

/// Joins a domain to the others, or answers why it may not. After an error all is as before.
pub(crate) fn enter(
    world: &mut World,
    shared: &mut Shared,
    d: DomainId,
    newcomer: Newcomer,
    quotas: &Quotas,
) -> Result<(), AddAnswer>
    requires free { (e : ADomainId) → IsLiveNamed world.old newcomer.name e → ⊥ }
    requires number { d.0 ≡ length world.old.domains }
    requires next { IsNext shared.old d }
    requires quotas { AreWithin quotas.now }
    ensures numbers { OnOk result (LacksNumbers (caps_of shared.old) quotas.now.caps → ⊥) }
    ensures few { OnOk result (length world.old.domains < 65535) }
    ensures world { OnOk result (world.new ≡ record world.old {
      domains = world.old.domains
          ++ record { id = d; name = newcomer.name; live = true; table = newcomer.table; offers = newcomer.offers } ∷ [];
    }) }
    ensures shared { OnOk result (shared.new ≡ admitted d quotas.now newcomer.stubs shared.old) }
    ensures same_world { OnErr result (world.new ≡ world.old) }
    ensures same_shared { OnErr result (shared.new ≡ shared.old) }
    ensures cause { IfErr result (λ e. (e ≡ Adding.OutOfMemory) ⊎ IsFullFor world.old shared.old quotas.now e) }
{
    may_join(world, shared, quotas)?;
    join(world, shared, d, newcomer, quotas)?;
    Ok(())
}
