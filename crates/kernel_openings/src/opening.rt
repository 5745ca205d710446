//! Domains that are opened.

ghost use Rattle.std.specs.Prelude.{◌≡◌, ◌<◌, vec_len, vec_capacity, IfErr, IfOk, OnErr, OnOk};
ghost use Rattle.jk_model.specs.declared.identifiers.ClassId.{ClassId as AClassId};
ghost use Rattle.jk_model_classes.specs.Classes.{HasClass};
ghost use Rattle.jk_model_classes.specs.Worlds.{IsNamed};
ghost use Rattle.jk_model_domains.specs.OwnStates.{IsFirstState};
ghost use Rattle.class_init.specs.KeptStates.{HasFirstRooms};
ghost use Rattle.kernel_openings.specs.OpenedParts.{AreAsked, IsWhyNot, KeepsParts, MayOpen, OpenParts as Parts, OpensParts};

use crate::answers::AddAnswer;
use crate::joining::{Newcomer, enter};
use crate::standing_objects::make_standing;
use crate::store_rooms::admit_stores;
use class_init::Own;
use class_table::ClassTable;
use domain_resolver::{NameTable, World};
use folder_loader::Loaded;
use frame_store::FrameStore;
use jk_model::{AdmitError, Bytes, DomainId, OutOfMemory, Quotas};
use object_store::ObjectStore;
use std::alloc::Global;
use thread_segments::Shared;

/// Adds the domain of a folder whose classes are loaded. After an error all is as before; the classes stay.
pub(crate) fn open<H: ObjectStore, F: FrameStore>(
    alloc: Global,
    world: &mut World,
    owns: &mut Vec<Option<Own>>,
    shared: &mut Shared,
    heap: &mut H,
    frames: &mut F,
    loaded: Loaded,
    name: &str,
    quotas: &Quotas,
) -> Result<(), AddAnswer>
    requires may { let old : Parts = record {
      world = world.old;
      owns = owns.old.items;
      shared = shared.old;
      heap = H.content heap.old;
      frames = F.content frames.old;
    } in MayOpen old loaded name.now }
    requires asked { AreAsked quotas.now }
    ensures ok { let old : Parts = record {
      world = world.old;
      owns = owns.old.items;
      shared = shared.old;
      heap = H.content heap.old;
      frames = F.content frames.old;
    } in let new : Parts = record {
      world = world.new;
      owns = owns.new.items;
      shared = shared.new;
      heap = H.content heap.new;
      frames = F.content frames.new;
    } in OnOk result (OpensParts old new loaded name.now quotas.now) }
    ensures err { let old : Parts = record {
      world = world.old;
      owns = owns.old.items;
      shared = shared.old;
      heap = H.content heap.old;
      frames = F.content frames.old;
    } in let new : Parts = record {
      world = world.new;
      owns = owns.new.items;
      shared = shared.new;
      heap = H.content heap.new;
      frames = F.content frames.new;
    } in OnErr result (KeepsParts old new) }
    ensures cause { let old : Parts = record {
      world = world.old;
      owns = owns.old.items;
      shared = shared.old;
      heap = H.content heap.old;
      frames = F.content frames.old;
    } in IfErr result (IsWhyNot old quotas.now) }
{
    let ready = make_ready(alloc, world.classes(), owns, &loaded.table, name)?;
    let d = DomainId(world.domain_count() as u32);
    match admit_stores(heap, frames, d, quotas) {
        Ok(()) => {}
        Err(AdmitError::NoExtent) => return Err(AddAnswer::NoRoom),
        Err(AdmitError::OutOfMemory) => return Err(AddAnswer::OutOfMemory),
    }
    let Ready { own, name } = ready;
    let Loaded {
        first: _,
        table,
        offers,
        stubs,
    } = loaded;
    let newcomer = Newcomer {
        name,
        table,
        offers,
        stubs,
    };
    if let Err(e) = enter(world, shared, d, newcomer, quotas) {
        heap.close(d);
        frames.close(d);
        return Err(e);
    }
    let mut own = own;
    own.holds();
    make_standing(heap, world.classes(), d, &mut own);
    own.holds();
    owns.push_reserved(Some(own));
    Ok(())
}

/// What a domain needs before it takes room: its own state, and its name.
#[derive(Drop)]
struct Ready {
    own: Own,
    name: Bytes,
}

/// Makes the own state and the name of a domain, and room for another own state.
fn make_ready(
    alloc: Global,
    t: &ClassTable,
    owns: &mut Vec<Option<Own>>,
    table: &NameTable,
    name: &str,
) -> Result<Ready, OutOfMemory>
    requires there { (c : AClassId) → IsNamed table.now c → HasClass t.now c }
    ensures items { owns.new.items ≡ owns.old.items }
    ensures room { OnOk result (vec_len owns.new < vec_capacity owns.new) }
    ensures state { IfOk result (λ r. IsFirstState t.now table.now r.own.state) }
    ensures rooms { IfOk result (λ r. HasFirstRooms t.now table.now r.own) }
    ensures name { IfOk result (λ r. r.name ≡ name.now) }
{
    let own = Own::make(alloc, t, table)?;
    let name = Bytes::from_slice(alloc, name.as_bytes())?;
    owns.reserve(1)?;
    Ok(Ready { own, name })
}
