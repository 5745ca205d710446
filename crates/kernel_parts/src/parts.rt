//! The parts of a kernel.

ghost use Rattle.std.specs.Prelude.{◌≡◌, None, IfOk};
ghost use Rattle.jk_model.specs.declared.identifiers.DomainId.{DomainId as ADomainId};
ghost use Rattle.jk_model.specs.declared.identifiers.SegmentNo.{SegmentNo as ASegmentNo};
ghost use Rattle.jk_model_machine_state.specs.Machines.{IsFirstMachine};

use crate::main_type::main_kind;
use class_init::Own;
use domain_resolver::World;
use frame_store::FrameStore;
use jk_model::{MethodType, OutOfMemory};
use machine_laws::machines::first_machines_are_known;
use object_store::ObjectStore;
use std::alloc::Global;
use std::marker::Model;
use thread_segments::Shared;

/// The parts of a kernel, over a store of objects and a store of frames.
#[derive(Drop)]
pub struct KernelParts<H: ObjectStore + Drop, F: FrameStore + Drop> {
    pub alloc: Global,
    pub world: World,
    /// The own state of each domain, at its number; none of one that was killed.
    pub owns: Vec<Option<Own>>,
    pub shared: Shared,
    pub heap: H,
    pub frames: F,
    /// The type of `main`: of one parameter, an array of texts, without a result.
    pub main_kind: MethodType,
}

impl<H: ObjectStore + Drop, F: FrameStore + Drop> Model for KernelParts<H, F> {
    ghost use Rattle.jk_model_machine_state.specs.Machines.{Machine};
    ghost use Rattle.kernel_parts.specs.SoundKernels.{AreKernelParts, kernel_machine};

    ghost Value = { Machine };

    ghost view = { λ k. kernel_machine (record {
      world = k.world;
      owns = k.owns.items;
      shared = k.shared;
      heap = H.content k.heap;
      frames = F.content k.frames;
      main_kind = k.main_kind;
    }) };

    ghost invariant = { λ k. AreKernelParts (record {
      world = k.world;
      owns = k.owns.items;
      shared = k.shared;
      heap = H.content k.heap;
      frames = F.content k.frames;
      main_kind = k.main_kind;
    }) };
}

impl<H: ObjectStore + Drop, F: FrameStore + Drop> KernelParts<H, F> {
    /// The parts without domains, over stores without domains and segments.
    pub fn new(alloc: Global, heap: H, frames: F) -> Result<KernelParts<H, F>, OutOfMemory>
        requires no_domains { (d : ADomainId) → ((H.content heap).quota d ≡ None) × ((F.content frames).quota d ≡ None) }
        requires no_segments { (s : ASegmentNo) → (F.content frames).segment s ≡ None }
        ensures { IfOk result (λ k. IsFirstMachine (H.content heap).pages (F.content frames).pages k) }
    {
        first_machines_are_known();
        let world = World::new(alloc)?;
        world.holds();
        let main_kind = main_kind(alloc)?;
        let shared = Shared::new(alloc)?;
        Ok(KernelParts {
            alloc,
            world,
            owns: Vec::new(alloc),
            shared,
            heap,
            frames,
            main_kind,
        })
    }
}
