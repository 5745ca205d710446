//! The kernel's state, the first machine, and what holds of the machine at every moment.

ghost use Rattle.std.specs.Prelude.{◌≡◌, None, IfOk};
ghost use Rattle.jk_model.specs.declared.identifiers.DomainId.{DomainId as ADomainId};
ghost use Rattle.jk_model.specs.declared.identifiers.SegmentNo.{SegmentNo as ASegmentNo};
ghost use Rattle.jk_model_machine_state.specs.Machines.{IsFirstMachine};
ghost use Rattle.jk_model_runs.specs.Events.{IsWhole};
ghost use Rattle.jk_kernel.specs.SoundMachines.{IsSoundMachine};

use crate::laws::machines_stay_sound;
use frame_store::FrameStore;
use jk_model::OutOfMemory;
use kernel_parts::KernelParts;
use object_store::ObjectStore;
use std::alloc::Global;
use std::marker::Model;

/// The machine, over a store of objects and a store of frames.
#[derive(Drop)]
pub struct Kernel<H: ObjectStore + Drop, F: FrameStore + Drop> {
    pub(crate) parts: KernelParts<H, F>,
}

impl<H: ObjectStore + Drop, F: FrameStore + Drop> Model for Kernel<H, F> {
    ghost use Rattle.jk_model_machine_state.specs.Machines.{Machine};
    ghost use Rattle.jk_kernel.specs.SoundMachines.{IsSoundMachine};

    ghost Value = { Machine };

    ghost view = { λ k. k.parts };

    ghost invariant = { λ k. IsSoundMachine k.parts };
}

impl<H: ObjectStore + Drop, F: FrameStore + Drop> Kernel<H, F> {
    /// The machine without domains, over stores without domains and segments.
    pub fn new(alloc: Global, heap: H, frames: F) -> Result<Kernel<H, F>, OutOfMemory>
        requires no_domains { (d : ADomainId) → ((H.content heap).quota d ≡ None) × ((F.content frames).quota d ≡ None) }
        requires no_segments { (s : ASegmentNo) → (F.content frames).segment s ≡ None }
        ensures { IfOk result (λ k. IsFirstMachine (H.content heap).pages (F.content frames).pages k) }
    {
        machines_stay_sound();
        let parts = KernelParts::new(alloc, heap, frames)?;
        Ok(Kernel { parts })
    }

    /// At every moment the machine is sealed, and its calls are answered. It does nothing.
    pub fn holds(&self)
        ensures { IsWhole self.now }
    {
        self.is_sound();
    }

    /// What holds of the machine at every moment. It does nothing.
    pub(crate) fn is_sound(&self)
        ensures { IsSoundMachine self.now }
    {
        let _parts = &self.parts;
    }
}
