//! A store of objects over vectors.

ghost use Rattle.std.specs.Prelude.{◌≡◌, ◌+◌, ◌≤◌, ◌++◌, None, OnOk, replicate, vec_capacity, vec_len};

use crate::domain_heap::DomainHeap;
use class_table::ClassTable;
use jk_model::{AdmitError, DomainId, NoRoom, OutOfMemory, Value};
use jk_model_heaps::Shape;
use object_store::ObjectStore;
use std::alloc::Global;

/// A store of objects that keeps each domain's objects in vectors, which `admit` reserves. It has no pool, and never answers
/// `NoExtent`. A domain's names are the numbers from 0 on, in the order of making.
#[derive(Drop)]
pub struct PlainStore {
    alloc: Global,
    /// The heap of each domain at the domain's number, so that a look-up takes no search. None at a number without a domain.
    heaps: Vec<Option<DomainHeap>>,
}

impl PlainStore {
    ghost use Rattle.std.specs.Prelude.{◌≡◌, IsSome, Some, None, OnOk, OnErr, false};
    ghost use Rattle.jk_model.specs.declared.identifiers.DomainId.{DomainId};
    ghost use Rattle.plain_store.specs.StoreContents.{Enters, content_of, heap_at};

    /// A store without domains.
    pub fn new(alloc: Global) -> PlainStore
        ensures pages { (content_of result.heaps.items).pages ≡ None }
        ensures took_all { (content_of result.heaps.items).took_all ≡ false }
        ensures domains { (d : DomainId) → (content_of result.heaps.items).quota d ≡ None }
    {
        PlainStore {
            alloc,
            heaps: Vec::new(alloc),
        }
    }

    /// The heap of a domain.
    #[inline(always)]
    fn heap(&self, d: u32) -> &DomainHeap
        requires { IsSome (heap_at self.now.heaps.items d) }
        ensures { heap_at self.now.heaps.items d ≡ Some result.now }
    {
        match &self.heaps[d as usize] {
            Some(heap) => heap,
            None => unreachable!(),
        }
    }

    /// Enters the heap of a domain. After an error all is as before.
    fn enter(&mut self, d: u32, heap: DomainHeap) -> Result<(), OutOfMemory>
        ensures ok { OnOk result (Enters self.old.heaps.items self.new.heaps.items d heap) }
        ensures err { OnErr result (self.new.heaps.items ≡ self.old.heaps.items) }
    {
        let place = d as usize;
        let lacking = (place + 1).saturating_sub(self.heaps.len());
        reserve(&mut self.heaps, lacking)?;
        add_places(&mut self.heaps, lacking);
        self.heaps[place] = Some(heap);
        Ok(())
    }
}

/// Makes room for the heaps of so many more numbers.
fn reserve(heaps: &mut Vec<Option<DomainHeap>>, more: usize) -> Result<(), OutOfMemory>
    ensures same { heaps.new.items ≡ heaps.old.items }
    ensures room { OnOk result (vec_len heaps.new + more ≤ vec_capacity heaps.new) }
{
    heaps.reserve(more)?;
    Ok(())
}

/// Adds so many numbers without a domain, for which there is room.
fn add_places(heaps: &mut Vec<Option<DomainHeap>>, count: usize)
    requires { vec_len heaps.old + count ≤ vec_capacity heaps.old }
    ensures { heaps.new.items ≡ heaps.old.items ++ replicate count None }
{
    for _ in 0..count {
        heaps.push_reserved(None);
    }
}

impl ObjectStore for PlainStore {
    ghost use Rattle.plain_store.specs.StoreContents.{content_of};
    ghost use Rattle.plain_store.specs.StoreIsContent.{store_holds};

    ghost content = { λ x. content_of x.heaps.items };

    fn admit(&mut self, d: DomainId, words: u32) -> Result<(), AdmitError> {
        let heap = DomainHeap::new(self.alloc, words)?;
        self.enter(d.0, heap)?;
        Ok(())
    }

    fn free(&self, d: DomainId) -> u32 {
        self.heap(d.0).free()
    }

    fn make(&mut self, t: &ClassTable, d: DomainId, shape: Shape) -> Result<u32, NoRoom> {
        match &mut self.heaps[d.0 as usize] {
            Some(heap) => heap.make(t, shape),
            None => unreachable!(),
        }
    }

    #[inline(always)]
    fn shape(&self, d: DomainId, a: u32) -> Shape {
        self.heap(d.0).shape(a)
    }

    #[inline(always)]
    fn read(&self, _t: &ClassTable, d: DomainId, a: u32, i: u32) -> Value {
        self.heap(d.0).read(a, i)
    }

    #[inline(always)]
    fn write(&mut self, _t: &ClassTable, d: DomainId, a: u32, i: u32, v: Value) {
        match &mut self.heaps[d.0 as usize] {
            Some(heap) => heap.write(a, i, v),
            None => unreachable!(),
        }
    }

    #[inline(always)]
    fn mark(&self, d: DomainId, a: u32) -> u32 {
        self.heap(d.0).mark(a)
    }

    #[inline(always)]
    fn set_mark(&mut self, d: DomainId, a: u32, m: u32) {
        match &mut self.heaps[d.0 as usize] {
            Some(heap) => heap.set_mark(a, m),
            None => unreachable!(),
        }
    }

    fn close(&mut self, d: DomainId) {
        self.heaps[d.0 as usize] = None;
    }

    fn pool_words(&self) -> Option<u32> {
        None
    }

    fn first_page(&self, _d: DomainId) -> Option<u32> {
        None
    }

    fn next_name(&self, d: DomainId, above: Option<u32>) -> Option<u32> {
        self.heap(d.0).next_name(above)
    }

    ghost holds = { λ x. store_holds x.heaps.items };
}
