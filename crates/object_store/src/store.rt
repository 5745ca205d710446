//! What each store of objects does.

ghost use Rattle.std.specs.Prelude.{◌≡◌, ◌+◌, ◌-◌, ◌*◌, ◌<◌, ◌≤◌, ◌⊎◌, true, option_map, Some, None, Err, IfOk, OnOk, OnErr};
ghost use Rattle.jk_model.specs.declared.stores.AdmitError.TheVariants as Why;
ghost use Rattle.jk_model_domains.specs.Objects.{Object as AnObject};
ghost use Rattle.jk_model_frames.specs.Pools.{HasNoPlace};
ghost use Rattle.jk_model_heaps.specs.Heaps.{shape_of, zero_object};
ghost use Rattle.object_store.specs.HeapContents.{HeapContent, IsAdmitted, IsLive, IsName, HasItem, TakesItem, HasShapeClasses, IsNextName, IsSame, MakesObject, WritesObject, IsWritten, Marks, Admits, Closes, HasFewDomains, IsHeapContent, words_left, item_of, pages_for, pool_of, shape_words};

use class_table::ClassTable;
use jk_model::{AdmitError, DomainId, NoRoom, Value};
use jk_model_heaps::Shape;

/// The objects of all domains. An object has a name in its domain's heap, below 2^30, and a mark, which is 0 in a new object and
/// means nothing here. No call but `admit` takes memory.
pub trait ObjectStore {
    /// All that the store holds.
    ghost content: { Self → HeapContent };

    /// Gives a domain an empty heap of so many words, of which it has none yet. `NoExtent` comes only where the store has a pool of
    /// pages and no free run of it is long enough; there it comes, or `OutOfMemory`. `OutOfMemory` never comes where all memory was
    /// taken before. After an error all is as before.
    fn admit(&mut self, d: DomainId, words: u32) -> Result<(), AdmitError>
        requires new { (content self.old).quota d ≡ None }
        requires few { HasFewDomains (content self.old) }
        requires least { 1 ≤ words }
        requires most { words ≤ 16777216 }
        ensures ok { OnOk result (Admits (content self.old) (content self.new) d words) }
        ensures err { OnErr result (IsSame (content self.old) (content self.new)) }
        ensures no_extent { result ≡ Err Why.NoExtent → HasNoPlace (pool_of (content self.old)) (pages_for words) }
        ensures only_no_extent { HasNoPlace (pool_of (content self.old)) (pages_for words)
            → (result ≡ Err Why.NoExtent) ⊎ (result ≡ Err Why.OutOfMemory) }
        ensures out_of_memory { result ≡ Err Why.OutOfMemory → (content self.old).took_all ≡ true → ⊥ };

    /// How many words a domain may still use.
    fn free(&self, d: DomainId) -> u32
        requires { IsAdmitted (content self.now) d }
        ensures { result ≡ words_left (content self.now) d };

    /// Makes an object of zeros or nulls, with the mark 0, under a name that the domain's heap doesn't have. It fails exactly
    /// where the object costs more words than are free, and then all is as before.
    fn make(&mut self, t: &ClassTable, d: DomainId, shape: Shape) -> Result<u32, NoRoom>
        requires admitted { IsAdmitted (content self.old) d }
        requires classes { HasShapeClasses t.now shape }
        ensures ok { IfOk result (λ a. MakesObject (content self.old) (content self.new) t.now d a (zero_object t.now shape)) }
        ensures err { OnErr result (IsSame (content self.old) (content self.new)) }
        ensures room { OnOk result (shape_words t.now shape ≤ words_left (content self.old) d) }
        ensures no_room { OnErr result (words_left (content self.old) d < shape_words t.now shape) };

    /// What the object of a name is of.
    fn shape(&self, d: DomainId, a: u32) -> Shape
        requires { IsName (content self.now) d a }
        ensures { (object : AnObject) → IsLive (content self.now) d a object → result ≡ shape_of object };

    /// The value at a place of an object: of its fields, those of the parents first, or of its elements. A unit of a text is an
    /// int from 0 to 65,535.
    fn read(&self, t: &ClassTable, d: DomainId, a: u32, i: u32) -> Value
        requires { HasItem (content self.now) t.now d a i }
        ensures { (object : AnObject) → IsLive (content self.now) d a object → item_of object i ≡ Some result };

    /// Sets the value at a place of an object, which is of the kind of the value that stands there.
    fn write(&mut self, t: &ClassTable, d: DomainId, a: u32, i: u32, v: Value)
        requires { TakesItem (content self.old) t.now d a i v }
        ensures { (object new : AnObject) → IsLive (content self.old) d a object → IsWritten object i v new
            → WritesObject (content self.old) (content self.new) d a new };

    /// The mark of an object.
    fn mark(&self, d: DomainId, a: u32) -> u32
        requires { IsName (content self.now) d a }
        ensures { result ≡ (content self.now).mark d a };

    /// Sets the mark of an object.
    fn set_mark(&mut self, d: DomainId, a: u32, m: u32)
        requires { IsName (content self.old) d a }
        ensures { Marks (content self.old) (content self.new) d a m };

    /// Takes out a domain with all its objects.
    fn close(&mut self, d: DomainId)
        requires { IsAdmitted (content self.old) d }
        ensures { Closes (content self.old) (content self.new) d };

    /// How many words of 32 bits the store's pool has: 64 for each page. None exactly where it has no pool.
    fn pool_words(&self) -> Option<u32>
        ensures { result ≡ option_map (λ p. 64 * p) (content self.now).pages };

    /// The first page of a domain. None exactly where the store has no pool.
    fn first_page(&self, d: DomainId) -> Option<u32>
        requires { IsAdmitted (content self.now) d }
        ensures { result ≡ (content self.now).first_page d };

    /// The least name of a domain's heap above this one, or of all where none is given. None exactly where there is none.
    fn next_name(&self, d: DomainId, above: Option<u32>) -> Option<u32>
        requires { IsAdmitted (content self.now) d }
        ensures { IsNextName (content self.now) d above result };

    /// What holds of each store.
    ghost holds: { (x : Self) → IsHeapContent (content x) };
}
