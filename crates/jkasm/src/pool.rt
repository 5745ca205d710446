//! The constant pool of the file that is made: each constant stands in it once.

ghost use Rattle.std.specs.Prelude.{◌≡◌, ℕ, ◌∷◌, ◌++◌, [], List, slice_get, Some, IfOk, OnOk, OnErr, Ok, Err};
ghost use Rattle.jk_model.specs.ClassFile.{IsEntry, IsGoodEntry};
ghost use Rattle.jk_model.specs.declared.class_file.PoolEntry.TheVariants.{Unusable};
ghost use Rattle.jkasm.specs.ConstantRanges.{AreInRange};
ghost use Rattle.jkasm.specs.Constants.{PoolConstant, HasJust, Says, Utf8, Class, Value, NameAndType, Reference, for_class, for_value, for_pair, for_reference};
ghost use Rattle.jkasm.specs.Limits.{FitPool};
ghost use Rattle.jkasm.specs.PoolGrowth.{Takes, HasNoRoom, IsPoolText, HasPoolText, IsFilePool};
ghost use Rattle.jkasm.specs.PoolIndex.{HasPut, IsFull};
ghost use Rattle.jkasm.specs.PoolKeys.{entry_of, slots_of};

mod key;

use asm_reader::{Constant, MemberKind};
use jk_model::{List, OutOfMemory, PoolEntry};
use key::Key;
use std::alloc::Global;
use std::collections::BTreeMap;
use std::marker::Model;

/// One more than the highest index of a pool.
const MAX_LENGTH: usize = 65535;

/// Why a constant got no place in a pool.
#[derive(Clone, Copy, Debug, PartialEq, Eq)]
pub(crate) enum PoolError {
    /// The pool would have more than 65,534 places for entries.
    Full,
    /// No memory was left.
    OutOfMemory,
}

impl From<OutOfMemory> for PoolError {
    ghost use Rattle.std.specs.Prelude.{◌≡◌};
    ghost use Rattle.jkasm.specs.declared.pool.PoolError.TheVariants as Error;

    ghost from_gives = { λ _ e. e ≡ Error.OutOfMemory };

    fn from(_e: OutOfMemory) -> PoolError {
        PoolError::OutOfMemory
    }
}

/// A pool that grows. Contracts see it as its entries, of which index 0 is unusable.
#[derive(Drop)]
pub(crate) struct PoolBuilder {
    entries: List<PoolEntry>,
    index: BTreeMap<Key, u16>,
    alloc: Global,
}

impl Model for PoolBuilder {
    ghost use Rattle.std.specs.Prelude.{List};
    ghost use Rattle.jk_model.specs.declared.class_file.PoolEntry.{PoolEntry};
    ghost use Rattle.jkasm.specs.PoolIndex.{IsIndexed};

    ghost Value = { List PoolEntry };

    ghost view = { λ p. p.entries };

    ghost invariant = { λ p. IsIndexed p.entries p.index };
}

/// Puts the entry of a content at the end. After a long an index is unusable.
fn append(entries: &mut List<PoolEntry>, key: &Key, alloc: Global) -> Result<(), OutOfMemory>
    ensures ok { OnOk result (entries.new ≡ entries.old ++ slots_of key.now) }
    ensures err { OnErr result (entries.new ≡ entries.old) }
{
    let place = entries.len();
    entries.push(key.entry(alloc)?)?;
    if let Key::Long(_) = key {
        if let Err(e) = entries.push(PoolEntry::Unusable) {
            entries.truncate(place);
            return Err(e);
        }
    }
    Ok(())
}

impl PoolBuilder {
    /// A pool without constants.
    pub(crate) fn new(alloc: Global) -> Result<PoolBuilder, OutOfMemory>
        ensures { IfOk result (λ pool. pool ≡ Unusable ∷ []) }
    {
        let mut entries = List::new(alloc);
        entries.push(PoolEntry::Unusable)?;
        Ok(PoolBuilder {
            entries,
            index: BTreeMap::new(alloc),
            alloc,
        })
    }

    /// The index of the entry of this content. It gets a place where it has none.
    fn put(&mut self, key: Key) -> Result<u16, PoolError>
        requires entry { IsEntry (entry_of key) }
        requires good { IsGoodEntry self.old (entry_of key) }
        ensures puts { IfOk result (HasPut self.old self.new key) }
        ensures there { (i : ℕ) → slice_get self.old i ≡ Some (entry_of key) → result ≡ Ok i }
        ensures full { result ≡ Err PoolError.Full → IsFull self.old key }
        ensures err { OnErr result (self.new ≡ self.old) }
    {
        if let Some(i) = self.index.get(&key) {
            return Ok(*i);
        }
        let place = self.entries.len();
        if place + key.places() > MAX_LENGTH {
            return Err(PoolError::Full);
        }
        append(&mut self.entries, &key, self.alloc)?;
        if let Err(_) = self.index.insert(key, place as u16) {
            self.entries.truncate(place);
            return Err(PoolError::OutOfMemory);
        }
        Ok(place as u16)
    }

    /// The index of a text. It gets a place where it has none.
    pub(crate) fn utf8(&mut self, bytes: &[u8]) -> Result<u16, PoolError>
        requires { IsPoolText bytes.now }
        ensures says { IfOk result (λ i. Says self.new i (Utf8 bytes.now)) }
        ensures takes { OnOk result (Takes self.old self.new (Utf8 bytes.now ∷ [])) }
        ensures full { result ≡ Err PoolError.Full → HasNoRoom self.old (Utf8 bytes.now ∷ []) }
    {
        let text = match Vec::from_slice(self.alloc, bytes) {
            Ok(text) => text,
            Err(_) => return Err(PoolError::OutOfMemory),
        };
        self.put(Key::Utf8(text))
    }

    /// The index of a class.
    pub(crate) fn class(&mut self, name: &[u8]) -> Result<u16, PoolError>
        requires { IsPoolText name.now }
        ensures says { IfOk result (λ i. Says self.new i (Class name.now)) }
        ensures takes { OnOk result (Takes self.old self.new (for_class name.now)) }
        ensures full { result ≡ Err PoolError.Full → HasNoRoom self.old (for_class name.now) }
    {
        let name = self.utf8(name)?;
        self.put(Key::Class(name))
    }

    /// The index of a constant that a field has or an instruction loads.
    pub(crate) fn value(&mut self, constant: &Constant) -> Result<u16, PoolError>
        requires { HasPoolText constant.now }
        ensures says { IfOk result (λ i. Says self.new i (Value constant.now)) }
        ensures takes { OnOk result (Takes self.old self.new (for_value constant.now)) }
        ensures full { result ≡ Err PoolError.Full → HasNoRoom self.old (for_value constant.now) }
        ensures range { AreInRange (for_value constant.now) }
    {
        match constant {
            Constant::Int(n) => self.put(Key::Integer(n.cast_unsigned())),
            Constant::Long(n) => self.put(Key::Long(n.cast_unsigned())),
            Constant::Text(text) => {
                let text = self.utf8(text.as_slice())?;
                self.put(Key::Str(text))
            }
        }
    }

    /// The index of a name and a descriptor.
    fn pair(&mut self, name: &[u8], descriptor: &[u8]) -> Result<u16, PoolError>
        requires name { IsPoolText name.now }
        requires descriptor { IsPoolText descriptor.now }
        ensures says { IfOk result (λ i. Says self.new i (NameAndType name.now descriptor.now)) }
        ensures takes { OnOk result (Takes self.old self.new (for_pair name.now descriptor.now)) }
        ensures full { result ≡ Err PoolError.Full → HasNoRoom self.old (for_pair name.now descriptor.now) }
    {
        let name = self.utf8(name)?;
        let descriptor = self.utf8(descriptor)?;
        self.put(Key::NameAndType(name, descriptor))
    }

    /// The index of a reference to a member.
    pub(crate) fn reference(
        &mut self,
        kind: MemberKind,
        class: &[u8],
        name: &[u8],
        descriptor: &[u8],
    ) -> Result<u16, PoolError>
        requires class { IsPoolText class.now }
        requires name { IsPoolText name.now }
        requires descriptor { IsPoolText descriptor.now }
        ensures says { IfOk result (λ i. Says self.new i (Reference kind class.now name.now descriptor.now)) }
        ensures takes { OnOk result (Takes self.old self.new (for_reference kind class.now name.now descriptor.now)) }
        ensures full { result ≡ Err PoolError.Full
            → HasNoRoom self.old (for_reference kind class.now name.now descriptor.now) }
    {
        let class = self.class(class)?;
        let pair = self.pair(name, descriptor)?;
        self.put(Key::reference(kind, class, pair))
    }

    /// Stands for its clauses, and does nothing: the pool is that of a class file, and what it has fits a pool.
    pub(crate) fn constants_fit(&self)
        ensures file { IsFilePool self.now }
        ensures fit { (constants : List PoolConstant) → HasJust self.now constants → AreInRange constants → FitPool constants }
    {
        let _ = &self.entries;
    }

    /// The entries, with index 0.
    pub(crate) fn into_entries(self) -> List<PoolEntry>
        ensures same { result ≡ self }
        ensures file { IsFilePool result }
    {
        self.entries
    }
}
