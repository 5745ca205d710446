//! What the table keeps of one class.

use jk_model::{ClassId, List};
use jk_model_classes::ClassRecord;
use member_index::{FieldIndex, MethodIndex};

/// A class's record, and what was worked out of it and of the classes above it.
#[derive(Drop)]
pub(crate) struct Entry {
    pub(crate) class: ClassRecord,
    pub(crate) walk: Walk,
    pub(crate) fields: FieldIndex,
    pub(crate) methods: MethodIndex,
    pub(crate) own: OwnPlaces,
    pub(crate) standing: Standing,
}

/// The classes among which a field is looked for, each once.
#[derive(Drop)]
pub(crate) struct Walk {
    pub(crate) classes: List<ClassId>,
    /// How many of them, from the front on, are the class and the interfaces above it through interfaces alone.
    pub(crate) own: usize,
}

/// Where the instance fields that a class declares stand.
#[derive(Drop)]
pub(crate) struct OwnPlaces {
    /// The instance fields, in the order of the class file.
    pub(crate) fields: List<OwnField>,
    /// For each field of the class file how many instance fields stand before it.
    pub(crate) ranks: List<u16>,
    /// How many of the instance fields take two words.
    pub(crate) longs: u16,
}

/// An instance field that a class declares.
#[derive(Clone, Copy)]
pub(crate) struct OwnField {
    /// Its place in the class file.
    pub(crate) place: u16,
    /// How many of the class's instance fields before it take two words.
    pub(crate) longs: u16,
}

/// What follows for a class from those above it.
#[derive(Clone, Copy)]
pub(crate) struct Standing {
    /// How many instance fields all classes above it declare.
    pub(crate) before: usize,
    /// How many words these take, or the greatest number of 32 bits.
    pub(crate) words: u32,
    /// How many classes stand above it, or the greatest number of 32 bits. Nothing but the time of a search hangs on it.
    pub(crate) depth: u32,
    /// The class itself or one above it, to which a search upwards may go in one step.
    pub(crate) jump: ClassId,
}

impl OwnPlaces {
    ghost use Rattle.std.specs.Prelude.{◌≡◌, ◌+◌, ◌≤◌, length};

    /// How many words the instance fields take together.
    pub(crate) fn words(&self) -> u32
        requires { length self.now.fields ≤ 65535 }
        ensures { result ≡ length self.now.fields + self.now.longs }
    {
        let longs = self.longs;
        self.fields.len() as u32 + u32::from(longs)
    }
}
