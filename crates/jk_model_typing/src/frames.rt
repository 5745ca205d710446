//! Types of values and frames, typings of methods, and what instructions ask of what they take.

use jk_model::{ClassId, List, MemberId};
use jk_model_classes::{Member, TypeRef};

/// What is known of a local or of an entry of the operand stack.
#[derive(Clone, Copy, Debug, PartialEq, Eq)]
pub enum VType {
    /// Nothing that an instruction could use. Only a local is ever so.
    Unusable,
    /// A whole number of 32 bits; the smaller kinds are such numbers too.
    Int,
    /// A whole number of 64 bits. It counts as two slots.
    Long,
    /// The null reference.
    Null,
    /// Null, or a reference to an object of this class or below it, or to such an array.
    Ref(TypeRef),
    /// The object that the `new` at this place made, before its constructor is called.
    Fresh(u32),
    /// `this` in a constructor, before the constructor of its own class or of the parent is called.
    FreshThis,
}

/// What is known as an instruction begins.
#[derive(Debug, Drop)]
pub struct FrameType {
    /// One for each slot of the locals. A long stands in its first slot, and its second is `Unusable`.
    pub locals: List<VType>,
    /// One for each entry, the top one last. A long is one entry.
    pub stack: List<VType>,
    /// Whether this is a constructor that may have yet to call another one.
    pub fresh: bool,
}

/// The frame types of a method's code, one for each instruction; none where there is no frame, as where control doesn't
/// get to.
#[derive(Debug, Drop)]
pub struct Typing {
    pub frames: List<Option<FrameType>>,
}

/// What an instruction asks of an entry that it takes, or of a local that it loads.
#[derive(Clone, Copy, Debug, PartialEq, Eq)]
pub enum Demand {
    /// It fits this type.
    Fitting(VType),
    /// It fits one of these types.
    FittingEither(VType, VType),
    /// It fits both types.
    FittingBoth(VType, VType),
    /// It is null or an object, and not fresh.
    Reference,
    /// It is null or an object, which may be fresh.
    AnyReference,
    /// It is null or an array of references.
    ReferenceArray,
    /// It is null or an array.
    Array,
    /// It fits the class that the instruction's reference names and, where the member found is guarded, the
    /// method's own class too.
    Receiver(ClassId, Member),
    /// The same; or it is `this`, still fresh, and the method's own class declares the field found.
    PutReceiver(ClassId, MemberId),
}
