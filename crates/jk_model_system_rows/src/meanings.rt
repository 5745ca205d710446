//! What the methods of the system classes mean.

/// How a value reads as text.
#[derive(Clone, Copy, Debug, PartialEq, Eq)]
pub enum Shown {
    /// A text as it is, and null as `null`.
    Text,
    /// An int in decimal digits.
    Int,
    /// A long in decimal digits.
    Long,
    /// One UTF-16 unit: the 16 lowest bits of an int.
    Char,
    /// `true` or `false`, by the lowest bit of an int.
    Truth,
}

/// What a method of a system class does. Methods that do the same have one meaning.
#[derive(Clone, Copy, Debug, PartialEq, Eq)]
pub enum SystemMeaning {
    /// A constructor that leaves the object as it is.
    Initialises,
    /// Whether the receiver and the argument are the same.
    IsSame,
    /// How many units a text has.
    TextLength,
    /// The unit of a text at a place.
    CharAt,
    /// Whether the argument is a text with the same units.
    IsSameText,
    /// A text, and another after it.
    Concat,
    /// The part of a text from a place up to another.
    Substring,
    /// The text as which a number, a character or a truth value reads.
    TextOf(Shown),
    /// The constructor of an empty buffer.
    BufferInitialises,
    /// The constructor of a buffer that has a text.
    BufferInitialisesWith,
    /// How many units a buffer's text has.
    BufferLength,
    /// A buffer's text.
    BufferText,
    /// A buffer's text gets longer by what the argument reads as.
    Appends(Shown),
    /// The domain says an empty text.
    PrintsEmptyLine,
    /// The domain says what the argument reads as.
    Prints(Shown),
    /// Items of an array take the places of items of another, or of the same one.
    CopiesArray,
    /// The number that a text writes.
    ParsesInt,
    /// The constructor of a throwable that has a message.
    SetsMessage,
    /// A throwable's message.
    GetsMessage,
    /// A new capability for an object.
    CreatesCapability,
    RevokesCapability,
    /// A name of the repository is bound to a capability.
    BindsName,
    /// The capability to which a name is bound.
    LooksUpName,
    UnbindsName,
    /// The running domain's name.
    NamesDomain,
    /// How many words are left of the running domain's heap.
    CountsFreeWords,
    TerminatesDomain,
    /// A handle of the running segment.
    GetsTask,
    SuspendsTask,
    ResumesTask,
    StopsTask,
}
