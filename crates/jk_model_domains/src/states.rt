//! The states of a domain's classes, and what a domain has for itself, as plain lists.

use jk_model::{ClassId, List, ThreadNo, Units, Value};

/// How far a class is initialised in a domain.
#[derive(Clone, Copy, Debug, PartialEq, Eq)]
pub enum ClassState {
    Untouched,
    /// Its initialiser runs, or waits, on this thread.
    InProgress(ThreadNo),
    Done,
    /// Its initialiser ended by a throwable.
    Broken,
}

/// What a thread meets at a class that it needs.
#[derive(Clone, Copy, Debug, PartialEq, Eq)]
pub enum Look {
    /// The class is done, or in progress by this thread.
    Ready,
    Untouched,
    /// Another thread has it in progress.
    Waits,
    Broken,
}

/// A class in a domain: its state, and the values of its static fields in the order of the class file.
#[derive(Debug, Drop)]
pub struct OwnClass {
    pub class: ClassId,
    pub state: ClassState,
    pub statics: List<Value>,
}

/// The text object of a literal, by its name in the domain's heap.
#[derive(Debug, Drop)]
pub struct LiteralImage {
    pub text: Units,
    pub name: u32,
}

/// What a domain has for itself beside its heap.
#[derive(Debug, Drop)]
pub struct OwnParts {
    /// The classes of its name table that aren't system classes.
    pub classes: List<OwnClass>,
    /// The literals that have an object.
    pub literals: List<LiteralImage>,
    /// The name of its PrintStream.
    pub out: u32,
    /// The names of its standing throwables, in the order of `Standing`.
    pub standing: [u32; 8],
}
