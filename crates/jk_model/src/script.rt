//! A script's events, and what is wrong with a script at fault.

use crate::lists::{Bytes, List};

/// What a domain may have.
#[derive(Clone, Copy, Debug, PartialEq, Eq)]
pub struct Quotas {
    /// Words of its heap.
    pub heap: u32,
    /// Chunks of its stacks.
    pub chunks: u32,
    /// Capabilities that it creates.
    pub caps: u32,
    /// Threads started in it that live.
    pub threads: u32,
    /// Names in the repository.
    pub names: u32,
    /// Steps in all, or no limit.
    pub steps: Option<u32>,
}

/// One event of a script.
#[derive(Debug, Drop)]
pub enum Event {
    Domain {
        name: Bytes,
        quotas: Quotas,
    },
    Start {
        name: Bytes,
        class: Bytes,
        words: List<Bytes>,
    },
    Turn {
        thread: u32,
        steps: u32,
    },
    Round {
        rounds: u32,
        steps: u32,
    },
    Kill {
        name: Bytes,
    },
}

/// The first line of a script that is at fault, counted from 1, and what is wrong with it. Line 0
/// stands for the script as a whole.
#[derive(Clone, Copy, Debug, PartialEq, Eq)]
pub struct ScriptFault {
    pub line: u32,
    pub kind: FaultKind,
}

/// What is wrong with a line of a script.
#[derive(Clone, Copy, Debug, PartialEq, Eq)]
pub enum FaultKind {
    /// A byte that no line may have.
    BadByte,
    /// A command or an option that there isn't.
    UnknownWord,
    /// A name outside its form.
    BadName,
    /// A number outside its form or range.
    BadNumber,
    /// A word, a line's number or a script past its limit.
    TooLong,
    /// A word too many, or an option repeated.
    Extra,
    /// A word too few.
    Missing,
}
