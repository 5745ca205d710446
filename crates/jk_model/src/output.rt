//! The lines that a run prints.

use crate::identifiers::ThreadNo;
use crate::lists::{Bytes, Units};

/// A loading rule that a folder can break. `docs/RULES.md` states each.
#[derive(Clone, Copy, Debug, PartialEq, Eq)]
pub enum Rule {
    L1,
    L2,
    L3,
    L4,
    L5,
    L6,
    L7,
    L8,
    C1,
    C2,
    C3,
    C4,
    C5,
    C6,
    C7,
    C8,
    C9,
    C10,
    C11,
    C12,
    C13,
    C14,
    C15,
    C16,
    C17,
    C18,
    C19,
    C20,
    C21,
    C22,
    C23,
    C24,
    C25,
    C26,
    C27,
}

/// Where a rule is broken: in the folder as a whole, or at a number in a file.
#[derive(Debug, Drop)]
pub enum Place {
    Whole,
    At { path: Bytes, number: u32 },
}

/// A line of the output, without its line feed.
#[derive(Debug, Drop)]
pub enum Line {
    /// A program printed a line.
    Said {
        domain: Bytes,
        text: Units,
    },
    Loaded {
        domain: Bytes,
    },
    Refused {
        domain: Bytes,
        rule: Rule,
        place: Place,
    },
    Started {
        thread: ThreadNo,
        domain: Bytes,
    },
    /// The numbers 1 to 6 stand for S1 to S6.
    StartRefused {
        domain: Bytes,
        number: u8,
    },
    Ended {
        thread: ThreadNo,
    },
    EndedBy {
        thread: ThreadNo,
        class: Units,
    },
    EndedByKill {
        thread: ThreadNo,
    },
    Killed {
        domain: Bytes,
    },
    KillRefused {
        domain: Bytes,
    },
}
