//! A line of the output over what its printer holds.

use jk_model::{Rule, ThreadNo};

/// Where a rule is broken: in the folder as a whole, or at a number in a file.
#[derive(Clone, Copy)]
pub enum PlaceRef<'a> {
    Whole,
    At { path: &'a str, number: u32 },
}

/// A line of the output, without its line feed. `jk_model::Line` has the same kinds.
#[derive(Clone, Copy)]
pub enum LineRef<'a> {
    /// A program printed a line.
    Said {
        domain: &'a [u8],
        text: &'a [u16],
    },
    Loaded {
        domain: &'a [u8],
    },
    Refused {
        domain: &'a [u8],
        rule: Rule,
        place: PlaceRef<'a>,
    },
    Started {
        thread: ThreadNo,
        domain: &'a [u8],
    },
    /// The numbers 1 to 6 stand for S1 to S6.
    StartRefused {
        domain: &'a [u8],
        number: u8,
    },
    Ended {
        thread: ThreadNo,
    },
    EndedBy {
        thread: ThreadNo,
        class: &'a [u16],
    },
    EndedByKill {
        thread: ThreadNo,
    },
    Killed {
        domain: &'a [u8],
    },
    KillRefused {
        domain: &'a [u8],
    },
}
