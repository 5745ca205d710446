//! Threads and names as rows of tables, held beside plain lists.

use thread_segments::{NamePart, SegmentPart, ThreadPart};

/// What is set of a segment.
#[derive(Clone, Copy, PartialEq, Eq)]
pub(crate) struct Set {
    pub(crate) suspended: bool,
    pub(crate) stop: bool,
    pub(crate) revoked: bool,
    pub(crate) orphan: bool,
}

pub(crate) const PLAIN: Set = Set {
    suspended: false,
    stop: false,
    revoked: false,
    orphan: false,
};

/// What it stood on is gone.
pub(crate) const ORPHAN: Set = Set {
    suspended: false,
    stop: false,
    revoked: false,
    orphan: true,
};

/// What stood on it, on top of the thread, is gone.
pub(crate) const REVOKED: Set = Set {
    suspended: false,
    stop: false,
    revoked: true,
    orphan: false,
};

pub(crate) const REVOKED_ORPHAN: Set = Set {
    suspended: false,
    stop: false,
    revoked: true,
    orphan: true,
};

/// It rests while it is on top.
pub(crate) const SUSPENDED: Set = Set {
    suspended: true,
    stop: false,
    revoked: false,
    orphan: false,
};

/// A ThreadDeath is pending.
pub(crate) const STOPPED: Set = Set {
    suspended: false,
    stop: true,
    revoked: false,
    orphan: false,
};

pub(crate) const SUSPENDED_ORPHAN: Set = Set {
    suspended: true,
    stop: false,
    revoked: false,
    orphan: true,
};

pub(crate) const STOPPED_ORPHAN: Set = Set {
    suspended: false,
    stop: true,
    revoked: false,
    orphan: true,
};

/// A segment: its number, its domain, and what is set.
pub(crate) type SegmentRow = (u64, u32, Set);

/// A thread: its number, the domain in which it was started, and its segments, lowest first.
pub(crate) type ThreadRow<'a> = (u32, u32, &'a [SegmentRow]);

/// A name, the number of its capability, and who bound it.
pub(crate) type NameRow = (&'static [u16], u32, u32);

fn is_segment(part: &SegmentPart, row: &SegmentRow) -> bool {
    let set = Set {
        suspended: part.suspended,
        stop: part.stop,
        revoked: part.revoked,
        orphan: part.orphan,
    };
    part.number.0 == row.0 && part.domain.0 == row.1 && set == row.2
}

fn are_segments(parts: &[SegmentPart], rows: &[SegmentRow]) -> bool {
    let are_same = parts
        .iter()
        .zip(rows)
        .all(|(part, row)| is_segment(part, row));
    are_same && parts.len() == rows.len()
}

fn is_thread(part: &ThreadPart, row: &ThreadRow) -> bool {
    part.number.0 == row.0
        && part.domain.0 == row.1
        && are_segments(part.segments.as_slice(), row.2)
}

/// Whether just these threads are listed.
pub(crate) fn are_threads(parts: &[ThreadPart], rows: &[ThreadRow]) -> bool {
    let are_same = parts
        .iter()
        .zip(rows)
        .all(|(part, row)| is_thread(part, row));
    are_same && parts.len() == rows.len()
}

fn is_name(part: &NamePart, row: &NameRow) -> bool {
    part.text.as_slice() == row.0 && part.cap.0 == row.1 && part.binder.0 == row.2
}

/// Whether just these names are listed.
pub(crate) fn are_names(parts: &[NamePart], rows: &[NameRow]) -> bool {
    let are_same = parts.iter().zip(rows).all(|(part, row)| is_name(part, row));
    are_same && parts.len() == rows.len()
}
