//! What domains share, made anew of plain lists: it answers the same as before, and goes on the same.

ghost use Rattle.std.specs.Prelude.{◌≡◌, IfOk};
ghost use Rattle.thread_check.specs.KnownStubs.{known_stubs};

use crate::acts::{Act, BARE, ONE, TWO, admit, opened, quotas};
use crate::answers::{Answer, ILLEGAL, QUOTA, SECURITY};
use crate::playing::{After, Row, anew, play};
use crate::rows::{
    NameRow, ORPHAN, PLAIN, REVOKED, REVOKED_ORPHAN, STOPPED, SUSPENDED, ThreadRow, are_names,
    are_threads,
};
use jk_model::{CapId, ClassId, List, ThreadNo};
use std::alloc::Global;
use std::process::Abort;
use std::test::Fail;
use thread_segments::{
    CapPart, DomainPart, SegmentInfo, SegmentPart, Shared, SharedParts, ThreadPart,
};

const A: u32 = 0;

const B: u32 = 1;

const C: u32 = 2;

/// A domain without a budget.
const D: u32 = 3;

/// A domain that comes when all is made anew.
const E: u32 = 4;

// Names.
const P: &[u16] = &[112];

const Q: &[u16] = &[113];

const R: &[u16] = &[114];

const S: &[u16] = &[115];

const T: &[u16] = &[116];

/// A domain: its number, whether it lives, the first number of its range of capabilities, and how many steps it may still take.
type DomainRow = (u32, bool, u32, Option<u32>);

/// A capability: its number, its owner and the target there, whether it is revoked, and the target's class.
type CapRow = (u32, u32, u32, bool, ClassId);

/// What the plain lists are to say.
#[derive(Clone, Copy)]
struct Listed<'a> {
    /// The numbers of the next thread and of the next segment.
    next: (u32, u64),
    domains: &'a [DomainRow],
    caps: &'a [CapRow],
    names: &'a [NameRow],
    threads: &'a [ThreadRow<'a>],
}

/// Each domain may create two capabilities, bind two names, have three threads that were started in it, and take five steps.
const BEFORE: &[Row] = &[
    (Act::Create(A, ONE, 7), Answer::Number(1)),
    (Act::Create(B, TWO, 8), Answer::Number(3)),
    (Act::Create(C, ONE, 9), Answer::Number(5)),
    (Act::Create(C, TWO, 10), Answer::Number(6)),
    (Act::Revoke(C, 6), Answer::Done),
    (Act::Bind(A, Q, 1), Answer::Done),
    (Act::Bind(C, P, 3), Answer::Done),
    (Act::Bind(B, S, 5), Answer::Done),
    (Act::Bind(C, R, 5), Answer::Done),
    // Bound anew, it keeps its place.
    (Act::Bind(C, P, 6), Answer::Done),
    // Segments of two threads come in turn, and a third thread ends.
    (Act::Begin(B), Answer::Number(1)),
    (Act::Push(1, A), Answer::Number(2)),
    (Act::Push(1, C), Answer::Number(3)),
    (Act::Begin(A), Answer::Number(2)),
    (Act::Push(2, B), Answer::Number(5)),
    (Act::Push(2, C), Answer::Number(6)),
    (Act::Begin(C), Answer::Number(3)),
    (Act::Push(1, A), Answer::Number(8)),
    (Act::Pop(3), Answer::Done),
    (Act::Push(2, A), Answer::Number(9)),
    (Act::Begin(C), Answer::Number(4)),
    (Act::Push(4, B), Answer::Number(11)),
    (Act::Suspend(8), Answer::Done),
    (Act::Stop(4), Answer::Done),
    (Act::Spend(A), Answer::Done),
    (Act::Spend(B), Answer::Done),
    (Act::Spend(B), Answer::Done),
    (Act::End(B), Answer::Done),
];

/// After that.
const FIRST: Listed<'static> = Listed {
    next: (5, 12),
    domains: &[
        (A, true, 1, Some(4)),
        (B, false, 3, Some(3)),
        (C, true, 5, Some(5)),
        (D, true, 7, None),
    ],
    caps: &[
        (1, A, 7, false, ONE),
        (3, B, 8, true, TWO),
        (5, C, 9, false, ONE),
        (6, C, 10, true, TWO),
    ],
    names: &[(Q, 1, A), (P, 6, C), (R, 5, C)],
    threads: &[
        (1, B, &[(2, A, ORPHAN), (3, C, PLAIN), (8, A, SUSPENDED)]),
        (2, A, &[(4, A, STOPPED), (6, C, ORPHAN), (9, A, PLAIN)]),
        (4, C, &[(10, C, REVOKED)]),
    ],
};

/// When another domain was admitted, too.
const AFTER: &[Row] = &[
    (Act::Create(E, ONE, 13), Answer::Number(9)),
    (Act::Create(A, BARE, 11), ILLEGAL),
    (Act::Create(A, TWO, 11), Answer::Number(2)),
    (Act::Create(A, TWO, 12), QUOTA),
    // A revoked one counts.
    (Act::Create(C, ONE, 12), QUOTA),
    (Act::Revoke(A, 5), SECURITY),
    (Act::Revoke(A, 1), Answer::Done),
    // The name of the domain that ended is free.
    (Act::Bind(A, S, 2), Answer::Done),
    (Act::Bind(C, S, 2), ILLEGAL),
    (Act::Bind(C, T, 5), QUOTA),
    (Act::Bind(A, T, 2), QUOTA),
    // One thread that was started in this domain lives.
    (Act::Begin(C), Answer::Number(5)),
    (Act::Begin(C), Answer::Number(6)),
    (Act::Begin(C), Answer::Nothing),
    (Act::Pop(4), Answer::Done),
    (Act::Begin(C), Answer::Number(7)),
    (Act::Begin(A), Answer::Number(8)),
    (Act::Push(2, C), Answer::Number(16)),
    (Act::Spend(A), Answer::Done),
    (Act::Spend(C), Answer::Done),
    (Act::End(A), Answer::Done),
];

/// After that.
const LAST: Listed<'static> = Listed {
    next: (9, 17),
    domains: &[
        (A, false, 1, Some(3)),
        (B, false, 3, Some(3)),
        (C, true, 5, Some(4)),
        (D, true, 7, None),
        (E, true, 9, Some(5)),
    ],
    caps: &[
        (1, A, 7, true, ONE),
        (2, A, 11, true, TWO),
        (3, B, 8, true, TWO),
        (5, C, 9, false, ONE),
        (6, C, 10, true, TWO),
        (9, E, 13, false, ONE),
    ],
    names: &[(P, 6, C), (R, 5, C)],
    threads: &[
        (1, B, &[(3, C, REVOKED_ORPHAN)]),
        (2, A, &[(6, C, ORPHAN), (16, C, ORPHAN)]),
        (5, C, &[(12, C, PLAIN)]),
        (6, C, &[(13, C, PLAIN)]),
        (7, C, &[(14, C, PLAIN)]),
    ],
};

/// Numbers of capabilities, with the class of each that was given out.
const CLASSES: &[(u32, Option<ClassId>)] = &[
    (0, None),
    (1, Some(ONE)),
    (2, None),
    (3, Some(TWO)),
    (4, None),
    (5, Some(ONE)),
    (6, Some(TWO)),
    (7, None),
    (9, None),
];

// ---- Lists.

fn is_domain(part: &DomainPart, row: &DomainRow) -> bool {
    part.live == row.1
        && part.first_cap == row.2
        && part.steps_left == row.3
        && part.quotas == quotas(row.0)
}

fn are_domains(parts: &[DomainPart], rows: &[DomainRow]) -> bool {
    let are_same = parts
        .iter()
        .zip(rows)
        .all(|(part, row)| is_domain(part, row));
    are_same && parts.len() == rows.len()
}

fn is_cap(part: &CapPart, row: &CapRow) -> bool {
    (part.number.0, part.owner.0, part.target) == (row.0, row.1, row.2)
        && part.revoked == row.3
        && part.class == row.4
}

fn are_caps(parts: &[CapPart], rows: &[CapRow]) -> bool {
    let are_same = parts.iter().zip(rows).all(|(part, row)| is_cap(part, row));
    are_same && parts.len() == rows.len()
}

fn are_listed(parts: &SharedParts, rows: &Listed) -> bool {
    (parts.next_thread, parts.next_segment) == rows.next
        && are_domains(parts.domains.as_slice(), rows.domains)
        && are_caps(parts.caps.as_slice(), rows.caps)
        && are_names(parts.names.as_slice(), rows.names)
        && are_threads(parts.threads.as_slice(), rows.threads)
}

// ---- Answers.

fn tells_segment(shared: &Shared, t: ThreadNo, part: &SegmentPart) -> bool {
    let info = SegmentInfo {
        thread: t,
        domain: part.domain,
        suspended: part.suspended,
        stop: part.stop,
        revoked: part.revoked,
        orphan: part.orphan,
    };
    shared.segment(part.number) == Some(info)
}

fn tells_thread(shared: &Shared, part: &ThreadPart) -> bool {
    let segments = part.segments.as_slice();
    let Some(top) = segments.last() else {
        return false;
    };
    let are_told = segments
        .iter()
        .all(|s| tells_segment(shared, part.number, s));
    are_told && shared.top(part.number) == Some(top.number)
}

fn tells_cap(shared: &Shared, part: &CapPart) -> bool {
    let Some(status) = shared.status(part.number) else {
        return false;
    };
    status.owner == part.owner
        && status.target == part.target
        && status.revoked == part.revoked
        && shared.capability_class(part.number) == Some(part.class)
}

/// Whether the calls say what the lists say.
fn tells(shared: &Shared, parts: &SharedParts) -> bool {
    parts
        .threads
        .as_slice()
        .iter()
        .all(|part| tells_thread(shared, part))
        && parts
            .caps
            .as_slice()
            .iter()
            .all(|part| tells_cap(shared, part))
        && parts.names.as_slice().iter().all(|part| {
            shared.lookup(part.text.as_slice()) == Some(part.cap)
        })
}

/// Whether just these threads live.
fn live(shared: &Shared, threads: &[ThreadRow]) -> bool {
    let mut above = 0;
    for thread in threads {
        if shared.next_live(above) != Some(thread.0) {
            return false;
        }
        above = thread.0;
    }
    shared.next_live(above).is_none()
}

/// Whether lists and calls say this.
fn says(shared: &Shared, rows: &Listed) -> Result<bool, Fail> {
    let parts = shared.parts()?;
    Ok(are_listed(&parts, rows) && tells(shared, &parts) && live(shared, rows.threads))
}

fn knows_classes(shared: &Shared) -> bool {
    CLASSES
        .iter()
        .all(|(k, class)| shared.capability_class(CapId(*k)) == *class)
}

// ---- The test.

/// Sees what it says, and goes on.
fn go_on(rt: &impl Abort, alloc: Global, shared: &mut Shared, after: After) -> Result<(), Fail>
    requires { shared.old.stubs ≡ known_stubs }
    ensures { IfOk result (λ _. shared.new.stubs ≡ known_stubs) }
{
    assert!(rt; knows_classes(shared));
    assert!(rt; says(shared, &FIRST)?);
    admit(shared, E, List::new(alloc))?;
    play(rt, alloc, shared, "after", AFTER, after)?;
    assert!(rt; says(shared, &LAST)?);
    Ok(())
}

/// Sees what the same says that is made anew, and goes on with that.
fn go_on_anew(rt: &impl Abort, alloc: Global, shared: &Shared) -> Result<(), Fail>
    requires { shared.now.stubs ≡ known_stubs }
{
    let mut new = anew(alloc, shared)?;
    go_on(rt, alloc, &mut new, After::Nothing)
}

fn go_on_both(rt: &impl Abort, alloc: Global, shared: &mut Shared, after: After) -> Result<(), Fail>
    requires { shared.old.stubs ≡ known_stubs }
{
    play(rt, alloc, shared, "before", BEFORE, after)?;
    go_on_anew(rt, alloc, shared)?;
    go_on(rt, alloc, shared, after)
}

fn expect(rt: &impl Abort, alloc: Global, after: After) -> Result<(), Fail> {
    let mut shared = opened(alloc)?;
    go_on_both(rt, alloc, &mut shared, after)
}

#[test]
fn all_is_made_anew(rt: HostRuntime) -> Result<(), Fail> {
    expect(&rt, rt.alloc(), After::Nothing)?;
    expect(&rt, rt.alloc(), After::Renewal)
}
