//! What is refused to a domain and to a thread, and what is asked of one that isn't there any more: a table of calls.

ghost use Rattle.std.specs.Prelude.{◌≡◌};
ghost use Rattle.thread_check.specs.KnownStubs.{known_stubs};

use crate::acts::{Act, BARE, ONE, TWO, opened};
use crate::answers::{Answer, ILLEGAL, QUOTA, SECURITY};
use crate::playing::{After, Row, play};
use crate::questions::Question;
use crate::rows::{
    NameRow, ORPHAN, PLAIN, REVOKED, STOPPED, SUSPENDED, SUSPENDED_ORPHAN, ThreadRow, are_names,
    are_threads,
};
use std::alloc::Global;
use std::process::Abort;
use std::test::Fail;
use thread_segments::Shared;

const A: u32 = 0;

const B: u32 = 1;

const C: u32 = 2;

const P: &[u16] = &[112];

const Q: &[u16] = &[113];

const R: &[u16] = &[114];

const S: &[u16] = &[115];

const EMPTY: &[u16] = &[];

/// Of 16,777,215 numbers of capabilities four domains have two each.
const LEFT: Answer = Answer::Number(16_777_207);

/// A name may have 64 units.
const LONGEST: &[u16] = &[120; 64];

const TOO_LONG: &[u16] = &[120; 65];

/// Calls of four domains, of which each may start three threads, create two capabilities and bind two names.
struct Case<'a> {
    name: &'a str,
    /// Threads, segments and capabilities are numbered in the order in which they come; a domain's capabilities from 1, 3, 5 and 7.
    rows: &'a [Row],
    /// What is there afterwards.
    threads: &'a [ThreadRow<'a>],
    names: &'a [NameRow],
}

/// Of segments that are gone nothing is known, and what is set of them changes nothing.
const THREADS: &[Case<'static>] = &[
    Case {
        name: "a thread ends with its lowest segment",
        rows: &[
            (Act::Ask(Question::Top(1)), Answer::Nothing),
            (Act::Begin(A), Answer::Number(1)),
            (Act::Push(1, B), Answer::Number(2)),
            (Act::Ask(Question::Top(1)), Answer::Number(2)),
            (Act::Ask(Question::Below(2)), Answer::Number(1)),
            (Act::Ask(Question::Below(1)), Answer::Nothing),
            (Act::Ask(Question::Thread(2)), Answer::Number(1)),
            (Act::Pop(1), Answer::Done),
            (Act::Ask(Question::Thread(2)), Answer::Nothing),
            (Act::Ask(Question::Top(1)), Answer::Number(1)),
            (Act::Pop(1), Answer::Done),
            // No segment may be put on it now.
            (Act::Ask(Question::Top(1)), Answer::Nothing),
            (Act::Ask(Question::Thread(1)), Answer::Nothing),
            // No number is used again.
            (Act::Begin(A), Answer::Number(2)),
            (Act::Ask(Question::Top(2)), Answer::Number(3)),
        ],
        threads: &[(2, A, &[(3, A, PLAIN)])],
        names: &[],
    },
    Case {
        // It is pending there whatever stands above, and goes with its segment.
        name: "a stop of a lowest segment",
        rows: &[
            (Act::Begin(A), Answer::Number(1)),
            (Act::Push(1, B), Answer::Number(2)),
            (Act::Begin(A), Answer::Number(2)),
            (Act::Push(2, B), Answer::Number(4)),
            (Act::Begin(B), Answer::Number(3)),
            (Act::Begin(C), Answer::Number(4)),
            (Act::Stop(1), Answer::Done),
            (Act::Stop(3), Answer::Done),
            (Act::Pop(2), Answer::Done),
            (Act::Stop(5), Answer::Done),
            (Act::ClearStop(5), Answer::Done),
            (Act::Stop(6), Answer::Done),
            (Act::Pop(4), Answer::Done),
        ],
        threads: &[
            (1, A, &[(1, A, STOPPED), (2, B, PLAIN)]),
            (2, A, &[(3, A, STOPPED)]),
            (3, B, &[(5, B, PLAIN)]),
        ],
        names: &[],
    },
    Case {
        name: "segments of a thread that ended",
        rows: &[
            (Act::Begin(A), Answer::Number(1)),
            (Act::Begin(B), Answer::Number(2)),
            (Act::Suspend(1), Answer::Done),
            (Act::Pop(1), Answer::Done),
            (Act::Suspend(1), Answer::Done),
            (Act::Resume(1), Answer::Done),
            (Act::Stop(1), Answer::Done),
            (Act::Ask(Question::Thread(1)), Answer::Nothing),
            // Of this number there was none yet.
            (Act::Suspend(3), Answer::Done),
            (Act::Stop(3), Answer::Done),
            (Act::Begin(A), Answer::Number(3)),
            (Act::Ask(Question::Top(3)), Answer::Number(3)),
        ],
        threads: &[(2, B, &[(2, B, PLAIN)]), (3, A, &[(3, A, PLAIN)])],
        names: &[],
    },
    Case {
        // Each is of one segment alone, and twice is as good as once.
        name: "segments rest and go on",
        rows: &[
            (Act::Begin(A), Answer::Number(1)),
            (Act::Push(1, A), Answer::Number(2)),
            (Act::Push(1, A), Answer::Number(3)),
            (Act::Suspend(1), Answer::Done),
            (Act::Suspend(1), Answer::Done),
            (Act::Suspend(2), Answer::Done),
            (Act::Resume(2), Answer::Done),
            (Act::Resume(2), Answer::Done),
            (Act::Resume(3), Answer::Done),
        ],
        threads: &[(1, A, &[(1, A, SUSPENDED), (2, A, PLAIN), (3, A, PLAIN)])],
        names: &[],
    },
    Case {
        name: "segments of a domain that ended",
        rows: &[
            (Act::Begin(A), Answer::Number(1)),
            (Act::Push(1, B), Answer::Number(2)),
            (Act::Push(1, C), Answer::Number(3)),
            (Act::Stop(2), Answer::Done),
            (Act::Suspend(3), Answer::Done),
            (Act::End(B), Answer::Done),
            (Act::Stop(2), Answer::Done),
            (Act::Suspend(2), Answer::Done),
            (Act::Ask(Question::Thread(2)), Answer::Nothing),
            (Act::Ask(Question::Below(3)), Answer::Number(1)),
        ],
        threads: &[(1, A, &[(1, A, PLAIN), (3, C, SUSPENDED_ORPHAN)])],
        names: &[],
    },
    Case {
        // A RevokedException is pending for the segment below once the orphan is left.
        name: "an orphan is left",
        rows: &[
            (Act::Begin(A), Answer::Number(1)),
            (Act::Push(1, B), Answer::Number(2)),
            (Act::Push(1, C), Answer::Number(3)),
            (Act::End(B), Answer::Done),
            (Act::Pop(1), Answer::Done),
            (Act::SetRevoked(1, true), Answer::Done),
        ],
        threads: &[(1, A, &[(1, A, REVOKED)])],
        names: &[],
    },
    Case {
        name: "a RevokedException is raised",
        rows: &[
            (Act::Begin(A), Answer::Number(1)),
            (Act::Push(1, B), Answer::Number(2)),
            (Act::End(B), Answer::Done),
            (Act::SetRevoked(1, false), Answer::Done),
            // It calls again, and what it calls ends too.
            (Act::Push(1, C), Answer::Number(3)),
            (Act::Push(1, C), Answer::Number(4)),
            (Act::End(C), Answer::Done),
        ],
        threads: &[(1, A, &[(1, A, REVOKED)])],
        names: &[],
    },
    Case {
        name: "an orphan without one below is left",
        rows: &[
            (Act::Begin(B), Answer::Number(1)),
            (Act::Push(1, C), Answer::Number(2)),
            (Act::End(B), Answer::Done),
            (Act::Ask(Question::Below(2)), Answer::Nothing),
            (Act::Pop(1), Answer::Done),
            (Act::Ask(Question::Top(1)), Answer::Nothing),
        ],
        threads: &[],
        names: &[],
    },
    Case {
        // What an orphan calls isn't one.
        name: "a thread outlives the domain of its start",
        rows: &[
            (Act::Begin(B), Answer::Number(1)),
            (Act::Push(1, A), Answer::Number(2)),
            (Act::End(B), Answer::Done),
            (Act::Push(1, C), Answer::Number(3)),
        ],
        threads: &[(1, B, &[(2, A, ORPHAN), (3, C, PLAIN)])],
        names: &[],
    },
    Case {
        // A live thread counts where it was started, and there alone.
        name: "as many threads as a domain may start",
        rows: &[
            (Act::Begin(A), Answer::Number(1)),
            (Act::Begin(A), Answer::Number(2)),
            (Act::Begin(A), Answer::Number(3)),
            (Act::Begin(A), Answer::Nothing),
            (Act::Begin(B), Answer::Number(4)),
            (Act::Push(4, A), Answer::Number(5)),
            (Act::Pop(2), Answer::Done),
            (Act::Begin(A), Answer::Number(5)),
            (Act::Begin(A), Answer::Nothing),
        ],
        threads: &[
            (1, A, &[(1, A, PLAIN)]),
            (3, A, &[(3, A, PLAIN)]),
            (4, B, &[(4, B, PLAIN), (5, A, PLAIN)]),
            (5, A, &[(6, A, PLAIN)]),
        ],
        names: &[],
    },
];

/// The owner alone revokes, and the binder alone binds anew and unbinds.
const CAPABILITIES: &[Case<'static>] = &[
    Case {
        name: "a capability is revoked",
        rows: &[
            (Act::Ask(Question::Capability(1)), Answer::Nothing),
            (Act::Create(A, ONE, 7), Answer::Number(1)),
            (
                Act::Ask(Question::Capability(1)),
                Answer::Leads(A, 7, false),
            ),
            (Act::Revoke(B, 1), SECURITY),
            (
                Act::Ask(Question::Capability(1)),
                Answer::Leads(A, 7, false),
            ),
            (Act::Revoke(A, 1), Answer::Done),
            (Act::Revoke(A, 1), Answer::Done),
            (Act::Revoke(B, 1), SECURITY),
            (Act::Ask(Question::Capability(1)), Answer::Leads(A, 7, true)),
            (Act::Ask(Question::Class(1)), Answer::Number(50)),
            (Act::Ask(Question::Stub(1)), Answer::Number(50)),
            // It is in the range, and wasn't given out.
            (Act::Ask(Question::Capability(2)), Answer::Nothing),
            (Act::Ask(Question::Class(2)), Answer::Nothing),
            (Act::Ask(Question::Stub(2)), Answer::Nothing),
        ],
        threads: &[],
        names: &[],
    },
    Case {
        // A name that another domain bound stays.
        name: "the owner ends",
        rows: &[
            (Act::Create(B, TWO, 8), Answer::Number(3)),
            (Act::Create(A, TWO, 8), Answer::Number(1)),
            (Act::Bind(C, P, 3), Answer::Done),
            (Act::Ask(Question::NumbersLeft), LEFT),
            (Act::End(B), Answer::Done),
            // No number is used again.
            (Act::Ask(Question::NumbersLeft), LEFT),
            (Act::Ask(Question::Capability(3)), Answer::Leads(B, 8, true)),
            (
                Act::Ask(Question::Capability(1)),
                Answer::Leads(A, 8, false),
            ),
            (Act::Ask(Question::Class(3)), Answer::Number(60)),
            (Act::Ask(Question::Stub(3)), Answer::Number(60)),
            (Act::Ask(Question::Name(P)), Answer::Number(3)),
            (Act::Revoke(C, 3), SECURITY),
        ],
        threads: &[],
        names: &[(P, 3, C)],
    },
    Case {
        // Revoked ones count, and the object's class is looked at first.
        name: "a capability is created",
        rows: &[
            (Act::Create(A, BARE, 7), ILLEGAL),
            (Act::Create(A, ONE, 7), Answer::Number(1)),
            (Act::Revoke(A, 1), Answer::Done),
            (Act::Create(A, TWO, 8), Answer::Number(2)),
            (Act::Create(A, ONE, 9), QUOTA),
            (Act::Create(A, BARE, 9), ILLEGAL),
            (Act::Create(B, ONE, 9), Answer::Number(3)),
            (Act::Ask(Question::Class(2)), Answer::Number(60)),
        ],
        threads: &[],
        names: &[],
    },
    Case {
        // A name of its own may lead elsewhere, and keeps its place.
        name: "a name is bound",
        rows: &[
            (Act::Create(A, ONE, 7), Answer::Number(1)),
            (Act::Create(B, ONE, 8), Answer::Number(3)),
            (Act::Bind(A, P, 1), Answer::Done),
            (Act::Bind(B, P, 3), ILLEGAL),
            (Act::Ask(Question::Name(P)), Answer::Number(1)),
            (Act::Bind(A, Q, 1), Answer::Done),
            (Act::Bind(A, R, 1), QUOTA),
            (Act::Ask(Question::Name(R)), Answer::Nothing),
            (Act::Bind(B, S, 3), Answer::Done),
            (Act::Bind(A, S, 1), ILLEGAL),
            (Act::Bind(A, P, 3), Answer::Done),
            (Act::Ask(Question::Name(P)), Answer::Number(3)),
        ],
        threads: &[],
        names: &[(P, 3, A), (Q, 1, A), (S, 3, B)],
    },
    Case {
        // It is free for others then, and its binder may have another.
        name: "a name is unbound",
        rows: &[
            (Act::Create(A, ONE, 7), Answer::Number(1)),
            (Act::Unbind(B, P), Answer::Done),
            (Act::Bind(A, P, 1), Answer::Done),
            (Act::Unbind(B, P), SECURITY),
            (Act::Ask(Question::Name(P)), Answer::Number(1)),
            (Act::Bind(A, Q, 1), Answer::Done),
            (Act::Unbind(A, P), Answer::Done),
            (Act::Ask(Question::Name(P)), Answer::Nothing),
            (Act::Unbind(A, P), Answer::Done),
            (Act::Bind(B, P, 1), Answer::Done),
            (Act::Unbind(A, P), SECURITY),
            (Act::Bind(A, R, 1), Answer::Done),
        ],
        threads: &[],
        names: &[(Q, 1, A), (P, 1, B), (R, 1, A)],
    },
    Case {
        name: "the binder ends",
        rows: &[
            (Act::Create(A, ONE, 7), Answer::Number(1)),
            (Act::Bind(B, P, 1), Answer::Done),
            (Act::Bind(A, R, 1), Answer::Done),
            (Act::Bind(B, Q, 1), Answer::Done),
            (Act::End(B), Answer::Done),
            (Act::Ask(Question::Name(P)), Answer::Nothing),
            (Act::Unbind(A, P), Answer::Done),
            (Act::Bind(A, Q, 1), Answer::Done),
            (
                Act::Ask(Question::Capability(1)),
                Answer::Leads(A, 7, false),
            ),
        ],
        threads: &[],
        names: &[(R, 1, A), (Q, 1, A)],
    },
    Case {
        name: "a name is long",
        rows: &[
            (Act::Create(A, ONE, 7), Answer::Number(1)),
            (Act::Bind(A, TOO_LONG, 1), ILLEGAL),
            (Act::Bind(A, LONGEST, 1), Answer::Done),
            (Act::Ask(Question::Name(LONGEST)), Answer::Number(1)),
            (Act::Ask(Question::Name(TOO_LONG)), Answer::Nothing),
            (Act::Unbind(A, TOO_LONG), Answer::Done),
            (Act::Bind(A, EMPTY, 1), Answer::Done),
            (Act::Ask(Question::Name(EMPTY)), Answer::Number(1)),
            // Its length is looked at first.
            (Act::Bind(A, TOO_LONG, 1), ILLEGAL),
            (Act::Bind(A, P, 1), QUOTA),
        ],
        threads: &[],
        names: &[(LONGEST, 1, A), (EMPTY, 1, A)],
    },
];

/// Whether this is there.
fn is_there(shared: &Shared, case: &Case) -> Result<bool, Fail> {
    let parts = shared.parts()?;
    Ok(
        are_threads(parts.threads.as_slice(), case.threads)
            && are_names(parts.names.as_slice(), case.names),
    )
}

fn play_case(
    rt: &impl Abort,
    alloc: Global,
    shared: &mut Shared,
    case: &Case,
    after: After,
) -> Result<(), Fail>
    requires { shared.old.stubs ≡ known_stubs }
{
    play(rt, alloc, shared, case.name, case.rows, after)?;
    assert!(rt; is_there(shared, case)?, "{}", case.name);
    Ok(())
}

/// Plays a case with new domains.
fn play_new(rt: &impl Abort, alloc: Global, case: &Case, after: After) -> Result<(), Fail> {
    let mut shared = opened(alloc)?;
    play_case(rt, alloc, &mut shared, case, after)
}

/// Plays cases, also where all is made anew after each call.
fn play_all(rt: &impl Abort, alloc: Global, cases: &[Case]) -> Result<(), Fail> {
    for case in cases {
        play_new(rt, alloc, case, After::Nothing)?;
        play_new(rt, alloc, case, After::Renewal)?;
    }
    Ok(())
}

#[test]
fn threads_are_refused(rt: HostRuntime) -> Result<(), Fail> {
    play_all(&rt, rt.alloc(), THREADS)
}

#[test]
fn capabilities_and_names_are_refused(rt: HostRuntime) -> Result<(), Fail> {
    play_all(&rt, rt.alloc(), CAPABILITIES)
}
