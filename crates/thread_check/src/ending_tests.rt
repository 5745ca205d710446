//! Which threads end with a domain, also after a change that comes behind the list of them, and what the domain's end leaves: a table
//! of stacks.

use crate::acts::{Act, answer_to, begin, end, opened, push};
use crate::asking::expect_live;
use crate::rows::{
    ORPHAN, PLAIN, REVOKED, REVOKED_ORPHAN, STOPPED_ORPHAN, SUSPENDED, ThreadRow, are_threads,
};
use jk_model::{DomainId, ThreadNo};
use std::alloc::Global;
use std::test::Fail;
use thread_segments::Shared;

const A: u32 = 0;

const B: u32 = 1;

const C: u32 = 2;

const D: u32 = 3;

/// Threads, and a domain that ends.
struct Case<'a> {
    name: &'a str,
    /// For each thread the domains of its segments, the lowest first. Threads and segments are numbered from 1 as they stand here.
    stacks: &'a [&'a [u32]],
    domain: u32,
    /// The threads that end with the domain.
    ending: &'a [u32],
    /// What is called after they were listed, and the threads that end with the domain then.
    acts: &'a [Act],
    then: &'a [u32],
    /// The threads that its end leaves.
    left: &'a [ThreadRow<'a>],
}

/// Of a removed segment the rules say: what stood directly on it is an orphan; where it was on top, a RevokedException is pending on the
/// new top; a thread without a segment has ended.
const ENDS: &[Case<'static>] = &[
    Case {
        // The caller waits for an answer that will not come.
        name: "on top",
        stacks: &[&[A, B]],
        domain: B,
        ending: &[],
        acts: &[],
        then: &[],
        left: &[(1, A, &[(1, A, REVOKED)])],
    },
    Case {
        // The caller still waits for what stands above it, and isn't on top.
        name: "in the middle",
        stacks: &[&[A, B, C]],
        domain: B,
        ending: &[],
        acts: &[],
        then: &[],
        left: &[(1, A, &[(1, A, PLAIN), (3, C, ORPHAN)])],
    },
    Case {
        // The thread goes on, though the domain in which it was started is gone.
        name: "at the bottom",
        stacks: &[&[B, A]],
        domain: B,
        ending: &[],
        acts: &[],
        then: &[],
        left: &[(1, B, &[(2, A, ORPHAN)])],
    },
    Case {
        name: "the whole thread",
        stacks: &[&[B, B, B]],
        domain: B,
        ending: &[1],
        acts: &[],
        then: &[1],
        left: &[],
    },
    Case {
        // Two in a row leave one gap, and one orphan.
        name: "twice in a row, in the middle",
        stacks: &[&[A, B, B, C]],
        domain: B,
        ending: &[],
        acts: &[],
        then: &[],
        left: &[(1, A, &[(1, A, PLAIN), (4, C, ORPHAN)])],
    },
    Case {
        // What stood on each gap is an orphan, and what stood on an orphan isn't.
        name: "twice, apart, in the middle",
        stacks: &[&[A, B, C, B, C, D]],
        domain: B,
        ending: &[],
        acts: &[],
        then: &[],
        left: &[(
            1,
            A,
            &[(1, A, PLAIN), (3, C, ORPHAN), (5, C, ORPHAN), (6, D, PLAIN)],
        )],
    },
    Case {
        name: "below and above the new top",
        stacks: &[&[A, B, C, B]],
        domain: B,
        ending: &[],
        acts: &[],
        then: &[],
        left: &[(1, A, &[(1, A, PLAIN), (3, C, REVOKED_ORPHAN)])],
    },
    Case {
        name: "at the bottom and on top",
        stacks: &[&[B, A, B]],
        domain: B,
        ending: &[],
        acts: &[],
        then: &[],
        left: &[(1, B, &[(2, A, REVOKED_ORPHAN)])],
    },
    Case {
        name: "two on top",
        stacks: &[&[A, B, B]],
        domain: B,
        ending: &[],
        acts: &[],
        then: &[],
        left: &[(1, A, &[(1, A, REVOKED)])],
    },
    Case {
        name: "nowhere",
        stacks: &[&[A, C], &[C]],
        domain: B,
        ending: &[],
        acts: &[],
        then: &[],
        left: &[
            (1, A, &[(1, A, PLAIN), (2, C, PLAIN)]),
            (2, C, &[(3, C, PLAIN)]),
        ],
    },
    Case {
        // Those that end stand before, between and behind the others.
        name: "in several threads",
        stacks: &[&[B], &[A, B], &[B, B], &[A], &[C, B, B], &[B]],
        domain: B,
        ending: &[1, 3, 6],
        acts: &[],
        then: &[1, 3, 6],
        left: &[
            (2, A, &[(2, A, REVOKED)]),
            (4, A, &[(6, A, PLAIN)]),
            (5, C, &[(7, C, REVOKED)]),
        ],
    },
];

/// The same where something is called after the list.
const CHANGES: &[Case<'static>] = &[
    Case {
        // What was an orphan stays one, and nothing else becomes one.
        name: "below an orphan",
        stacks: &[&[A, B, C, D]],
        domain: A,
        ending: &[],
        acts: &[Act::End(B)],
        then: &[],
        left: &[(1, A, &[(3, C, ORPHAN), (4, D, PLAIN)])],
    },
    Case {
        name: "the orphan",
        stacks: &[&[A, B, C, D]],
        domain: C,
        ending: &[],
        acts: &[Act::End(B)],
        then: &[],
        left: &[(1, A, &[(1, A, PLAIN), (4, D, ORPHAN)])],
    },
    Case {
        // The pending exception goes with its segment, and the one below gets its own.
        name: "where a RevokedException is pending",
        stacks: &[&[A, B, C]],
        domain: B,
        ending: &[],
        acts: &[Act::End(C)],
        then: &[],
        left: &[(1, A, &[(1, A, REVOKED)])],
    },
    Case {
        name: "another domain ends after the list",
        stacks: &[&[A, B], &[B], &[C]],
        domain: B,
        ending: &[2],
        acts: &[Act::End(A)],
        then: &[1, 2],
        left: &[(3, C, &[(4, C, PLAIN)])],
    },
    Case {
        name: "a segment of another domain comes after the list",
        stacks: &[&[B], &[B]],
        domain: B,
        ending: &[1, 2],
        acts: &[Act::Push(1, A)],
        then: &[2],
        left: &[(1, B, &[(3, A, ORPHAN)])],
    },
    Case {
        name: "one more of the domain comes after the list",
        stacks: &[&[B], &[A], &[B]],
        domain: B,
        ending: &[1, 3],
        acts: &[Act::Push(1, B), Act::Push(2, B)],
        then: &[1, 3],
        left: &[(2, A, &[(2, A, REVOKED)])],
    },
    Case {
        name: "a segment of another domain goes after the list",
        stacks: &[&[B, A], &[B], &[A]],
        domain: B,
        ending: &[2],
        acts: &[Act::Pop(1)],
        then: &[1, 2],
        left: &[(3, A, &[(4, A, PLAIN)])],
    },
    Case {
        name: "a thread that is listed ends",
        stacks: &[&[B], &[B], &[B]],
        domain: B,
        ending: &[1, 2, 3],
        acts: &[Act::Pop(2)],
        then: &[1, 3],
        left: &[],
    },
    Case {
        // The number of the one that ended isn't given out again.
        name: "threads begin after the list",
        stacks: &[&[B], &[B]],
        domain: B,
        ending: &[1, 2],
        acts: &[Act::Pop(2), Act::Begin(B), Act::Begin(A)],
        then: &[1, 3],
        left: &[(4, A, &[(4, A, PLAIN)])],
    },
    Case {
        // What is set of a segment that stays is set of it still.
        name: "something is set after the list",
        stacks: &[&[B], &[A, B, C]],
        domain: B,
        ending: &[1],
        acts: &[Act::Stop(1), Act::Stop(4), Act::Suspend(2)],
        then: &[1],
        left: &[(2, A, &[(2, A, SUSPENDED), (4, C, STOPPED_ORPHAN)])],
    },
];

/// Makes a thread with segments of these domains, the lowest first.
fn make(shared: &mut Shared, stack: &[u32]) -> Result<(), Fail> {
    let Some((lowest, more)) = stack.split_first() else {
        return Err(Fail::from("a thread has a segment"));
    };
    let Some(t) = begin(shared, *lowest)? else {
        return Err(Fail::from("no thread may begin"));
    };
    for d in more {
        let _segment = push(shared, t, *d)?;
    }
    Ok(())
}

/// Whether just these threads end with a domain.
fn end_with(shared: &Shared, d: DomainId, ending: &[u32]) -> Result<bool, Fail> {
    expect_live(shared, d)?;
    let mut above = 0;
    for t in ending {
        if shared.next_ending(d, above) != Some(ThreadNo(*t)) {
            return Ok(false);
        }
        above = *t;
    }
    Ok(shared.next_ending(d, above).is_none())
}

/// Whether just these threads end with a domain, before and after they are listed.
fn are_ending(shared: &mut Shared, d: DomainId, ending: &[u32]) -> Result<bool, Fail> {
    let before = end_with(shared, d, ending)?;
    shared.list_endings(d);
    Ok(end_with(shared, d, ending)? && before)
}

/// Whether this is left.
fn is_left(shared: &Shared, rows: &[ThreadRow]) -> Result<bool, Fail> {
    let parts = shared.parts()?;
    Ok(are_threads(parts.threads.as_slice(), rows))
}

fn make_all(shared: &mut Shared, stacks: &[&[u32]]) -> Result<(), Fail> {
    for stack in stacks {
        make(shared, stack)?;
    }
    Ok(())
}

fn change(alloc: Global, shared: &mut Shared, acts: &[Act]) -> Result<(), Fail> {
    for act in acts {
        let _answer = answer_to(alloc, shared, *act)?;
    }
    Ok(())
}

/// Whether all is as the case says.
fn is_so(alloc: Global, shared: &mut Shared, case: &Case) -> Result<bool, Fail> {
    let d = DomainId(case.domain);
    make_all(shared, case.stacks)?;
    let first = are_ending(shared, d, case.ending)?;
    change(alloc, shared, case.acts)?;
    let then = are_ending(shared, d, case.then)?;
    let _done = end(alloc, shared, case.domain)?;
    Ok(is_left(shared, case.left)? && first && then)
}

/// The same of new domains.
fn is_case(alloc: Global, case: &Case) -> Result<bool, Fail> {
    let mut shared = opened(alloc)?;
    is_so(alloc, &mut shared, case)
}

#[test]
fn domains_end(rt: HostRuntime) -> Result<(), Fail> {
    for case in ENDS {
        assert!(rt; is_case(rt.alloc(), case)?, "{}", case.name);
    }
    Ok(())
}

#[test]
fn domains_end_after_changes(rt: HostRuntime) -> Result<(), Fail> {
    for case in CHANGES {
        assert!(rt; is_case(rt.alloc(), case)?, "{}", case.name);
    }
    Ok(())
}
