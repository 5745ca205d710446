//! Switches: at their keys, between them and beyond them.

use crate::cases::expect_value;
use crate::methods::Op::{Do, Switch, With};
use jk_model::Value::Int;
use jk_model::opcodes::{ILOAD, IRETURN, LOOKUPSWITCH, SIPUSH, TABLESWITCH};
use std::alloc::Global;
use std::process::Abort;
use std::test::Fail;

/// The default of each switch here, and targets that cases have: each place pushes its own number and returns it.
const DEFAULT: i32 = 2;

const FIRST: i32 = 4;

const SECOND: i32 = 6;

const THIRD: i32 = 8;

/// A switch, and values with where it goes on at each.
type Row = (u8, &'static [(i32, i32)], &'static [(i32, i32)]);

const SWITCHES: &[Row] = &[
    (
        TABLESWITCH,
        &[(3, FIRST), (4, SECOND), (5, THIRD)],
        &[
            (i32::MIN, DEFAULT),
            (-3, DEFAULT),
            (2, DEFAULT),
            (3, FIRST),
            (4, SECOND),
            (5, THIRD),
            (6, DEFAULT),
            (i32::MAX, DEFAULT),
        ],
    ),
    // below 0, and two keys with one target, which may be the default's
    (
        TABLESWITCH,
        &[(-2, SECOND), (-1, DEFAULT), (0, SECOND), (1, FIRST)],
        &[
            (-3, DEFAULT),
            (-2, SECOND),
            (-1, DEFAULT),
            (0, SECOND),
            (1, FIRST),
            (2, DEFAULT),
        ],
    ),
    (
        TABLESWITCH,
        &[(i32::MAX, FIRST)],
        &[
            (i32::MAX - 1, DEFAULT),
            (i32::MAX, FIRST),
            (i32::MIN, DEFAULT),
        ],
    ),
    (
        LOOKUPSWITCH,
        &[(-5, THIRD), (0, FIRST), (1000, SECOND)],
        &[
            (-6, DEFAULT),
            (-5, THIRD),
            (-4, DEFAULT),
            (-1, DEFAULT),
            (0, FIRST),
            (1, DEFAULT),
            (999, DEFAULT),
            (1000, SECOND),
            (1001, DEFAULT),
        ],
    ),
    (
        LOOKUPSWITCH,
        &[
            (i32::MIN, FIRST),
            (-100, SECOND),
            (3, THIRD),
            (7, FIRST),
            (8, SECOND),
            (2_000_000_000, FIRST),
            (i32::MAX, THIRD),
        ],
        &[
            (i32::MIN, FIRST),
            (i32::MIN + 1, DEFAULT),
            (-100, SECOND),
            (0, DEFAULT),
            (3, THIRD),
            (5, DEFAULT),
            (7, FIRST),
            (8, SECOND),
            (9, DEFAULT),
            (2_000_000_000, FIRST),
            (i32::MAX - 1, DEFAULT),
            (i32::MAX, THIRD),
        ],
    ),
    (LOOKUPSWITCH, &[], &[(-1, DEFAULT), (0, DEFAULT)]),
];

/// Asserts where a switch goes on at a value.
fn expect_target(
    rt: &impl Abort,
    alloc: Global,
    op: u8,
    cases: &[(i32, i32)],
    value: i32,
    target: i32,
) -> Result<(), Fail> {
    let code = [
        With(ILOAD, 0),
        Switch(op, cases, DEFAULT),
        With(SIPUSH, DEFAULT),
        Do(IRETURN),
        With(SIPUSH, FIRST),
        Do(IRETURN),
        With(SIPUSH, SECOND),
        Do(IRETURN),
        With(SIPUSH, THIRD),
        Do(IRETURN),
    ];
    expect_value(rt, alloc, &code, &[Int(value)], Int(target))
}

#[test]
fn switches(rt: HostRuntime) -> Result<(), Fail> {
    for &(op, cases, rows) in SWITCHES {
        for &(value, target) in rows {
            expect_target(&rt, rt.alloc(), op, cases, value, target)?;
        }
    }
    Ok(())
}
