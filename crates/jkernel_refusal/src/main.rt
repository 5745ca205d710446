//! The program `jkernel` once more, for a second stored run: over a script at fault, which ends with another status than 0.
#![tactic(auto)]

use jk_outside::StreamSink;
use jkernel_runs::{Status, run_on};

fn main(rt: HostRuntime) -> Status {
    run_on(
        rt,
        &mut StreamSink::new(rt.stdout()),
        &mut StreamSink::new(rt.stderr()),
    )
}
