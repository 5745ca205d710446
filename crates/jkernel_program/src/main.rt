//! `jkernel ROOT SCRIPT`: runs a script over a tree of folders, a domain each, on the files and the streams of the system.
#![tactic(auto)]

use jk_outside::StreamSink;
use jkernel_runs::{Status, run_on};

fn main(rt: HostRuntime) -> Status {
    run_on(
        rt,
        &mut StreamSink::new(rt.stdout()),
        &mut StreamSink::new(rt.stderr()),
    )
}
