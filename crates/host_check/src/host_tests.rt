//! Tables of a host's calls, each with what it answers, and what all of them print. They are written by hand from `docs/EMBEDDING.md`.

ghost use Rattle.std.specs.Prelude.{◌≤◌, length};
ghost use Rattle.host_check.specs.DrawnNumbers.{AreFew, Draws};

use crate::guests::Guest::{Absent, Bad, Good, Poor};
use crate::guests::{Guest, HELLO, RUNAWAY};
use crate::host::{PlainKernel, kill, open_folder, pass, start, turn, turns};
use frame_store::PlainFrames;
use jk_kernel::{AddAnswer, Kernel};
use jk_model::{DomainId, OutOfMemory, Place, Rule};
use jk_outside::{MemoryFiles, MemorySink, SinkFailed};
use jkasm::assemble;
use plain_store::PlainStore;
use std::alloc::Global;
use std::process::Abort;
use std::test::Fail;

/// A call of a host, and what it answers.
#[derive(Clone, Copy)]
enum Call {
    /// The guest's folder becomes the domain of this number.
    Opens(Guest, u32),
    /// The guest's folder breaks this rule as a whole.
    Refused(Guest, Rule),
    /// A thread of the guest is started, or the line says why not.
    Starts(Guest),
    /// A thread of the guest is started, and the line that says so is lost.
    StartsUntold(Guest),
    /// One step of the thread of this number.
    OneStep(u32),
    /// So many steps of it, and whether they changed something.
    Steps(u32, u32, bool),
    /// A thousand steps of each live thread, and whether any changed something.
    Passes(bool),
    /// The live thread that comes next after this number.
    Next(u32, Option<u32>),
    /// The guest's domain is ended, or the line says that there is none.
    Kills(Guest),
}

use Call::{Kills, Next, OneStep, Opens, Passes, Refused, Starts, StartsUntold, Steps};

/// The steps of each thread in a pass.
const BUDGET: u32 = 1000;

/// The guest's folder becomes a domain.
fn expect_domain(
    rt: &impl Abort,
    kernel: &mut PlainKernel,
    files: &mut MemoryFiles,
    guest: Guest,
    number: u32,
) -> Result<(), SinkFailed>
    ensures { Draws 16000 kernel.old kernel.new }
{
    match open_folder(kernel, files, guest) {
        Ok(domain) => assert!(rt; domain == DomainId(number)),
        Err(_) => assert!(rt; false, "the folder is refused"),
    }
    Ok(())
}

/// The guest's folder breaks a rule as a whole.
fn expect_refusal(
    rt: &impl Abort,
    kernel: &mut PlainKernel,
    files: &mut MemoryFiles,
    guest: Guest,
    rule: Rule,
) -> Result<(), SinkFailed>
    ensures { Draws 16000 kernel.old kernel.new }
{
    match open_folder(kernel, files, guest) {
        Err(AddAnswer::Refused(broken, Place::Whole)) => assert!(rt; broken == rule),
        _ => assert!(rt; false, "the folder isn't refused as a whole"),
    }
    Ok(())
}

/// A thread is started, and its line is lost.
fn expect_loss(
    rt: &impl Abort,
    kernel: &mut PlainKernel,
    guest: Guest,
    out: &mut MemorySink,
) -> Result<(), SinkFailed>
    requires { AreFew 1900000 kernel.old }
    ensures { Draws 16000 kernel.old kernel.new }
{
    let told = start(kernel, guest, out);
    assert!(rt; told.is_err());
    Ok(())
}

/// So many steps of a thread change something, or not.
fn expect_turns(
    rt: &impl Abort,
    kernel: &mut PlainKernel,
    thread: u32,
    steps: u32,
    changes: bool,
    out: &mut MemorySink,
) -> Result<(), SinkFailed>
    requires { AreFew 1900000 kernel.old }
    ensures { Draws 16000 kernel.old kernel.new }
{
    assert!(rt; steps <= BUDGET);
    let changed = turns(kernel, thread, steps, out)?;
    assert!(rt; changed == changes, "of thread {thread}");
    Ok(())
}

/// A pass changes something, or not.
fn expect_pass(
    rt: &impl Abort,
    kernel: &mut PlainKernel,
    changes: bool,
    out: &mut MemorySink,
) -> Result<(), SinkFailed>
    requires { AreFew 1900000 kernel.old }
    ensures { Draws 16000 kernel.old kernel.new }
{
    let changed = pass(kernel, BUDGET, out)?;
    assert!(rt; changed == changes);
    Ok(())
}

/// Makes one call, and compares what it answers.
fn make(
    rt: &impl Abort,
    kernel: &mut PlainKernel,
    files: &mut MemoryFiles,
    out: &mut MemorySink,
    call: Call,
) -> Result<(), SinkFailed>
    requires { AreFew 1900000 kernel.old }
    ensures { Draws 16000 kernel.old kernel.new }
{
    match call {
        Opens(guest, number) => expect_domain(rt, kernel, files, guest, number),
        Refused(guest, rule) => expect_refusal(rt, kernel, files, guest, rule),
        Starts(guest) => start(kernel, guest, out),
        StartsUntold(guest) => expect_loss(rt, kernel, guest, out),
        OneStep(thread) => turn(kernel, thread, out),
        Steps(thread, steps, changes) => expect_turns(rt, kernel, thread, steps, changes, out),
        Passes(changes) => expect_pass(rt, kernel, changes, out),
        Next(above, thread) => {
            assert!(rt; kernel.next_live(above) == thread, "after thread {above}");
            Ok(())
        }
        Kills(guest) => kill(kernel, guest, out),
    }
}

/// Makes calls one after another.
fn make_all(
    rt: &impl Abort,
    kernel: &mut PlainKernel,
    files: &mut MemoryFiles,
    out: &mut MemorySink,
    calls: &[Call],
) -> Result<(), SinkFailed>
    requires begun { AreFew 1 kernel.old }
    requires few { length calls.now ≤ 100 }
{
    for call in calls {
        make(rt, kernel, files, out, *call)?;
    }
    Ok(())
}

/// More bytes than any class here has.
const LONG: usize = 1 << 20;

/// Puts a class into a folder.
fn add_class(
    rt: &impl Abort,
    alloc: Global,
    files: &mut MemoryFiles,
    path: &str,
    text: &[u8],
) -> Result<(), OutOfMemory> {
    assert!(rt; text.len() < LONG);
    match assemble(alloc, text) {
        Ok(class) => {
            assert!(rt; files.is_addable(path));
            files.add(path, class.as_slice())?;
        }
        Err(_) => assert!(rt; false, "the class has no text that stands for it"),
    }
    Ok(())
}

/// The folders of the guests.
fn folders(rt: &impl Abort, alloc: Global) -> Result<MemoryFiles, OutOfMemory> {
    let mut files = MemoryFiles::new(alloc);
    for (path, text) in [
        ("root/good/Main.class", HELLO),
        ("root/bad/Main.class", RUNAWAY),
        ("root/poor/Main.class", HELLO),
    ] {
        add_class(rt, alloc, &mut files, path, text)?;
    }
    Ok(files)
}

/// A host makes these calls. The lines of these numbers are lost, and the others are these.
fn hosts(
    rt: &impl Abort,
    alloc: Global,
    calls: &[Call],
    lost: &[u32],
    lines: &str,
) -> Result<(), OutOfMemory>
    requires { length calls.now ≤ 100 }
{
    let mut files = folders(rt, alloc)?;
    let mut out = MemorySink::with_room(alloc, 1000, lost)?;
    let mut kernel = Kernel::new(alloc, PlainStore::new(alloc), PlainFrames::new(alloc))?;
    let went = make_all(rt, &mut kernel, &mut files, &mut out, calls);
    assert!(rt; went.is_ok());
    assert!(rt; out.bytes() == lines.as_bytes());
    Ok(())
}

#[test]
fn a_guest_that_runs_for_ever_is_ended(rt: HostRuntime) -> Result<(), Fail> {
    hosts(
        &rt,
        rt.alloc(),
        &[
            Opens(Bad, 0),
            Opens(Good, 1),
            // Its name is that of a live domain.
            Refused(Good, Rule::L1),
            Refused(Absent, Rule::L2),
            Starts(Bad),
            Starts(Good),
            Next(0, Some(1)),
            Next(1, Some(2)),
            Next(2, None),
            Passes(true),
            Next(0, Some(1)),
            Next(1, None),
            Passes(true),
            Kills(Bad),
            Next(0, None),
            Passes(false),
            Steps(1, 1000, false),
            Kills(Bad),
            Starts(Bad),
            // The name is free, and the domain behind it is another one.
            Opens(Bad, 2),
        ],
        &[],
        "\
* thread 1 started in bad
* thread 2 started in good
good: Hello
* thread 2 ended
* domain bad killed
* thread 1 ended by kill
* kill bad refused K1
* start bad refused S1
",
    )?;
    Ok(())
}

#[test]
fn turns_tell_whether_a_thread_rests(rt: HostRuntime) -> Result<(), Fail> {
    hosts(
        &rt,
        rt.alloc(),
        &[
            Opens(Good, 0),
            Opens(Poor, 1),
            Starts(Good),
            Starts(Good),
            Starts(Poor),
            // The first thread initialises the class, for which the second waits.
            OneStep(1),
            Steps(2, 1000, false),
            Steps(1, 1, true),
            Steps(3, 4, true),
            // One step is left, and then none.
            Steps(3, 4, true),
            Steps(3, 4, false),
            Passes(true),
            // Both have ended, and the fourth was never started.
            Steps(1, 1000, false),
            Steps(2, 1000, false),
            Steps(4, 1000, false),
            Next(0, Some(3)),
            Passes(false),
            Kills(Poor),
            Next(0, None),
        ],
        &[],
        "\
* thread 1 started in good
* thread 2 started in good
* thread 3 started in poor
good: Hello
* thread 1 ended
good: Hello
* thread 2 ended
* domain poor killed
* thread 3 ended by kill
",
    )?;
    Ok(())
}

#[test]
fn what_a_lost_line_tells_has_happened(rt: HostRuntime) -> Result<(), Fail> {
    hosts(
        &rt,
        rt.alloc(),
        &[
            Opens(Good, 0),
            StartsUntold(Good),
            Next(0, Some(1)),
            Passes(true),
            Next(0, None),
            Passes(false),
        ],
        &[1],
        "\
good: Hello
* thread 1 ended
",
    )?;
    Ok(())
}
