//! The kernel's calls as a host makes them, each with how many numbers it draws at most.

ghost use Rattle.std.specs.Prelude.{◌≤◌};
ghost use Rattle.host_check.specs.DrawnNumbers.{AreFew, Draws};

use crate::guests::Guest;
use frame_store::PlainFrames;
use jk_kernel::{AddAnswer, Kernel};
use jk_model::{DomainId, Quotas};
use jk_outside::{MemoryFiles, MemorySink, SinkFailed};
use plain_store::PlainStore;

/// A kernel over objects and frames in vectors.
pub(crate) type PlainKernel = Kernel<PlainStore, PlainFrames>;

/// Opens the folder of a guest as a domain.
pub(crate) fn open_folder(
    kernel: &mut PlainKernel,
    files: &mut MemoryFiles,
    guest: Guest,
) -> Result<DomainId, AddAnswer>
    ensures { Draws 1000 kernel.old kernel.new }
{
    let quotas = Quotas {
        heap: 65536,
        chunks: 8,
        caps: 0,
        threads: 2,
        names: 0,
        steps: guest.steps(),
    };
    kernel.add_domain(files, "root", guest.name(), quotas)
}

/// Starts a thread of a guest.
pub(crate) fn start(
    kernel: &mut PlainKernel,
    guest: Guest,
    out: &mut MemorySink,
) -> Result<(), SinkFailed>
    requires { AreFew 2000000 kernel.old }
    ensures { Draws 1000 kernel.old kernel.new }
{
    kernel.start(guest.name().as_bytes(), b"Main", &[], out)
}

/// One step of a thread.
pub(crate) fn turn(
    kernel: &mut PlainKernel,
    thread: u32,
    out: &mut MemorySink,
) -> Result<(), SinkFailed>
    requires { AreFew 2000000 kernel.old }
    ensures { Draws 1000 kernel.old kernel.new }
{
    kernel.turn(thread, out)
}

/// So many steps of a thread.
pub(crate) fn turns(
    kernel: &mut PlainKernel,
    thread: u32,
    steps: u32,
    out: &mut MemorySink,
) -> Result<bool, SinkFailed>
    requires budget { steps ≤ 1000 }
    requires few { AreFew 2000000 kernel.old }
    ensures { Draws 1000 kernel.old kernel.new }
{
    kernel.turns(thread, steps, out)
}

/// Ends the domain of a guest.
pub(crate) fn kill(
    kernel: &mut PlainKernel,
    guest: Guest,
    out: &mut MemorySink,
) -> Result<(), SinkFailed>
    ensures { Draws 1000 kernel.old kernel.new }
{
    kernel.kill(guest.name().as_bytes(), out)
}

/// How many threads a pass serves at most.
const THREADS: u32 = 16;

/// Gives each live thread so many steps, in the order of their numbers, and says whether any of them changed something.
pub(crate) fn pass(
    kernel: &mut PlainKernel,
    steps: u32,
    out: &mut MemorySink,
) -> Result<bool, SinkFailed>
    requires budget { steps ≤ 1000 }
    requires few { AreFew 1900000 kernel.old }
    ensures { Draws 16000 kernel.old kernel.new }
{
    let mut changed = false;
    let mut above = 0;
    let mut served = 0;
    while served < THREADS {
        let Some(thread) = kernel.next_live(above) else {
            return Ok(changed);
        };
        changed |= turns(kernel, thread, steps, out)?;
        above = thread;
        served += 1;
    }
    Ok(changed)
}
