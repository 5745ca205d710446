//! The kernel's `rounds`, as a host calls it that has no script.

ghost use Rattle.std.specs.Prelude.{◌≡◌, ◌+◌, ◌≤◌, IfOk};

use frame_store::PlainFrames;
use jk_kernel::Kernel;
use jk_model::{DomainId, OutOfMemory, Quotas};
use jk_outside::{MemoryFiles, MemorySink, SinkFailed};
use jkasm::assemble;
use plain_store::PlainStore;
use std::alloc::Global;
use std::process::Abort;
use std::test::Fail;

/// `Hello`, whose `main` has four instructions.
const HELLO: &[u8] = b"class 0021 Hello java/lang/Object
method 0009 main ([Ljava/lang/String;)V 2 1
        getstatic java/lang/System out Ljava/io/PrintStream;
        ldc_w text \"Hello\"
        invokevirtual java/io/PrintStream println (Ljava/lang/String;)V
        return
end";

/// A kernel over objects and frames in vectors.
type PlainKernel = Kernel<PlainStore, PlainFrames>;

/// What each domain may have here.
const QUOTAS: Quotas = Quotas {
    heap: 65536,
    chunks: 8,
    caps: 0,
    threads: 2,
    names: 0,
    steps: None,
};

/// A tree with one class in a folder.
fn tree(rt: &impl Abort, alloc: Global, path: &str) -> Result<MemoryFiles, OutOfMemory> {
    let mut files = MemoryFiles::new(alloc);
    match assemble(alloc, HELLO) {
        Ok(class) => {
            assert!(rt; files.is_addable(path));
            files.add(path, class.as_slice())?;
        }
        Err(_) => assert!(rt; false, "the class has no text that stands for it"),
    }
    Ok(files)
}

/// A kernel with the domain of this tree.
fn with_domain(
    rt: &impl Abort,
    alloc: Global,
    files: &mut MemoryFiles,
) -> Result<PlainKernel, OutOfMemory>
    ensures thread { IfOk result (λ k. k.next_thread ≡ 1) }
    ensures segment { IfOk result (λ k. k.next_segment ≡ 1) }
{
    let mut kernel = Kernel::new(alloc, PlainStore::new(alloc), PlainFrames::new(alloc))?;
    match kernel.add_domain(files, "root", "a", QUOTAS) {
        Ok(number) => assert!(rt; number == DomainId(0)),
        Err(_) => assert!(rt; false, "the folder is refused"),
    }
    Ok(kernel)
}

/// Starts a thread at `Hello`, which draws a number of a thread and one of a segment at most.
fn begin(kernel: &mut PlainKernel, out: &mut MemorySink) -> Result<(), SinkFailed>
    requires { (kernel.old.next_thread ≤ 100) × (kernel.old.next_segment ≤ 100) }
    ensures thread { kernel.new.next_thread ≤ 1 + kernel.old.next_thread }
    ensures segment { kernel.new.next_segment ≤ 1 + kernel.old.next_segment }
{
    kernel.start(b"a", b"Hello", &[], out)
}

/// Two threads, in two rounds of three steps and then in one of a hundred. The first takes three steps until its `main` begins. By then its
/// class is ready, and so the second has one step for the need that falls. Four instructions follow in each; the third prints.
fn give_rounds(
    rt: &impl Abort,
    kernel: &mut PlainKernel,
    out: &mut MemorySink,
) -> Result<(), SinkFailed>
    requires { (kernel.old.next_thread ≤ 20) × (kernel.old.next_segment ≤ 20) }
{
    begin(kernel, out)?;
    begin(kernel, out)?;
    kernel.rounds(2, 3, out)?;
    assert!(rt;
        out.bytes()
            == b"* thread 1 started in a\n* thread 2 started in a\na: Hello\na: Hello\n* thread 2 ended\n".as_slice()
    );
    assert!(rt; kernel.next_live(0) == Some(1));
    assert!(rt; kernel.next_live(1).is_none());
    kernel.rounds(1, 100, out)
}

#[test]
fn a_host_gives_rounds(rt: HostRuntime) -> Result<(), Fail> {
    let mut files = tree(&rt, rt.alloc(), "root/a/Hello.class")?;
    let mut out = MemorySink::with_room(rt.alloc(), 1000, &[])?;
    let mut kernel = with_domain(&rt, rt.alloc(), &mut files)?;
    give_rounds(&rt, &mut kernel, &mut out)?;
    assert!(rt; kernel.next_live(0).is_none());
    assert!(rt;
        out.bytes()
            == b"* thread 1 started in a\n* thread 2 started in a\na: Hello\na: Hello\n* thread 2 ended\n* thread 1 ended\n".as_slice()
    );
    Ok(())
}
