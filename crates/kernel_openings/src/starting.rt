//! Starts of threads.

ghost use Rattle.std.specs.Prelude.{◌≡◌, ◌+◌, ◌-◌, ◌^◌, ◌<◌, ◌≤◌, ◌∷◌, [], length, IfErr, IfOk};
ghost use Rattle.jk_model.specs.declared.output.Line.TheVariants as Says;
ghost use Rattle.jk_model_frames.specs.Frames.{head_chunks};
ghost use Rattle.jk_model_runs.specs.Starts.{StartWords, Starts};
ghost use Rattle.kernel_openings.specs.FirstFrames.{MayStart};
ghost use Rattle.kernel_openings.specs.StartedThreads.{AreStartWords, told_of};

use crate::answers::Beginning;
use crate::class_names::class_named;
use crate::first_segments::{begin_segment, begin_thread};
use crate::main_methods::main_of;
use crate::start_words::{make_words, words_cost};
use frame_store::FrameStore;
use jk_model::{Bytes, DomainId, FrameHead};
use kernel_parts::KernelParts;
use object_store::ObjectStore;

/// The first frame of a thread, and the domain in which it runs.
#[derive(Clone, Copy)]
struct FirstFrame {
    domain: DomainId,
    head: FrameHead,
}

/// The start of a thread in the live domain of this name, at the public static `main` of this class, with these words. It asks for a
/// class of at most 255 bytes, and for numbers of threads and segments that are left. It takes no memory.
pub fn start<H: ObjectStore + Drop, F: FrameStore + Drop>(
    k: &mut KernelParts<H, F>,
    name: &[u8],
    class: &[u8],
    words: &[Bytes],
) -> Beginning
    requires short { length class.now ≤ 255 }
    requires words { AreStartWords words.now }
    requires numbers { (k.old.next_thread < 2 ^ 31) × (k.old.next_segment < 2 ^ 64 - 1) }
    ensures event { Starts k.old (record { domain = name.now; class = class.now; words = words.now }) (told_of name.now result ∷ []) k.new }
{
    let first = match first_frame(k, name, class, words) {
        Ok(first) => first,
        Err(number) => return Beginning::Refused(number),
    };
    k.shared.is_sound();
    let array = make_words(&mut k.heap, k.world.classes(), first.domain, words);
    let begun = begin_thread(&mut k.shared, first.domain);
    begin_segment(
        &mut k.frames,
        first.domain,
        begun.segment,
        first.head,
        array,
    );
    Beginning::Begun(begun.thread)
}

/// The first frame of a thread that is started, or the number of the first rule that refuses it.
fn first_frame<H: ObjectStore + Drop, F: FrameStore + Drop>(
    k: &KernelParts<H, F>,
    name: &[u8],
    class: &[u8],
    words: &[Bytes],
) -> Result<FirstFrame, u8>
    requires short { length class.now ≤ 255 }
    requires words { AreStartWords words.now }
    ensures first { let start : StartWords = record { domain = name.now; class = class.now; words = words.now } in
        IfOk result (λ first. MayStart k.now start first.domain first.head) }
    ensures refused { let start : StartWords = record { domain = name.now; class = class.now; words = words.now } in
        IfErr result (λ n. Starts k.now start (Says.StartRefused name.now n ∷ []) k.now) }
{
    k.shared.is_sound();
    let Some(domain) = k.world.live_named(name) else {
        return Err(1);
    };
    let Some(class) = class_named(&k.world, domain, class) else {
        return Err(2);
    };
    let Some(head) = main_of(k.world.classes(), class, &k.main_kind) else {
        return Err(3);
    };
    if !k.shared.may_begin(domain) {
        return Err(4);
    }
    if words_cost(words) > u64::from(k.heap.free(domain)) {
        return Err(5);
    }
    // One chunk more is the segment's own.
    if k.frames.free(domain) <= chunks_of(&head) {
        return Err(6);
    }
    Ok(FirstFrame { domain, head })
}

/// How many chunks a frame costs.
fn chunks_of(head: &FrameHead) -> u32
    ensures { result ≡ head_chunks head.now }
{
    (4 + u32::from(head.max_locals) + u32::from(head.max_stack)).div_ceil(20)
}
