//! The frame of a method that is called.

ghost use Rattle.std.specs.Prelude.{◌≡◌, ◌≢◌, ◌≤◌, ℕ};
ghost use Rattle.jk_model.specs.declared.steps.After.TheVariants as Next;
ghost use Rattle.jk_model_heaps.specs.CalledFrames.{call_head};
ghost use Rattle.jk_model_typing.specs.Scopes.{IsScopeOf};
ghost use Rattle.step_contents.specs.StandingFrames.{place_of};
ghost use Rattle.step_contents.specs.StandingTops.{StandsThere};
ghost use Rattle.type_rows.specs.CodeViews.{scope_of};
ghost use Rattle.call_ops.specs.FramesRun.{HasFirst, HasParams, MayRun, Ran};

use class_table::ClassTable;
use frame_store::SegmentFrames;
use jk_model::{After, FrameHead, MemberId, NoChunks, Raise, SegmentNo, Standing};
use jk_model_classes::LinkedCode;
use step_contents::StandsAt;
use type_rows::CodeView;

/// The head of a frame that begins a method with this code.
pub fn call_head(m: MemberId, code: &LinkedCode) -> FrameHead
    ensures { result ≡ call_head m code.now }
{
    FrameHead {
        method: Some(m),
        at: 0,
        need: None,
        initialises: None,
        max_locals: code.max_locals,
        max_stack: code.max_stack,
    }
}

/// Runs a method on the topmost `given` entries of the stack, its receiver among them. A method without code is one of the system.
/// Where the method's frame is on top then, `at` is where it stands; else it is as it was.
#[inline(always)]
pub(crate) fn run<'a, F: SegmentFrames>(
    frames: &mut F,
    t: &'a ClassTable,
    s: SegmentNo,
    m: MemberId,
    given: u16,
    at: &mut StandsAt<'a>,
) -> After
    requires may { MayRun t.now (F.content frames.old) s m given }
    requires first { HasFirst t.now m }
    ensures ran { Ran t.now (F.content frames.old) (F.content frames.new) s m given result }
    ensures stands { (n : ℕ) → result ≡ Next.Goto n → StandsThere (F.content frames.new) t.now s (place_of at.new) }
    ensures stays { ((n : ℕ) → result ≢ Next.Goto n) → at.new ≡ at.old }
{
    match CodeView::of(t, m) {
        Some(code) => begin(frames, t, s, m, code, given, at),
        None => After::Call(m),
    }
}

/// Runs a static method on as many of the topmost entries of the stack as it has parameters. As `run`.
#[inline(always)]
pub(crate) fn run_static<'a, F: SegmentFrames>(
    frames: &mut F,
    t: &'a ClassTable,
    s: SegmentNo,
    m: MemberId,
    at: &mut StandsAt<'a>,
) -> After
    requires may { (n : ℕ) × HasParams t.now m n × (n ≤ 255) × MayRun t.now (F.content frames.old) s m n }
    requires first { HasFirst t.now m }
    ensures ran { (n : ℕ) → HasParams t.now m n → Ran t.now (F.content frames.old) (F.content frames.new) s m n result }
    ensures stands { (n : ℕ) → result ≡ Next.Goto n → StandsThere (F.content frames.new) t.now s (place_of at.new) }
    ensures stays { ((n : ℕ) → result ≢ Next.Goto n) → at.new ≡ at.old }
{
    match CodeView::of(t, m) {
        Some(code) => {
            let given = code.method.params.get().len() as u16;
            begin(frames, t, s, m, code, given, at)
        }
        None => After::Call(m),
    }
}

/// Puts the frame of a method with this code on top, if its chunks fit, and says where it stands.
#[inline(always)]
fn begin<'a, F: SegmentFrames>(
    frames: &mut F,
    t: &'a ClassTable,
    s: SegmentNo,
    m: MemberId,
    code: CodeView<'a>,
    given: u16,
    at: &mut StandsAt<'a>,
) -> After
    requires scope { IsScopeOf t.now m (scope_of code) }
    requires may { MayRun t.now (F.content frames.old) s m given }
    requires first { HasFirst t.now m }
    ensures ran { Ran t.now (F.content frames.old) (F.content frames.new) s m given result }
    ensures stands { (n : ℕ) → result ≡ Next.Goto n → StandsThere (F.content frames.new) t.now s (place_of at.new) }
    ensures stays { ((n : ℕ) → result ≢ Next.Goto n) → at.new ≡ at.old }
{
    let head = call_head(m, code.code);
    let instrs = code.code.instrs.as_slice();
    match frames.call(s, head, given) {
        Ok(()) => {
            *at = StandsAt {
                head,
                code,
                instr: &instrs[0],
            };
            After::Goto(0)
        }
        Err(NoChunks) => After::Raise(Raise::Standing(Standing::StackOverflowError)),
    }
}
