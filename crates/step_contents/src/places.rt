//! Where a frame stands.

ghost use Rattle.std.specs.Option.{option_map};
ghost use Rattle.step_contents.specs.StandingFrames.{IsPlaceOf, place_of};

use class_table::ClassTable;
use jk_model::{FrameHead, Instr};
use type_rows::CodeView;

/// The instruction at which a frame stands, with the frame's head and what its method's code is judged in.
#[derive(Clone, Copy)]
pub struct StandsAt<'a> {
    pub head: FrameHead,
    pub code: CodeView<'a>,
    pub instr: &'a Instr,
}

/// Where a frame with this head stands; none where it has no code, or no instruction at its place.
pub fn stands_at<'a>(t: &'a ClassTable, head: &FrameHead) -> Option<StandsAt<'a>>
    ensures { IsPlaceOf t.now head.now (option_map place_of result) }
{
    let Some(m) = head.method else {
        return None;
    };
    let Some(code) = CodeView::of(t, m) else {
        return None;
    };
    match code.code.instrs.get(head.at as usize) {
        Some(instr) => Some(StandsAt {
            head: *head,
            code,
            instr,
        }),
        None => None,
    }
}
