//! The `main` with which a thread begins.

ghost use Rattle.std.specs.Prelude.{◌≡◌, ◌&&◌, MatchOption, codes};
ghost use Rattle.jk_model.specs.Descriptors.{IsMethodText};
ghost use Rattle.jk_model.specs.Flags.{has, PUBLIC, STATIC};
ghost use Rattle.jk_model_machine_state.specs.Machines.{Machine};
ghost use Rattle.kernel_openings.specs.FirstFrames.{BeginsMain, HasNoMain};

use call_ops::call_head;
use class_table::ClassTable;
use jk_model::{AccessFlags, ClassId, FrameHead, MethodType, has};
use member_lookup::find_method;
use type_rows::CodeView;

const MAIN: [u16; 4] = [0x6d, 0x61, 0x69, 0x6e];

/// The head of the frame that begins the public static `main` that is found from a class, and needs the class first. None exactly
/// where there is no such method with code.
pub(crate) fn main_of(t: &ClassTable, class: ClassId, kind: &MethodType) -> Option<FrameHead>
    requires { IsMethodText (codes "([Ljava/lang/String;)V") kind.now }
    ensures { (m : Machine) → m.classes ≡ t.now → MatchOption result (HasNoMain m class) (BeginsMain m class) }
{
    let Some(main) = find_method(t, class, &MAIN, kind) else {
        return None;
    };
    let Some(view) = CodeView::of(t, main) else {
        return None;
    };
    if !is_open(view.method.flags) {
        return None;
    }
    Some(FrameHead {
        need: Some(class),
        ..call_head(main, view.code)
    })
}

/// Whether a method is public and static.
fn is_open(flags: u16) -> bool
    ensures { result ≡ (has flags PUBLIC && has flags STATIC) }
{
    has(flags, AccessFlags::PUBLIC) && has(flags, AccessFlags::STATIC)
}
