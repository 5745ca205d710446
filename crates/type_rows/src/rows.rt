//! What an instruction makes of a frame.

ghost use Rattle.std.specs.Prelude.{◌≡◌, false, IfOk, IsTrue};
ghost use Rattle.jk_model_typing.specs.declared.frames.FrameType.{FrameType as AFrame};
ghost use Rattle.jk_model_typing.specs.FrameTypes.{IsFrameOf};
ghost use Rattle.jk_model_typing.specs.Rows.{Row};
ghost use Rattle.type_rows.specs.CodeViews.{scope_of};
ghost use Rattle.type_rows.specs.Shapes.{shape_view};
ghost use Rattle.type_rows.specs.Steps.{IsDone};

use crate::code_view::CodeView;
use crate::entries::{copy, drop_slots, exchange, load_element, swap};
use crate::fresh::{ConstructorCall, construct, make, may_leave};
use crate::instructions::shape_of;
use crate::locals::{is_int, load, store};
use crate::shapes::Shape;
use jk_model::{Instr, OutOfMemory};
use jk_model_typing::FrameType;

/// Makes of a frame what the instruction at a place leaves; false where the instruction may not begin with it, or has no
/// room for what it leaves, and then the frame has any value. It costs in proportion to the entries that it takes, with a
/// walk up from the class of each, and at a protected member to the names of two classes. An instruction that pushes an
/// entry looks at the whole stack too, and `new` and a constructor's call at all locals.
pub fn step(
    view: &CodeView<'_>,
    place: u32,
    i: &Instr,
    frame: &mut FrameType,
) -> Result<bool, OutOfMemory>
    requires { IsFrameOf (scope_of view.now).code frame.old }
    ensures holds { IfOk result (λ yes. IsTrue yes → Row (scope_of view.now) place i.now frame.old frame.new) }
    ensures fails { IfOk result (λ yes. yes ≡ false → (after : AFrame) → Row (scope_of view.now) place i.now frame.old after → ⊥) }
{
    match shape_of(view, i) {
        Some(shape) => act(view, place, shape, frame),
        None => Ok(false),
    }
}

/// Makes of a frame what a shape says; false where it says nothing of the frame, or there is no room for what it leaves.
fn act(
    view: &CodeView<'_>,
    place: u32,
    shape: Shape<'_>,
    frame: &mut FrameType,
) -> Result<bool, OutOfMemory>
    requires { IsFrameOf (scope_of view.now).code frame.old }
    ensures { IfOk result (λ yes. IsDone (scope_of view.now) place (shape_view (scope_of view.now) shape.entry) frame.old yes frame.new) }
{
    match shape {
        Shape::Takes(demands, gives) => exchange(view, &demands, gives, frame),
        Shape::Loads(demand, n) => load(view, demand, n, frame),
        Shape::Stores(demand, n) => Ok(store(view, demand, n, frame)),
        Shape::Increments(n) => Ok(is_int(&frame.locals, n)),
        Shape::Drops(n) => Ok(drop_slots(n, frame)),
        Shape::Copies(skipped, copied) => copy(view, skipped, copied, frame),
        Shape::Swaps => swap(frame),
        Shape::LoadsElement => load_element(view, frame),
        Shape::Makes => make(view, place, frame),
        Shape::Constructs(class, member, params) => {
            let call = ConstructorCall {
                class,
                member,
                params,
            };
            Ok(construct(view, &call, frame))
        }
        Shape::Leaves => Ok(may_leave(view, frame)),
    }
}
