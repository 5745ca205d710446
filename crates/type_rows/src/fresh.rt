//! Fresh objects: `new`, calls of constructors, and the end of a constructor.

ghost use Rattle.std.specs.Prelude.{◌≡◌, ℕ, ◌↔◌, Bool, Contains, false, IfOk, IsTrue, if◌then◌else◌};
ghost use Rattle.jk_model_classes.specs.Members.{INIT as THE_INIT};
ghost use Rattle.jk_model_typing.specs.declared.frames.VType.{VType as AType};
ghost use Rattle.jk_model_typing.specs.FrameTypes.{IsFrameOf};
ghost use Rattle.jk_model_typing.specs.Groups.{Constructs, Makes};
ghost use Rattle.jk_model_typing.specs.Rows.{IsOwnOrParent, MakesAt, MayConstruct, replaced};
ghost use Rattle.jk_model_typing.specs.Scopes.{is_init};
ghost use Rattle.type_rows.specs.CodeViews.{scope_of};
ghost use Rattle.type_rows.specs.Shapes.{argument_demands};
ghost use Rattle.type_rows.specs.Steps.{IsConstructed, IsDone};

use crate::code_view::CodeView;
use crate::demands::is_guarded;
use crate::entries::push;
use crate::operands::names_class;
use crate::shapes::Demands;
use crate::stacks::{is_stack_of, pop, take};
use jk_model::opcodes::NEW;
use jk_model::{ClassId, List, MemberId, OutOfMemory};
use jk_model_classes::{Member, MethodRecord, TypeRef};
use jk_model_typing::{FrameType, VType};
use type_frames::of_class;

/// The units of `<init>`.
const INIT: [u16; 6] = [60, 105, 110, 105, 116, 62];

/// Whether a method is a constructor.
pub(crate) fn is_init(method: &MethodRecord) -> bool
    ensures flag { result ≡ is_init method.now }
    ensures name { IsTrue result ↔ (method.now.name ≡ THE_INIT) }
{
    method.name.is(&INIT)
}

/// What a type becomes where one takes the place of another.
fn changed(v: VType, old: VType, new: VType) -> VType
    ensures { (test : AType → Bool) → ((w : AType) → IsTrue (test w) ↔ (w ≡ old)) → result ≡ (if test v then new else v) }
{
    if v == old { new } else { v }
}

/// Puts a type in the place of another.
fn replace_all(vs: &mut List<VType>, old: VType, new: VType)
    ensures { (test : AType → Bool) → ((w : AType) → IsTrue (test w) ↔ (w ≡ old)) → vs.new ≡ replaced test new vs.old }
{
    for k in 0..vs.len() {
        let v = vs.as_slice()[k];
        vs.replace(k, changed(v, old, new));
    }
}

/// Whether an entry is of this type.
fn is_on(stack: &List<VType>, v: VType) -> bool
    ensures { IsTrue result ↔ Contains stack.now v }
{
    stack.as_slice().contains(&v)
}

/// Pushes a fresh object. Those that the same instruction made before can't be used any more.
pub(crate) fn make(
    view: &CodeView<'_>,
    place: u32,
    frame: &mut FrameType,
) -> Result<bool, OutOfMemory>
    requires { IsFrameOf (scope_of view.now).code frame.old }
    ensures { IfOk result (λ yes. IsDone (scope_of view.now) place Makes frame.old yes frame.new) }
{
    let made = VType::Fresh(place);
    if is_on(&frame.stack, made) {
        return Ok(false);
    }
    replace_all(&mut frame.locals, made, VType::Unusable);
    push(view.code, made, &mut frame.stack)
}

/// A call of a constructor: of a class, the one found, with parameters of these types.
#[derive(Clone, Copy)]
pub(crate) struct ConstructorCall<'a> {
    pub(crate) class: ClassId,
    pub(crate) member: MemberId,
    pub(crate) params: &'a [TypeRef],
}

/// Calls a constructor: its receiver is an object of the class from now on, wherever it stands.
pub(crate) fn construct(
    view: &CodeView<'_>,
    call: &ConstructorCall<'_>,
    frame: &mut FrameType,
) -> bool
    requires { IsFrameOf (scope_of view.now).code frame.old }
    ensures { (place : ℕ) → IsDone (scope_of view.now) place
        (Constructs call.now.class call.now.member (argument_demands (scope_of view.now) call.now.params.now)) frame.old result frame.new }
{
    if !take(view, &Demands::Arguments(call.params), &mut frame.stack) {
        return false;
    }
    match pop(&mut frame.stack) {
        Some(receiver) => construct_at(view, call, receiver, frame),
        None => false,
    }
}

/// Calls a constructor at a receiver, which was taken.
fn construct_at(
    view: &CodeView<'_>,
    call: &ConstructorCall<'_>,
    receiver: VType,
    frame: &mut FrameType,
) -> bool
    ensures { IsConstructed (scope_of view.now) call.now.class call.now.member receiver frame.old result frame.new }
{
    match receiver {
        VType::Fresh(made) => construct_object(view, call, made, frame),
        VType::FreshThis => construct_this(view, call, frame),
        _ => false,
    }
}

/// Calls a constructor at the object that a `new` at this place made.
fn construct_object(
    view: &CodeView<'_>,
    call: &ConstructorCall<'_>,
    made: u32,
    frame: &mut FrameType,
) -> bool
    ensures { IsConstructed (scope_of view.now) call.now.class call.now.member (VType.Fresh made) frame.old result frame.new }
{
    if may_be_object(view, call, made) {
        become_object(frame, VType::Fresh(made), of_class(view.table, call.class));
        is_stack_of(view.code, frame.stack.as_slice())
    } else {
        false
    }
}

/// Calls a constructor of the own class or its parent at `this`.
fn construct_this(view: &CodeView<'_>, call: &ConstructorCall<'_>, frame: &mut FrameType) -> bool
    ensures { IsConstructed (scope_of view.now) call.now.class call.now.member VType.FreshThis frame.old result frame.new }
{
    if is_own_or_parent(view, call.class) {
        become_object(frame, VType::FreshThis, of_class(view.table, view.class));
        frame.fresh = false;
        is_stack_of(view.code, frame.stack.as_slice())
    } else {
        false
    }
}

/// Whether the call makes an object of what a `new` at this place made.
fn may_be_object(view: &CodeView<'_>, call: &ConstructorCall<'_>, made: u32) -> bool
    ensures { IsTrue result ↔ (MakesAt (scope_of view.now) made call.now.class × MayConstruct (scope_of view.now) call.now.member) }
{
    makes_at(view, made, call.class) && may_construct(view, call.member)
}

/// Puts an object in the place of a fresh one, wherever it stands.
fn become_object(frame: &mut FrameType, fresh: VType, object: VType)
    ensures { (test : AType → Bool) → ((v : AType) → IsTrue (test v) ↔ (v ≡ fresh))
        → frame.new ≡ record frame.old { locals = replaced test object frame.old.locals; stack = replaced test object frame.old.stack } }
{
    replace_all(&mut frame.locals, fresh, object);
    replace_all(&mut frame.stack, fresh, object);
}

/// Whether the instruction at a place is a `new` of a class.
fn makes_at(view: &CodeView<'_>, place: u32, c: ClassId) -> bool
    ensures { IsTrue result ↔ MakesAt (scope_of view.now) place c }
{
    match view.code.instrs.get(place as usize) {
        Some(i) => i.op == NEW && names_class(view, i, c),
        None => false,
    }
}

/// Whether a constructor may be called at a fresh object: not a protected one of a superclass in another package.
fn may_construct(view: &CodeView<'_>, m: MemberId) -> bool
    ensures { IsTrue result ↔ MayConstruct (scope_of view.now) m }
{
    !is_guarded(view, Member::Method(m))
}

/// Whether it is the method's own class, or the parent.
fn is_own_or_parent(view: &CodeView<'_>, c: ClassId) -> bool
    ensures { IsTrue result ↔ IsOwnOrParent (scope_of view.now) c }
{
    c == view.class
        || match view.table.class(view.class) {
            Some(r) => r.parent == Some(c),
            None => false,
        }
}

/// Whether the method may end without a result: a constructor has called another one.
pub(crate) fn may_leave(view: &CodeView<'_>, frame: &FrameType) -> bool
    ensures { IsTrue result ↔ (IsTrue (is_init (scope_of view.now).method) → frame.now.fresh ≡ false) }
{
    !frame.fresh || !is_init(view.method)
}
