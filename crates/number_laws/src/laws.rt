//! What the rows of instructions on numbers say of frames. The functions have no bodies: each stands for its clauses.

ghost use Rattle.std.specs.Prelude.{◌≡◌, ℕ, List, None, Some, pos};
ghost use Rattle.jk_model.specs.declared.instructions.Instr.{Instr as AnInstr};
ghost use Rattle.jk_model.specs.declared.steps.After.TheVariants as Next;
ghost use Rattle.jk_model.specs.declared.values.Value.{Value as AValue};
ghost use Rattle.jk_model_classes.specs.Classes.{AreOrdered};
ghost use Rattle.jk_model_typing.specs.declared.frames.FrameType.{FrameType as AType};
ghost use Rattle.jk_model_typing.specs.Scopes.{CodeScope};
ghost use Rattle.jk_model_typing.specs.Typing.{GoesOnAt};
ghost use Rattle.jk_model_frames.specs.Frames.{FrameState};
ghost use Rattle.jk_model_domains.specs.NumberRows.{NumberRow};
ghost use Rattle.jk_model_domains.specs.Objects.{NamedObject};
ghost use Rattle.jk_model_domains.specs.ValueTypes.{FrameHolds};
ghost use Rattle.number_laws.specs.FrameLaws.{FitsResult, IsTyped};

/// Where a frame goes on after an instruction on numbers, it holds values of the types that typing leaves, and it goes on
/// where the instruction may.
pub fn rows_keep_types()
    ensures { (s : CodeScope) (heap : List NamedObject) (place : ℕ) (i : AnInstr) (f g : FrameState) (before after : AType) (next : ℕ)
        → IsTyped s heap place i f before after → NumberRow s place i f g (Next.Goto next)
        → FrameHolds s heap g after × GoesOnAt place i (pos next) }
{}

/// A value is returned only where it fits what the method answers, and none only where the method answers nothing.
pub fn returned_values_fit()
    ensures value { (s : CodeScope) (heap : List NamedObject) (place : ℕ) (i : AnInstr) (f g : FrameState) (before after : AType) (v : AValue)
        → AreOrdered s.classes → IsTyped s heap place i f before after → NumberRow s place i f g (Next.Return (Some v)) → FitsResult s heap v }
    ensures nothing { (s : CodeScope) (heap : List NamedObject) (place : ℕ) (i : AnInstr) (f g : FrameState) (before after : AType)
        → IsTyped s heap place i f before after → NumberRow s place i f g (Next.Return None) → s.method.result ≡ None }
{}
