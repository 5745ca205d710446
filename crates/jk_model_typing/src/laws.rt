//! What the definitions in `specs/` say by themselves. The functions have no bodies: each stands for its clauses.

ghost use Rattle.std.specs.Prelude.{◌≡◌, ℕ, List, Option, Some, codes, map, slice_get};
ghost use Rattle.jk_model.specs.declared.identifiers.MemberId.{MemberId};
ghost use Rattle.jk_model.specs.SystemTable.{system_classes};
ghost use Rattle.jk_model_classes.specs.declared.records.ClassRecord.{ClassRecord};
ghost use Rattle.jk_model_typing.specs.declared.frames.FrameType.{FrameType as AFrame};
ghost use Rattle.std.specs.List.{range_with_len};
ghost use Rattle.jk_model_typing.specs.FrameTypes.{FrameFits, STRING, THROWABLE};
ghost use Rattle.jk_model_typing.specs.Groups.{has_group, is_decoded};
ghost use Rattle.jk_model_typing.specs.Typing.{FrameAt, IsLeastTyping};

/// Exactly the opcodes that decoding gives have a row in the table of instructions.
pub fn no_instruction_is_left_out()
    ensures { map has_group (range_with_len 0 256) ≡ map is_decoded (range_with_len 0 256) }
{}

/// The two system classes that instructions name by themselves stand at these places of the system table.
pub fn classes_of_the_system()
    ensures string { slice_get (map (λ e. e.name) system_classes) STRING.0 ≡ Some (codes "java/lang/String") }
    ensures throwable { slice_get (map (λ e. e.name) system_classes) THROWABLE.0 ≡ Some (codes "java/lang/Throwable") }
{}

/// Two least typings of a method have frames at the same places, and each fits the other's.
pub fn one_least_typing()
    ensures { (classes : List ClassRecord) (m : MemberId) (a b : List (Option AFrame)) (place : ℕ) (f : AFrame)
        → IsLeastTyping classes m a → IsLeastTyping classes m b → FrameAt a place f
        → (g : AFrame) × FrameAt b place g × FrameFits classes f g }
{}
