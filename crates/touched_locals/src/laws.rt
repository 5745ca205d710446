//! What holds of codes over some of their locals, by the definitions alone. The function has no body: it stands for its clauses.

ghost use Rattle.std.specs.Prelude.{Bool, List, Option};
ghost use Rattle.jk_model_classes.specs.declared.records.LinkedCode.{LinkedCode as ACode};
ghost use Rattle.jk_model_typing.specs.declared.frames.FrameType.{FrameType as AFrame};
ghost use Rattle.jk_model_typing.specs.Scopes.{CodeScope};
ghost use Rattle.touched_locals.specs.Narrowing.{IsNarrowed, wide_frames, with_code};
ghost use Rattle.touched_locals.specs.TypingsIn.{IsLeastTypingIn, IsTypingIn};

/// A typing of a code over its kept locals is one of the whole code, with nothing that could be used in the others; the least one is
/// the least. A code with a typing has one over its kept locals.
pub fn codes_are_typed_by_kept_locals()
    ensures wide { (s : CodeScope) (marks : List Bool) (narrow : ACode) (frames : List (Option AFrame)) → IsNarrowed s marks narrow
        → IsTypingIn (with_code s narrow) frames → IsTypingIn s (wide_frames marks frames) }
    ensures least { (s : CodeScope) (marks : List Bool) (narrow : ACode) (frames : List (Option AFrame)) → IsNarrowed s marks narrow
        → IsLeastTypingIn (with_code s narrow) frames → IsLeastTypingIn s (wide_frames marks frames) }
    ensures narrow { (s : CodeScope) (marks : List Bool) (narrow : ACode) (frames : List (Option AFrame)) → IsNarrowed s marks narrow
        → IsTypingIn s frames → (kept : List (Option AFrame)) × IsTypingIn (with_code s narrow) kept }
{}
