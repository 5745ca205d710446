//! What is determined of rows of instructions and of new objects. The functions have no bodies: each stands for its clauses.

ghost use Rattle.std.specs.Prelude.{◌≡◌, ◌≢◌, ℕ, List, None, Some};
ghost use Rattle.jk_model.specs.declared.instructions.Instr.{Instr as AnInstr};
ghost use Rattle.jk_model.specs.declared.steps.After.{After};
ghost use Rattle.jk_model_classes.specs.declared.records.ClassRecord.{ClassRecord};
ghost use Rattle.jk_model_typing.specs.Scopes.{CodeScope};
ghost use Rattle.jk_model_frames.specs.Frames.{FrameState};
ghost use Rattle.jk_model_domains.specs.NumberRows.{NumberRow};
ghost use Rattle.jk_model_domains.specs.Objects.{NamedObject, Object, object_named};
ghost use Rattle.jk_model_heaps.specs.Heaps.{MakesOne};
ghost use Rattle.jk_model_heaps.specs.Workings.{Outcome, Working};
ghost use Rattle.jk_model_heap_rows.specs.ElementRows.{LoadsElement};

/// What an instruction on numbers makes of a frame, and what is done next, is determined.
pub fn number_rows_agree()
    ensures { (s : CodeScope) (place : ℕ) (i : AnInstr) (f g h : FrameState) (after another : After)
        → NumberRow s place i f g after → NumberRow s place i f h another → (g ≡ h) × (after ≡ another) }
{}

/// One object is made twice in one heap, each time under a name of its own. Both heaps have what was there under its old name,
/// each has the new object under its name, and neither has anything else.
pub fn makers_agree()
    ensures old_names { (classes : List ClassRecord) (quota : ℕ) (heap : List NamedObject) (a b : ℕ) (object : Object) (new other : List NamedObject)
        → MakesOne classes quota heap a object new → MakesOne classes quota heap b object other
        → (n : ℕ) (o : Object) → object_named heap n ≡ Some o → (object_named new n ≡ Some o) × (object_named other n ≡ Some o) }
    ensures new_names { (classes : List ClassRecord) (quota : ℕ) (heap : List NamedObject) (a b : ℕ) (object : Object) (new other : List NamedObject)
        → MakesOne classes quota heap a object new → MakesOne classes quota heap b object other
        → (object_named new a ≡ Some object) × (object_named other b ≡ Some object) }
    ensures no_others { (classes : List ClassRecord) (quota : ℕ) (heap : List NamedObject) (a b : ℕ) (object : Object) (new other : List NamedObject)
        → MakesOne classes quota heap a object new → MakesOne classes quota heap b object other
        → (n : ℕ) → object_named heap n ≡ None → (n ≢ a → object_named new n ≡ None) × (n ≢ b → object_named other n ≡ None) }
{}

/// What a load of an element makes of a frame, and what is done next, is determined.
pub fn loads_of_elements_agree()
    ensures { (i : AnInstr) (w new other : Working) (outcome another : Outcome)
        → LoadsElement i w new outcome → LoadsElement i w other another → (new ≡ other) × (outcome ≡ another) }
{}
