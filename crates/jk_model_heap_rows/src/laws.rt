//! What the definitions in `specs/` say by themselves. The functions have no bodies: each stands for its clauses.

ghost use Rattle.std.specs.Prelude.{◌≡◌, ℕ, List};
ghost use Rattle.jk_model.specs.declared.instructions.Instr.{Instr as AnInstr};
ghost use Rattle.jk_model.specs.declared.steps.Raise.{Raise};
ghost use Rattle.jk_model_classes.specs.declared.records.ClassRecord.{ClassRecord};
ghost use Rattle.jk_model_classes.specs.declared.records.TypeRef.{TypeRef};
ghost use Rattle.jk_model_typing.specs.Scopes.{CodeScope};
ghost use Rattle.jk_model_heaps.specs.Heaps.{heap_words};
ghost use Rattle.jk_model_heaps.specs.Workings.{Outcome, Raises, Setting, Working};
ghost use Rattle.jk_model_heap_rows.specs.ArrayTrees.{IsTree, Made, tree_words};
ghost use Rattle.jk_model_heap_rows.specs.HeapRows.{HeapRow};

/// What is made by counts costs what the counts say, whatever names it has. So arrays of arrays are made exactly where they fit.
pub fn trees_cost_their_words()
    ensures { (classes : List ClassRecord) (t : TypeRef) (counts : List ℕ) (tree : Made) → IsTree t counts tree
        → heap_words classes tree.objects ≡ tree_words t counts }
{}

/// What is done after an instruction on objects is determined, whatever names new objects have: of two cases one of which raises, never both hold.
/// And where an instruction raises, frame and inside are as they were.
pub fn what_follows_is_determined()
    ensures one { (x : Setting) (s : CodeScope) (i : AnInstr) (w new other : Working) (outcome another : Outcome)
        → HeapRow x s i w new outcome → HeapRow x s i w other another → outcome ≡ another }
    ensures raises { (x : Setting) (s : CodeScope) (i : AnInstr) (w new : Working) (raise : Raise)
        → HeapRow x s i w new (Raises raise) → new ≡ w }
{}
