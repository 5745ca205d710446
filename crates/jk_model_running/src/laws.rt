//! What the definitions in `specs/` say by themselves. The function has no body: it stands for its clause.

ghost use Rattle.std.specs.Prelude.{◌≡◌};
ghost use Rattle.jk_model.specs.declared.identifiers.ThreadNo.{ThreadNo};
ghost use Rattle.jk_model_heaps.specs.Workings.{Run, Setting};
ghost use Rattle.jk_model_running.specs.LocalSteps.{LocalStep};
ghost use Rattle.jk_model_running.specs.StepCases.{case_of};
ghost use Rattle.jk_model_running.specs.Ways.{Went};

/// Two steps of one segment in one state are of one case, whatever they choose: the conditions of the cases exclude one another as they are
/// written.
pub fn cases_of_steps_exclude_one_another()
    ensures { (x : Setting) (t : ThreadNo) (old new other : Run) (went another : Went)
        → (a : LocalStep x t old new went) (b : LocalStep x t old other another) → case_of a ≡ case_of b }
{}
