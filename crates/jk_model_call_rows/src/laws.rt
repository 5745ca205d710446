//! What the definitions in `specs/` say by themselves: what a call comes to is determined, and no two cases of a definition hold at once.
//! The functions have no bodies: each stands for its clauses.

ghost use Rattle.std.specs.Prelude.{◌≡◌, List, Option};
ghost use Rattle.jk_model.specs.declared.identifiers.ClassId.{ClassId};
ghost use Rattle.jk_model.specs.declared.identifiers.MemberId.{MemberId};
ghost use Rattle.jk_model.specs.declared.instructions.Instr.{Instr as AnInstr};
ghost use Rattle.jk_model.specs.declared.values.Value.{Value};
ghost use Rattle.jk_model_classes.specs.declared.records.ClassRecord.{ClassRecord};
ghost use Rattle.jk_model_classes.specs.declared.records.MethodRecord.{MethodRecord};
ghost use Rattle.jk_model_classes.specs.Lookups.{Selects};
ghost use Rattle.jk_model_typing.specs.Scopes.{CodeScope};
ghost use Rattle.jk_model_domains.specs.Objects.{NamedObject};
ghost use Rattle.jk_model_heaps.specs.Workings.{Outcome, Setting, Working};
ghost use Rattle.jk_model_call_rows.specs.CallRows.{CallRow, CallsSystem, MethodCall};
ghost use Rattle.jk_model_call_rows.specs.Targets.{InterfaceTarget, PublicTarget, SelectedTarget, SpecialTarget, Target, VirtualTarget};

/// One method is selected at a class, or none is; so what is selected there is run, or it fails, and never both.
pub fn one_method_is_selected()
    ensures method { (classes : List ClassRecord) (receiver : ClassId) (m : MemberId) (selected other : Option MemberId)
        → Selects classes receiver m selected → Selects classes receiver m other → selected ≡ other }
    ensures target { (classes : List ClassRecord) (receiver : ClassId) (m : MemberId) (target other : Target)
        → SelectedTarget classes receiver m target → SelectedTarget classes receiver m other → target ≡ other }
    ensures public { (classes : List ClassRecord) (receiver : ClassId) (m : MemberId) (target other : Target)
        → PublicTarget classes receiver m target → PublicTarget classes receiver m other → target ≡ other }
{}

/// Each instruction of call comes to one target, by the receiver or by the running class.
pub fn targets_are_determined()
    ensures selected_at_receiver { (classes : List ClassRecord) (heap : List NamedObject) (receiver : Value) (m : MemberId) (target other : Target)
        → VirtualTarget classes heap receiver m target → VirtualTarget classes heap receiver m other → target ≡ other }
    ensures named_or_above { (classes : List ClassRecord) (self : ClassId) (m : MemberId) (method : MethodRecord) (target other : Target)
        → SpecialTarget classes self m method target → SpecialTarget classes self m method other → target ≡ other }
    ensures of_interface { (classes : List ClassRecord) (heap : List NamedObject) (receiver : Value) (m : MemberId) (target other : Target)
        → InterfaceTarget classes heap receiver m target → InterfaceTarget classes heap receiver m other → target ≡ other }
{}

/// What a call is given and what it comes to are determined, and so are the frame that it leaves and what is done next. A call of a method
/// of the system is none of a method with code, none that fails and none through a capability.
pub fn call_rows_are_determined()
    ensures given { (x : Setting) (s : CodeScope) (i : AnInstr) (w : Working) (call other : MethodCall x s i w) → call.given ≡ other.given }
    ensures target { (x : Setting) (s : CodeScope) (i : AnInstr) (w : Working) (call other : MethodCall x s i w) → call.target ≡ other.target }
    ensures row { (x : Setting) (s : CodeScope) (i : AnInstr) (w new other : Working) (outcome another : Outcome)
        → CallRow x s i w new outcome → CallRow x s i w other another → (new ≡ other) × (outcome ≡ another) }
    ensures no_system { (x : Setting) (s : CodeScope) (i : AnInstr) (w new : Working) (outcome : Outcome)
        → CallRow x s i w new outcome → ¬ CallsSystem x s i w }
{}
