//! What holds among classes still holds when more classes are put behind them. The functions have no bodies: each stands for
//! its clauses.

ghost use Rattle.std.specs.Prelude.{ℕ, List, Option};
ghost use Rattle.jk_model.specs.declared.descriptors.MethodType.{MethodType};
ghost use Rattle.jk_model.specs.declared.identifiers.ClassId.{ClassId};
ghost use Rattle.jk_model.specs.declared.identifiers.MemberId.{MemberId};
ghost use Rattle.jk_model_classes.specs.declared.records.FieldRecord.{FieldRecord};
ghost use Rattle.jk_model_classes.specs.declared.records.Member.{Member};
ghost use Rattle.jk_model_classes.specs.declared.records.MethodRecord.{MethodRecord};
ghost use Rattle.jk_model_classes.specs.declared.records.TypeRef.{TypeRef};
ghost use Rattle.jk_model_classes.specs.Classes.{AreOrdered, IsInterface, IsSubclass, Implements, superclasses, with_interfaces, own_interfaces, field_walk, method_walk};
ghost use Rattle.jk_model_classes.specs.Lookups.{FieldIs, MethodIs, FlagsAre, AreInOnePackage, FindsField, FindsMethod, Selects};
ghost use Rattle.jk_model_typing.specs.FrameTypes.{erased, of_type, value_of, RefFits, Fits, EachFits, FrameFits};
ghost use Rattle.jk_model_domains.specs.OwnStates.{IsOwnState, IsFirstState};
ghost use Rattle.jk_model_domains.specs.ValueTypes.{ValueFits, EachValueFits, FrameHolds};
ghost use Rattle.class_growth.specs.ClassesKept.{ClassesStay, RecordsStay, InterfacesStay, FieldsStay, MethodsStay, FlagsStay, PackagesStay, SubclassesStay, IsSameFor, IsKeptFor, FoundFieldsStay, FoundMethodsStay, SelectedMethodsStay, LayoutsStay, CostsStay};
ghost use Rattle.class_growth.specs.DomainsKept.{LiteralsStay, StaysInDomain, StubsStay, TargetsStay};
ghost use Rattle.class_growth.specs.OtherLinks.{GettingLinksChangesLinks, RestsOnNoLinks, RestsOnNoLinksInOrder, HasNoLinksFor};
ghost use Rattle.class_growth.specs.TypesKept.{IsSameForTypes, StillFits, StillHolds, DeclaredStillHolds};
ghost use Rattle.class_growth.specs.TypingsKept.{SystemClassesAreClosed, ClosedClassesStay, ScopesStay, ScopesWereThere, RowsStay, StartsStay, FitsStay, GoingWellStays, TypingsStay};

/// A class that was there keeps its record, its members with their flags, and its package.
pub fn members_stay()
    ensures classes { ClassesStay }
    ensures records { RecordsStay }
    ensures interfaces { InterfacesStay }
    ensures fields { FieldsStay }
    ensures methods { MethodsStay }
    ensures flags { FlagsStay }
    ensures packages { PackagesStay }
{}

/// What stands above a class that was there is as before, and so are the orders in which members are looked for.
pub fn ways_up_stay()
    ensures above { SubclassesStay }
    ensures superclasses { IsSameFor superclasses }
    ensures with_interfaces { IsSameFor with_interfaces }
    ensures own_interfaces { IsSameFor own_interfaces }
    ensures fields { IsSameFor field_walk }
    ensures methods { IsSameFor method_walk }
    ensures subclasses { (d : ClassId) → IsKeptFor (λ all c. IsSubclass all c d) }
    ensures implements { (i : ClassId) → IsKeptFor (λ all c. Implements all c i) }
{}

/// A name and a type find the same member at a class that was there, or still nothing, and a call runs the same method.
pub fn found_members_stay()
    ensures fields { FoundFieldsStay }
    ensures methods { FoundMethodsStay }
    ensures selected { SelectedMethodsStay }
{}

/// An object of a class that was there is made of the same fields, and costs the same.
pub fn layouts_stay()
    ensures layouts { LayoutsStay }
    ensures costs { CostsStay }
{}

/// A type whose class was there has the same values, and whatever type fitted another still does.
pub fn types_stay()
    ensures erased { IsSameForTypes erased }
    ensures references { IsSameForTypes of_type }
    ensures values { IsSameForTypes value_of }
    ensures references_fit { StillFits RefFits }
    ensures fit { StillFits Fits }
    ensures each_fits { StillFits EachFits }
    ensures frames_fit { StillFits FrameFits }
{}

/// Values that fitted types still do, over the same heap.
pub fn values_stay()
    ensures values { StillHolds ValueFits }
    ensures each { StillHolds EachValueFits }
    ensures frames { StillHolds FrameHolds }
    ensures declared { DeclaredStillHolds }
{}

/// The state of a domain whose names mean classes that were there is one still, and its classes lead to the same texts.
pub fn own_states_stay()
    ensures states { StaysInDomain IsOwnState }
    ensures first_states { StaysInDomain IsFirstState }
    ensures literals { LiteralsStay }
{}

/// The stub of a class that was there stays its stub, and each method of it keeps its target.
pub fn stubs_stay()
    ensures stubs { StubsStay }
    ensures targets { TargetsStay }
{}

/// The system classes are closed, and closed classes stay so where the new ones mention only classes that are there.
pub fn closed_classes_stay()
    ensures system { SystemClassesAreClosed }
    ensures more { ClosedClassesStay }
{}

/// A scope of a method's code stays its scope, and of a method of a class that was there it was its scope before.
pub fn scopes_stay()
    ensures still { ScopesStay }
    ensures before { ScopesWereThere }
{}

/// What an instruction may begin with and leave, it may still begin with and leave.
pub fn rows_stay()
    ensures { RowsStay }
{}

/// A typing of a method is one still. That the least one stays the least is a law of `erased_typings`.
pub fn typings_stay()
    ensures starts { StartsStay }
    ensures fits { FitsStay }
    ensures going_well { GoingWellStays }
    ensures typings { TypingsStay }
{}

/// Members and packages don't rest on links, and neither does the order of classes.
pub fn links_leave_members()
    ensures one_class { GettingLinksChangesLinks }
    ensures ordered { RestsOnNoLinks AreOrdered }
    ensures interfaces { (c : ClassId) → RestsOnNoLinks (λ all. IsInterface all c) }
    ensures fields { (m : MemberId) (field : FieldRecord) → RestsOnNoLinks (λ all. FieldIs all m field) }
    ensures methods { (m : MemberId) (method : MethodRecord) → RestsOnNoLinks (λ all. MethodIs all m method) }
    ensures flags { (member : Member) (flags : ℕ) → RestsOnNoLinks (λ all. FlagsAre all member flags) }
    ensures packages { (c d : ClassId) → RestsOnNoLinks (λ all. AreInOnePackage all c d) }
{}

/// What stands above a class doesn't rest on links, and neither does what is found there.
pub fn links_leave_ways_up()
    ensures superclasses { HasNoLinksFor superclasses }
    ensures with_interfaces { HasNoLinksFor with_interfaces }
    ensures own_interfaces { HasNoLinksFor own_interfaces }
    ensures field_walks { HasNoLinksFor field_walk }
    ensures method_walks { HasNoLinksFor method_walk }
    ensures subclasses { (c d : ClassId) → RestsOnNoLinksInOrder (λ all. IsSubclass all c d) }
    ensures implements { (c i : ClassId) → RestsOnNoLinksInOrder (λ all. Implements all c i) }
    ensures fields { (c : ClassId) (name : List ℕ) (kind : TypeRef) (found : Option MemberId)
        → RestsOnNoLinksInOrder (λ all. FindsField all c name kind found) }
    ensures methods { (c : ClassId) (name : List ℕ) (kind : MethodType) (found : Option MemberId)
        → RestsOnNoLinksInOrder (λ all. FindsMethod all c name kind found) }
    ensures selected { (c : ClassId) (m : MemberId) (selected : Option MemberId)
        → RestsOnNoLinksInOrder (λ all. Selects all c m selected) }
{}
