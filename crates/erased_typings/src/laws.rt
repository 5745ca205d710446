//! The laws. The functions have no bodies: each stands for its clauses.

ghost use Rattle.erased_typings.specs.ErasedFrames.{LeastTypingsAreErased, SystemParentsAreClasses};
ghost use Rattle.erased_typings.specs.LeastTypings.{FirstClassesDecide, LeastTypingsStay};

/// No frame of a least typing has an interface in it, where no class has an interface for its parent.
pub fn least_typings_are_erased()
    ensures { LeastTypingsAreErased }
{}

/// No system class has an interface for its parent.
pub fn system_parents_are_classes()
    ensures { SystemParentsAreClasses }
{}

/// The least typing of a method stays the least one with more classes behind, where those that stood mention no other.
pub fn least_typings_stay()
    ensures more { LeastTypingsStay }
    ensures first { FirstClassesDecide }
{}
