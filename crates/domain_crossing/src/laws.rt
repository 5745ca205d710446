//! Laws of the halves of a crossing, and of copies in it. The functions have no bodies: each stands for its clause.

ghost use Rattle.domain_crossing.specs.CopiesAndPassages.{AnswersArePassages, CopiesArePassages, CrossingsMayCopy};
ghost use Rattle.domain_crossing.specs.Crossings.{HalvesMakeReturns, HalvesMakeThrows};
ghost use Rattle.domain_crossing.specs.EnteredParts.{EntersChangeMachines, SealedAreApart};
ghost use Rattle.domain_crossing.specs.LeftParts.{LeavesChangeMachines};

/// A segment that is left by a return, and what is raised below after it, are together a case of `Returns`.
pub fn halves_make_returns()
    ensures { HalvesMakeReturns }
{}

/// A segment that a throwable leaves, and what is raised below after it, are together a case of `Throws`.
pub fn halves_make_throws()
    ensures { HalvesMakeThrows }
{}

/// Where a crossing may be made, known values of a live domain may be copied to another, or to itself.
pub fn crossings_may_copy()
    ensures { CrossingsMayCopy }
{}

/// The answers of a copy are the three ways in which a passage may go.
pub fn answers_are_passages()
    ensures { AnswersArePassages }
{}

/// What a copy makes is the passage.
pub fn copies_are_passages()
    ensures { CopiesArePassages }
{}

/// Segments of a sealed machine have different numbers, and so have its threads.
pub fn sealed_are_apart()
    ensures { SealedAreApart }
{}

/// Where the parts change as they do at a call that enters, the call has entered in the machine.
pub fn enters_change_machines()
    ensures { EntersChangeMachines }
{}

/// Where the parts change as they do when a segment is left and its caller goes on, the machine does so.
pub fn leaves_change_machines()
    ensures { LeavesChangeMachines }
{}
