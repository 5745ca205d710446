//! The laws. The functions have no bodies: each stands for its clauses.

ghost use Rattle.row_laws.specs.RaisedObjects.{RaisedObjectsAreThere, RaisedObjectsAreThrowables};
ghost use Rattle.row_laws.specs.UnwoundFrames.{CatchersHaveRoom, UnwindingKeeps, UnwindingKeepsAnswers, UnwindingReadsNoStack, WaysAreThere};

/// What is on the stack of a segment's top frame is nothing to its unwinding.
pub fn stacks_are_not_read()
    ensures { UnwindingReadsNoStack }
{}

/// Calls stay answered by what stands above them, where a frame catches.
pub fn calls_stay_answered()
    ensures { UnwindingKeepsAnswers }
{}

/// Where something is raised there is an object, which is a throwable of the domain, and the domain stays sealed.
pub fn raised_objects_are_throwables()
    ensures there { RaisedObjectsAreThere }
    ensures throwables { RaisedObjectsAreThrowables }
{}

/// A throwable has a way through the frames of a segment, and each frame that catches it has room for it.
pub fn ways_are_there()
    ensures ways { WaysAreThere }
    ensures room { CatchersHaveRoom }
{}

/// A segment that is unwound stays sealed with its domain: the frame that catches fits at its handler, over those that stood below it, or
/// what left all frames is a throwable; each class is in progress as its frames say; and no more chunks are used.
pub fn unwound_segments_stay_sealed()
    ensures { UnwindingKeeps }
{}
