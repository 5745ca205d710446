//! The laws. The functions have no bodies but for calls of the laws on which they rest: each stands for its clauses.

ghost use Rattle.row_laws.specs.LocalStepLaws.{AnsweredFramesRunOn, ConstantsAreSetOrLack, ConstantsKeep, LocalStepsAreThere, LocalStepsKeep};
ghost use Rattle.row_laws.specs.NumberRowLaws.{NumberRowsAreThere, NumberRowsKeep};

use crate::heap_rows::heap_rows_keep;

/// An instruction on numbers keeps what is kept, and what it leaves fits.
pub fn number_rows_keep()
    ensures { NumberRowsKeep }
{}

/// An instruction on numbers has a row where a frame runs.
pub fn number_rows_are_there()
    ensures { NumberRowsAreThere }
{}

/// The constant texts of a class are set or don't fit, and where they are set what is kept is kept.
pub fn constants_are_set()
    ensures there { ConstantsAreSetOrLack }
    ensures keep { ConstantsKeep }
{}

/// A segment that acts has a step, unless it must wait for a class that another thread initialises.
pub fn local_steps_are_there()
    ensures { LocalStepsAreThere }
{
    heap_rows_keep();
}

/// Each step of a segment that acts keeps the domain sealed, the frames fitting, and the classes in progress as the frames say; and it uses
/// no more chunks than are free.
pub fn local_steps_keep()
    ensures { LocalStepsKeep }
{
    heap_rows_keep();
}

/// A frame that waits for an answer from outside of its domain goes on with it.
pub fn answered_frames_run_on()
    ensures { AnsweredFramesRunOn }
{
    heap_rows_keep();
}
