//! The laws. The functions have no bodies: each stands for its clause.

ghost use Rattle.kernel_turns.specs.SteppedParts.{ActsAreSteps, RaisesAreSteps};

use machine_laws::machines::steps_stay_known;
use row_laws::heap_rows::heap_rows_keep;
use row_laws::running::local_steps_keep;

/// Where a thread's top segment acted over the contents of the stores, and what follows of its thread is done, that is a step of the
/// machine, and the parts are sound after it.
pub fn acts_are_steps()
    ensures { ActsAreSteps }
{
    local_steps_keep();
    heap_rows_keep();
    steps_stay_known();
}

/// So it is where something was pending and was raised.
pub fn raises_are_steps()
    ensures { RaisesAreSteps }
{
    steps_stay_known();
}
