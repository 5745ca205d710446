//! The laws. The functions have no bodies: each stands for its clause.

ghost use Rattle.machine_laws.specs.ConfinedSteps.{StepsAreConfined};

use row_laws::heap_rows::heap_rows_keep;

/// What a step changes outside of the domain in which its thread runs is what its deed says: another domain that is called gets objects, one to which
/// an answer or a throwable comes gets objects and may lose initialisers, flags of the domain's own segments are set or cleared on any thread, and with
/// the end of the domain its segments and names go.
pub fn steps_are_confined()
    ensures { StepsAreConfined }
{
    heap_rows_keep();
}
