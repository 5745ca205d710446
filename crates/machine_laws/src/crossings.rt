//! The laws. The functions have no bodies: each stands for its clause.

ghost use Rattle.machine_laws.specs.KeptWorlds.{StepsDrawNumbers, StepsKeepWorlds};
ghost use Rattle.machine_laws.specs.SealedCrossings.{AnswersStaySealed, CallsStaySealed, EndsStaySealed, RaisesStaySealed, RequestsStaySealed, ThrowablesStaySealed};

/// No step and no end of a domain changes the pools, the classes, what domains are opened with, or the number of the next thread.
pub fn steps_keep_worlds()
    ensures { StepsKeepWorlds }
{}

/// A step draws one number of a segment where it enters another domain, and none elsewhere.
pub fn steps_draw_numbers()
    ensures { StepsDrawNumbers }
{}

/// Where a throwable has left the top segment of a thread, the machine is sealed after its way down, and calls are answered.
pub fn throwables_stay_sealed()
    ensures { ThrowablesStaySealed }
{}

/// Where something is raised in the segment at the top of a thread, whose top frame may have made a call, the machine is sealed after it, and
/// calls stay answered.
pub fn raises_stay_sealed()
    ensures { RaisesStaySealed }
{}

/// Where the lowest frame of the segment at the top of a thread has returned, the machine is sealed with its answer in the segment below, and calls
/// are answered.
pub fn answers_stay_sealed()
    ensures { AnswersStaySealed }
{}

/// Where a domain ends, the machine is sealed, and calls stay answered.
pub fn ends_stay_sealed()
    ensures { EndsStaySealed }
{}

/// Where a call through a capability enters the domain of the capability's owner, the machine is sealed after it, and calls are answered.
pub fn calls_stay_sealed()
    ensures { CallsStaySealed }
{}

/// Where what a program asks of package jk is done, or its answer taken, the machine is sealed as it was: but for the thread that asks, and also
/// there once that thread has the answer.
pub fn requests_stay_sealed()
    ensures { RequestsStaySealed }
{}
