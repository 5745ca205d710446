//! The laws. The functions have no bodies: each stands for its clauses.

ghost use Rattle.row_laws.specs.CallRowLaws.{CallRowsAreThere, CallRowsKeep, CalledMethodsAreKnown, CallsAreFound};

/// A call finds the method that is named and what is given, and comes to a method, an error or a call through a capability.
pub fn calls_are_found()
    ensures { CallsAreFound }
{}

/// The domain knows each method that a call runs, which begins with what is given, and each call has a row or is one of a method of the
/// system.
pub fn called_methods_are_known()
    ensures known { CalledMethodsAreKnown }
    ensures rows { CallRowsAreThere }
{}

/// Each row of an instruction of call keeps the domain's inside, and what it leaves fits by what is done next: the frame that is called on
/// top of its caller, what is raised, or a call through a capability.
pub fn call_rows_keep()
    ensures { CallRowsKeep }
{}
