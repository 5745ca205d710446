//! The laws. The functions have no bodies: each stands for its clauses.

ghost use Rattle.row_laws.specs.GivenByMeaning.{GivenHasRow, GivenIsByMeaning};
ghost use Rattle.row_laws.specs.KeptByMeaning.{RowsKeepByMeaning};
ghost use Rattle.row_laws.specs.SystemRowLaws.{SystemOperandsAreFound, SystemRowsAreThere, SystemRowsKeep};

/// A method of the system has a meaning, and what begins it is as the meaning asks; and where that is so there is a row of it.
pub fn given_is_by_meaning()
    ensures given { GivenIsByMeaning }
    ensures row { GivenHasRow }
{}

/// Each row of a method of the system that a running frame calls keeps its domain's inside sealed, and what it leaves fits what is done
/// next.
pub fn rows_keep_by_meaning()
    ensures { RowsKeepByMeaning }
{}

/// Wherever a running frame calls a method of the system, the method has a meaning and is given what the meaning asks; there is a row;
/// and each row keeps what is kept.
pub fn system_rows_are_there()
    ensures operands { SystemOperandsAreFound }
    ensures rows { SystemRowsAreThere }
    ensures keep { SystemRowsKeep }
{}
