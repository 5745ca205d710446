//! The laws. The functions have no bodies but for one, which calls the law on which it rests: each stands for its clauses.

ghost use Rattle.row_laws.specs.HeapRowLaws.{HeapOperandsAreFound, HeapRowsAreOfHeaps, HeapRowsAreThere, HeapRowsKeep, OperandsGiveRows};
ghost use Rattle.row_laws.specs.NewTrees.{FittingTreesAreMade};
ghost use Rattle.row_laws.specs.ObjectFields.{ObjectsHaveTheirFields};

use jk_model_heaps::laws::fields_stand_in_one_order;

/// Where an instruction on objects finds its operands there is a row of it.
pub fn operands_give_rows()
    ensures { OperandsGiveRows }
{}

/// Arrays of arrays that fit can be made.
pub fn fitting_trees_are_made()
    ensures { FittingTreesAreMade }
{}

/// Objects have the fields of their class and of those above it.
pub fn objects_have_their_fields()
    ensures { ObjectsHaveTheirFields }
{}

/// An instruction on objects finds its operands where a frame runs, and so there is a row of it.
pub fn heap_rows_are_there()
    ensures operands { HeapOperandsAreFound }
    ensures rows { HeapRowsAreThere }
    ensures no_others { HeapRowsAreOfHeaps }
{}

/// Each row of an instruction on objects keeps what is kept, and what it leaves fits.
pub fn heap_rows_keep()
    ensures { HeapRowsKeep }
{
    fields_stand_in_one_order();
}
