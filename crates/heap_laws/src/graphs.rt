//! The laws. The functions have no bodies: each stands for its clause.

ghost use Rattle.heap_laws.specs.CopiedGraphs.{ACopyIsThere, CopiedValuesFit, CopiesCostTheirReach, CopiesKeepDomains, SealedIsWhollyThere};
ghost use Rattle.heap_laws.specs.ReachedNames.{ClosedIsReach, DistinctFits, OneSum, ReachIsThere, ReachIsWithinHeap};

/// Different numbers, all among others, are no more than these, whatever each counts.
pub fn distinct_fits()
    ensures { DistinctFits }
{}

/// A list that has what the values name, and that to which it leads, has all that is reached.
pub fn closed_is_reach()
    ensures { ClosedIsReach }
{}

/// What is reached costs one sum.
pub fn one_sum()
    ensures { OneSum }
{}

/// Whatever the heap and the values are, the names that are reached can be listed, each once.
pub fn reach_is_there()
    ensures { ReachIsThere }
{}

/// What is reached costs no more than the whole heap.
pub fn reach_is_within_heap()
    ensures { ReachIsWithinHeap }
{}

/// Where each name that is reached has its object, with a value for each field, there is a copy of all of them in any heap.
pub fn a_copy_is_there()
    ensures { ACopyIsThere }
{}

/// In a domain that is sealed each name that known values reach has its object, with a value for each field.
pub fn sealed_is_wholly_there()
    ensures { SealedIsWhollyThere }
{}

/// A copy costs what is reached of its source.
pub fn copies_cost_their_reach()
    ensures { CopiesCostTheirReach }
{}

/// A value that may stand where a type is declared has a copy that may stand there too.
pub fn copied_values_fit()
    ensures { CopiedValuesFit }
{}

/// The domain that takes a copy is sealed with it, has all that it had, and knows what it was given.
pub fn copies_keep_domains()
    ensures { CopiesKeepDomains }
{}
