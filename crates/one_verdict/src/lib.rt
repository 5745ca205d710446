//! A folder has one verdict: it breaks no rule, or it has one first fault, whatever is chosen where its rules are read, as
//! the order of what isn't ordered. There is no code here but that of laws: functions that do nothing, whose contracts are
//! theorems on the definitions.
#![tactic(auto)]

pub mod laws;
