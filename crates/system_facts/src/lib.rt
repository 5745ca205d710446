//! What the records of the system classes say, class by class and member by member: the types of their fields and methods, by one
//! reader of descriptors; the fields of their objects; and that nothing stands below a closed one. There is no code here but that of
//! laws: functions that do nothing, whose contracts are theorems on the definitions.
#![tactic(auto)]

pub mod laws;
