//! Laws of the instructions on whole numbers: what typing says of a frame before an instruction and after it holds of the
//! frame's values, and a value that is returned fits the method's result. There is no code here but that of laws: functions
//! that do nothing, whose contracts are theorems on the definitions of instructions and types.
#![tactic(auto)]

pub mod laws;
