//! The laws of one step of one segment. `operands`: what typing says of the values that an instruction finds and leaves. `heap_rows`,
//! `call_rows`, `system_rows`: there is a row wherever an instruction of the group is done, or a method of the system is called, and each row
//! keeps what is kept. `unwinding`: what is raised, and how it unwinds a segment. `running`: a segment that acts has a step, wherever the
//! class that it needs isn't in progress elsewhere, and each step keeps the domain sealed, the frames fitting and the classes in progress.
//! There is no code here but that of laws: functions that do nothing, whose contracts are theorems on the definitions.
#![tactic(auto)]

pub mod call_rows;
pub mod heap_rows;
pub mod operands;
pub mod running;
pub mod system_rows;
pub mod unwinding;
