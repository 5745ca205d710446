//! What holds among classes still holds when more classes are put behind them, as each folder that is loaded does. There is
//! no code here but that of laws: functions that do nothing, whose contracts are theorems on the definitions.
#![tactic(auto)]

pub mod laws;
