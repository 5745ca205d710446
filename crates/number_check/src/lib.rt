//! Small methods run by `number_ops::step`, an instruction at a time: tables of instructions, with what the Java Virtual Machine
//! Specification says of each (chapter 6, second edition). The crate has tests alone.
#![tactic(auto)]

#[cfg(test)]
mod arithmetic_tests;
#[cfg(test)]
mod cases;
#[cfg(test)]
mod fitting;
#[cfg(test)]
mod jump_tests;
#[cfg(test)]
mod local_tests;
#[cfg(test)]
mod methods;
#[cfg(test)]
#[cfg(test)]
mod reference_tests;
#[cfg(test)]
mod running;
#[cfg(test)]
mod stack_tests;
#[cfg(test)]
mod stores;
#[cfg(test)]
mod switch_tests;
