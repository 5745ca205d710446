//! Tests of the crates that read, write and judge class files by themselves: tables of questions with what the Java Virtual Machine
//! Specification and the rules of `docs/` say of each. The tables are texts, which cost no proof. Which rule of a class a file
//! breaks first is asked by the stored run of `class_check`.
#![tactic(auto)]

#[cfg(test)]
mod answers;
#[cfg(test)]
mod byte_rows;
#[cfg(test)]
mod tables;
#[cfg(test)]
mod text_rows;
