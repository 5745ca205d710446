//! Each question that the definitions ask of the records of classes has an answer: a relation of two classes holds or doesn't, a
//! walk finds a member or nothing, a call runs a method or none. Nothing says so by itself, since the logic has no law of the
//! excluded middle; who shows that a machine has a next step needs it. There is no code here but that of laws: functions that do
//! nothing, whose contracts are theorems on the definitions.
#![tactic(auto)]

pub mod laws;
