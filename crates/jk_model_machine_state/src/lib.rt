//! The definitions of the state of a machine, in `specs/`: its classes, its domains with heaps of their own, its threads as stacks of
//! segments, the names that are bound to capabilities, and where a thread runs. What is changed is changed by number. There is no
//! code here.
#![tactic(auto)]
