//! Frames of running methods, as the machine knows them: what a frame holds, how it is pushed, and what it costs its domain.
//! Beside them stand the words for places in a pool of memory. There is no code here: the definitions in `specs/` are what
//! the contracts of the crates above cite.
#![tactic(auto)]
