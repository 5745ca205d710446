//! The methods of the system classes: texts, buffers, printing, copies of arrays, messages of throwables, and those of package `jk`. Each
//! meaning has a function of its own, over any store of objects; `call` does the one that a frame calls.
#![tactic(auto)]

mod answers;
mod array_copies;
mod buffers;
mod calls;
mod capabilities;
mod given;
mod here;
mod hidden_texts;
mod int_texts;
mod meanings;
mod messages;
mod new_texts;
mod own_domain;
mod own_methods;
mod printing;
mod references;
mod repository;
mod short_texts;
mod tasks;
mod texts;
mod units;
mod wordings;

pub use calls::call;
