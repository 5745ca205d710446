//! Which rule a class file breaks by itself: the first of C6 to C17, with the member or the pool entry that
//! breaks it. `docs/RULES.md` states each rule.
#![tactic(auto)]

mod attributes;
mod bad_attributes;
mod code_rules;
mod codes;
mod duplicates;
mod fault;
mod flag_rules;
mod flags;
mod floats;
mod known_pool;
mod member_descriptors;
mod members;
mod method_codes;
mod names;
mod path;
mod spelling;
mod texts;

pub use fault::first_fault;
pub use jk_model_classes::ClassFault;
