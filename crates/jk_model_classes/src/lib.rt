//! Loaded classes: the records in which they are kept, the types of what domains share, and, in `specs/`,
//! the definitions that the contracts of the crates above cite: which loading rule a class file or a folder
//! breaks, what stands above a class, how members are found, what an object is made of, what a domain's
//! names mean, and what a stub is. The code here is that of plain types and of laws of the definitions.
#![tactic(auto)]

pub mod laws;
mod records;
mod sharing;

pub use records::{
    BaseRef, Body, Caught, ClassRecord, FieldRecord, Link, LinkedCode, Member, MethodRecord,
    TypeRef,
};
pub use sharing::{ClassFault, Offer, ResolverLine, ResolverWord, Stub};
