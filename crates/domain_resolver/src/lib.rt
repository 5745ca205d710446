//! What the names of a domain mean, what it offers to others, the world of all classes and domains in which a
//! folder is loaded, and the reader of `resolver.txt`.
#![tactic(auto)]

mod domain_names;
mod imports;
mod line;
mod live_names;
mod name_table;
mod offers;
mod resolver;
mod world;

pub use domain_names::DomainNames;
pub use jk_model_classes::{Offer, ResolverLine, ResolverWord};
pub use name_table::NameTable;
pub use offers::Offers;
pub use resolver::{ResolverError, read_resolver};
pub use world::World;
