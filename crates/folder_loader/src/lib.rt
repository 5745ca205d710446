//! Loads the folder of a domain: reads it once, judges it by every written rule in their order, and puts its classes behind
//! those that are loaded, or names the first rule that it breaks and leaves all as it was.
#![tactic(auto)]

mod all_links;
mod answers;
mod arranged;
mod judged_classes;
mod judged_names;
mod loading;
mod offers;
mod own_names;
mod placed;
mod placing;
mod records;
mod stubs;
mod table;
mod thrown;
mod told;

pub use answers::{LoadAnswer, Loaded};
pub use loading::load;
