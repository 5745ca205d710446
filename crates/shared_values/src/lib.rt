//! Values that many hold and that stand in memory once: texts, types of methods, and values of any type. A
//! contract sees each as the value itself. A text and a method's type carry a fingerprint, which is worked
//! out once, so that members are put in order and found by it and not by long comparisons.
#![tactic(auto)]

mod fingerprints;
mod hashed_kinds;
mod hashed_units;
mod kinds;
mod same_kind;
mod shared;
mod text;

pub use fingerprints::{fingerprint, kind_fingerprint};
pub use kinds::SharedKind;
pub use shared::Shared;
pub use text::Text;
