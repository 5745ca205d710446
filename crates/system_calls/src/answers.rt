//! What a method answers that touches its own domain alone.

use jk_model::{Raise, Standing, Value};

/// A value, or none where the method has no result; or what the method raises.
pub(crate) type Answer = Result<Option<Value>, Raise>;

/// What is raised where an object doesn't fit the heap.
pub(crate) const NO_MEMORY: Raise = Raise::Standing(Standing::OutOfMemoryError);
