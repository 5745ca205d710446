//! What is known of a code before it is gone over.

use handler_cover::CoverTree;
use type_rows::CodeView;

/// A code, the leaders among its places, and which catch entries cover which places.
#[derive(Drop)]
pub(crate) struct Task<'a> {
    pub view: CodeView<'a>,
    /// Whether a place is a leader, for each place.
    pub leads: Vec<bool>,
    pub tree: CoverTree,
}
