//! What the nodes of the tree of catch entries have seen.

use jk_model::List;
use jk_model_typing::VType;

/// Locals and the flag, as far as places below a node have had them.
#[derive(Drop)]
pub(crate) struct Seen {
    pub locals: List<VType>,
    pub fresh: bool,
}

/// What the nodes of the tree have seen, level by level; nothing where control hasn't come yet.
pub(crate) type Nodes = Vec<Vec<Option<Seen>>>;

/// Locals at a place, with the flag there. Those from `first` up to `end` may have changed since they were handed on; the
/// others fit what the place's node has seen already.
#[derive(Clone, Copy)]
pub(crate) struct Handed<'a> {
    pub place: usize,
    pub locals: &'a [VType],
    pub fresh: bool,
    pub first: usize,
    pub end: usize,
}
