//! What calls answer, as rows of tables say it.

use jk_model::{Raise, Standing};
use jk_model_heaps::system_classes::ILLEGAL_ARGUMENT_EXCEPTION;

/// What a call answers.
#[derive(Clone, Copy, PartialEq, Eq)]
pub(crate) enum Answer {
    Done,
    /// Of a thread, a segment or a capability.
    Number(u64),
    /// No thread may begin, or nothing of this number or name is there.
    Nothing,
    Raised(Raise),
    /// A capability has this owner and leads to this target there; whether it is revoked.
    Leads(u32, u32, bool),
}

pub(crate) const ILLEGAL: Answer = Answer::Raised(Raise::Fresh(ILLEGAL_ARGUMENT_EXCEPTION));

pub(crate) const QUOTA: Answer = Answer::Raised(Raise::Standing(Standing::Quota));

pub(crate) const SECURITY: Answer = Answer::Raised(Raise::Standing(Standing::Security));
