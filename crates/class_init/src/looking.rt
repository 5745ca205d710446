//! What a thread meets at a class that it needs.

ghost use Rattle.jk_model_domains.specs.OwnStates.{IsLook, state_of};

use crate::own::Own;
use jk_model::{ClassId, ThreadNo};
use jk_model_domains::{ClassState, Look};

/// What a thread meets at a class that it needs. A system class is ready in every domain.
pub fn look(own: &Own, t: ThreadNo, c: ClassId) -> Look
    ensures { IsLook t (state_of own.now.state c) result }
{
    match own.state(c) {
        ClassState::Untouched => Look::Untouched,
        ClassState::InProgress(by) if by == t => Look::Ready,
        ClassState::InProgress(_) => Look::Waits,
        ClassState::Done => Look::Ready,
        ClassState::Broken => Look::Broken,
    }
}
