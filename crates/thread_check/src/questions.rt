//! Questions as rows of tables: calls that change nothing.

use crate::answers::Answer;
use crate::asking::expect_segment;
use jk_model::{CapId, CapStatus, ClassId, SegmentNo, ThreadNo};
use jk_model_classes::Stub;
use std::test::Fail;
use thread_segments::Shared;

/// What is asked, with threads, segments and capabilities by their numbers.
#[derive(Clone, Copy)]
pub(crate) enum Question {
    /// The top segment of a thread.
    Top(u32),
    /// The segment below another, which is there.
    Below(u64),
    /// The thread of a segment.
    Thread(u64),
    /// The capability of a name.
    Name(&'static [u16]),
    Capability(u32),
    /// The class of a capability's target.
    Class(u32),
    /// The class of the stub with which a capability was made.
    Stub(u32),
    /// How many numbers of capabilities are in no range.
    NumbersLeft,
}

/// The answer to a question.
pub(crate) fn told(shared: &Shared, question: Question) -> Result<Answer, Fail> {
    match question {
        Question::Top(t) => Ok(of_segment(shared.top(ThreadNo(t)))),
        Question::Below(s) => below(shared, SegmentNo(s)),
        Question::Thread(s) => Ok(of_thread(shared, SegmentNo(s))),
        Question::Name(name) => Ok(of_name(shared, name)),
        Question::Capability(k) => Ok(of_status(shared.status(CapId(k)))),
        Question::Class(k) => Ok(of_class(shared.capability_class(CapId(k)))),
        Question::Stub(k) => Ok(of_stub(shared.stub(CapId(k)))),
        Question::NumbersLeft => Ok(Answer::Number(u64::from(shared.numbers_left()))),
    }
}

fn of_segment(segment: Option<SegmentNo>) -> Answer {
    match segment {
        Some(s) => Answer::Number(s.0),
        None => Answer::Nothing,
    }
}

fn below(shared: &Shared, s: SegmentNo) -> Result<Answer, Fail> {
    expect_segment(shared, s)?;
    Ok(of_segment(shared.below(s)))
}

fn of_thread(shared: &Shared, s: SegmentNo) -> Answer {
    match shared.segment(s) {
        Some(info) => Answer::Number(u64::from(info.thread.0)),
        None => Answer::Nothing,
    }
}

fn of_name(shared: &Shared, name: &[u16]) -> Answer {
    match shared.lookup(name) {
        Some(k) => Answer::Number(u64::from(k.0)),
        None => Answer::Nothing,
    }
}

fn of_status(status: Option<CapStatus>) -> Answer {
    match status {
        Some(status) => Answer::Leads(status.owner.0, status.target, status.revoked),
        None => Answer::Nothing,
    }
}

fn of_class(class: Option<ClassId>) -> Answer {
    match class {
        Some(class) => Answer::Number(u64::from(class.0)),
        None => Answer::Nothing,
    }
}

fn of_stub(stub: Option<&Stub>) -> Answer {
    match stub {
        Some(stub) => of_class(Some(stub.class)),
        None => Answer::Nothing,
    }
}
