//! Rows of calls, played with nothing between them, or with all made anew after each.

ghost use Rattle.std.specs.Prelude.{◌≡◌, IfOk};
ghost use Rattle.thread_check.specs.KnownStubs.{known_stubs};

use crate::acts::{Act, answer_to, stubs};
use crate::answers::Answer;
use std::alloc::Global;
use std::process::Abort;
use std::test::Fail;
use thread_segments::Shared;

/// A call, and what it answers.
pub(crate) type Row = (Act, Answer);

/// What is done after each row.
#[derive(Clone, Copy)]
pub(crate) enum After {
    Nothing,
    /// What domains share is told, and made anew of that.
    Renewal,
}

/// The same, made anew of what it tells.
pub(crate) fn anew(alloc: Global, shared: &Shared) -> Result<Shared, Fail>
    requires { shared.now.stubs ≡ known_stubs }
    ensures { IfOk result (λ new. new.stubs ≡ known_stubs) }
{
    let parts = shared.parts()?;
    shared.is_restorable();
    Ok(Shared::from_parts(alloc, parts, stubs(alloc)?)?)
}

fn do_after(alloc: Global, shared: &mut Shared, after: After) -> Result<(), Fail>
    requires { shared.old.stubs ≡ known_stubs }
    ensures { IfOk result (λ _. shared.new.stubs ≡ known_stubs) }
{
    match after {
        After::Nothing => Ok(()),
        After::Renewal => {
            *shared = anew(alloc, shared)?;
            Ok(())
        }
    }
}

/// Makes these calls, and sees what they answer.
pub(crate) fn play(
    rt: &impl Abort,
    alloc: Global,
    shared: &mut Shared,
    name: &str,
    rows: &[Row],
    after: After,
) -> Result<(), Fail>
    requires { shared.old.stubs ≡ known_stubs }
    ensures { IfOk result (λ _. shared.new.stubs ≡ known_stubs) }
{
    for (i, (act, wanted)) in rows.iter().enumerate() {
        let answer = answer_to(alloc, shared, *act)?;
        assert!(rt; answer == *wanted, "{name}, row {i}");
        do_after(alloc, shared, after)?;
    }
    Ok(())
}
