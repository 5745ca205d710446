//! Lines that are printed one after another, up to one that fails.

ghost use Rattle.std.specs.Prelude.{◌≡◌, ℕ, ◌∷◌, ◌++◌, [], List, Option};
ghost use Rattle.jk_model.specs.declared.output.Line.{Line};
ghost use Rattle.jk_outside.specs.LineRefs.{line_of};
ghost use Rattle.jk_outside.specs.SeveralLines.{PrintsLines};

use crate::line_printer::print_line;
use crate::line_refs::LineRef;
use crate::sinks::{Sink, SinkFailed};

/// Prints one more line, unless one before it failed: after that nothing is printed. `so_far` is what came of those
/// before it. This takes no memory.
pub fn print_next<S: Sink>(
    so_far: Result<(), SinkFailed>,
    line: LineRef<'_>,
    out: &mut S,
) -> Result<(), SinkFailed>
    ensures { (bytes : Option (List ℕ)) (pieces : List (List ℕ)) (faults : ℕ) (before : List Line)
        → PrintsLines bytes (S.bytes out.old) pieces (S.pieces out.old) faults (S.faults out.old) so_far before
        → PrintsLines bytes (S.bytes out.new) pieces (S.pieces out.new) faults (S.faults out.new) result (before ++ line_of line.entry ∷ []) }
{
    so_far?;
    print_line(line, out)
}

/// Before the first line nothing was printed.
pub fn print_none<S: Sink>(out: &S) -> Result<(), SinkFailed>
    ensures { PrintsLines (S.bytes out.now) (S.bytes out.now) (S.pieces out.now) (S.pieces out.now) (S.faults out.now) (S.faults out.now) result [] }
{
    Ok(())
}
