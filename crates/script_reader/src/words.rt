//! Words that a line of a script must have.

ghost use Rattle.std.specs.Prelude.{◌≡◌, ◌∷◌, [], MatchResult};
ghost use Rattle.jk_model.specs.Script as script;

use jk_model::FaultKind;
use text_lines::next_word;

/// The first word of a line and what follows it, where there must be one.
pub(crate) fn needed_word(line: &[u8]) -> Result<(&[u8], &[u8]), FaultKind>
    ensures { MatchResult result (λ found. script.words line.now ≡ found.0.now ∷ script.words found.1.now)
        (λ kind. (script.words line.now ≡ []) × (kind ≡ FaultKind.Missing)) }
{
    next_word(line).ok_or(FaultKind::Missing)
}
