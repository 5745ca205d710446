//! The names of classes in descriptors: the Java Virtual Machine Specification, second edition, 4.2.

ghost use Rattle.descriptors.specs.Names.{IsStep, IsNameLength};

const DOT: u16 = b'.' as u16;

const SLASH: u16 = b'/' as u16;

const SEMICOLON: u16 = b';' as u16;

const BRACKET: u16 = b'[' as u16;

/// What a unit does to the name of a class.
enum Step {
    /// It is one of a name's own.
    Within,
    /// It stands between two names.
    Between,
    /// It ends the name of the class.
    End,
    /// No name goes on with it.
    Stop,
}

/// What this unit does where a name starts, or within one.
fn step_of(at_start: bool, unit: u16) -> Step
    ensures { IsStep at_start unit result }
{
    match unit {
        DOT | BRACKET => Step::Stop,
        SLASH if at_start => Step::Stop,
        SLASH => Step::Between,
        SEMICOLON if at_start => Step::Stop,
        SEMICOLON => Step::End,
        _ => Step::Within,
    }
}

/// The length of the name of a class in front of its `;`, or of the longest part that begins one.
pub(crate) fn name_length(units: &[u16]) -> Result<usize, usize>
    ensures { IsNameLength units.now result }
{
    let mut at_start = true;
    for (i, unit) in units.iter().enumerate() {
        match step_of(at_start, *unit) {
            Step::Within => at_start = false,
            Step::Between => at_start = true,
            Step::End => return Ok(i),
            Step::Stop => return Err(i),
        }
    }
    Err(units.len())
}
