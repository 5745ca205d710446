//! The parts that a line of output is made of.

/// A part of a line.
#[derive(Clone, Copy)]
pub enum Part<'a> {
    /// Bytes as they stand.
    Bytes(&'a [u8]),
    /// A text in UTF-16, with escapes for all but 32 to 126 and for the backslash.
    Escaped(&'a [u16]),
    /// A path, whose UTF-16 is escaped like a text.
    Path(&'a str),
    /// A number in decimal digits.
    Number(i64),
}
