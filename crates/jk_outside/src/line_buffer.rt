//! A buffer of one piece, through which the bytes of a line go out to a sink.

ghost use Rattle.std.specs.Prelude.{◌≡◌, ◌+◌, ◌<◌, ◌≤◌, ◌++◌, ◌∷◌, [], length, OnOk, OnErr};
ghost use Rattle.std.specs.Fmt.{signed_decimal};
ghost use Rattle.jk_model.specs.Outside.{HasRisen, NeverFalls};
ghost use Rattle.jk_model.specs.Text.{shown, shown_unit, utf16_of, hex_digit};
ghost use Rattle.jk_outside.specs.CutTexts.{whole_pieces, rest_of_pieces, Sends, BreaksOff};
ghost use Rattle.jk_outside.specs.Lines.{escape};

use crate::sinks::{Sink, SinkFailed};
use itoa::Buffer;
use std::marker::Model;

/// How many bytes go out as one write, where so many were put.
const PIECE: usize = 256;

/// The bytes of a line that have not gone out yet. They go out as one write when there are 256 of
/// them and when the line ends. After a failed call the buffer is empty.
#[derive(Drop)]
pub struct LineBuffer {
    bytes: [u8; 256],
    len: usize,
}

impl Model for LineBuffer {
    ghost use Rattle.std.specs.Prelude.{List, ℕ, take, ◌<◌};

    ghost Value = { List ℕ };

    ghost view = { λ b. take b.len b.bytes };

    ghost invariant = { λ b. b.len < 256 };
}

impl LineBuffer {
    /// An empty buffer.
    pub fn new() -> LineBuffer
        ensures { result ≡ [] }
    {
        LineBuffer {
            bytes: [0; 256],
            len: 0,
        }
    }

    /// How many bytes it still takes before they go out.
    fn room(&self) -> usize
        ensures room { result + length self.now ≡ 256 }
        ensures some { 0 < result }
    {
        PIECE - self.len
    }

    /// Puts bytes for which there is room.
    fn fill<S: Sink>(&mut self, bytes: &[u8], sink: &mut S) -> Result<(), SinkFailed>
        requires { length self.old + length bytes.now ≤ 256 }
        ensures sent { OnOk result (Sends (S.bytes sink.old) (S.bytes sink.new)
            (S.pieces sink.old) (S.pieces sink.new) (whole_pieces (self.old ++ bytes.now))) }
        ensures held { OnOk result (self.new ≡ rest_of_pieces (self.old ++ bytes.now)) }
        ensures part { OnErr result (BreaksOff (S.bytes sink.old) (S.bytes sink.new)
            (S.pieces sink.old) (S.pieces sink.new) (whole_pieces (self.old ++ bytes.now))) }
        ensures emptied { OnErr result (self.new ≡ []) }
        ensures cause { OnErr result (HasRisen (S.faults sink.old) (S.faults sink.new)) }
        ensures calm { OnOk result (S.faults sink.new ≡ S.faults sink.old) }
        ensures faults { NeverFalls (S.faults sink.old) (S.faults sink.new) }
        ensures few { length self.new < 256 }
    {
        let end = self.len + bytes.len();
        self.bytes[self.len..end].copy_from_slice(bytes);
        if end == PIECE {
            self.len = 0;
            return sink.write(&self.bytes);
        }
        self.len = end;
        Ok(())
    }

    /// Puts bytes as they stand.
    pub fn put_bytes<S: Sink>(&mut self, bytes: &[u8], sink: &mut S) -> Result<(), SinkFailed>
        ensures sent { OnOk result (Sends (S.bytes sink.old) (S.bytes sink.new)
            (S.pieces sink.old) (S.pieces sink.new) (whole_pieces (self.old ++ bytes.now))) }
        ensures held { OnOk result (self.new ≡ rest_of_pieces (self.old ++ bytes.now)) }
        ensures part { OnErr result (BreaksOff (S.bytes sink.old) (S.bytes sink.new)
            (S.pieces sink.old) (S.pieces sink.new) (whole_pieces (self.old ++ bytes.now))) }
        ensures emptied { OnErr result (self.new ≡ []) }
        ensures cause { OnErr result (HasRisen (S.faults sink.old) (S.faults sink.new)) }
        ensures calm { OnOk result (S.faults sink.new ≡ S.faults sink.old) }
        ensures faults { NeverFalls (S.faults sink.old) (S.faults sink.new) }
        ensures few { length self.new < 256 }
    {
        // The proof of the first turn wants to know that the buffer has room.
        let _ = &self.len;
        let mut rest = bytes;
        while !rest.is_empty() {
            let (next, more) = rest.split_at(rest.len().min(self.room()));
            self.fill(next, sink)?;
            rest = more;
        }
        Ok(())
    }

    /// Puts one unit of a text, in its escape where it has one.
    fn put_unit<S: Sink>(&mut self, unit: u16, sink: &mut S) -> Result<(), SinkFailed>
        ensures sent { OnOk result (Sends (S.bytes sink.old) (S.bytes sink.new)
            (S.pieces sink.old) (S.pieces sink.new) (whole_pieces (self.old ++ shown_unit unit))) }
        ensures held { OnOk result (self.new ≡ rest_of_pieces (self.old ++ shown_unit unit)) }
        ensures part { OnErr result (BreaksOff (S.bytes sink.old) (S.bytes sink.new)
            (S.pieces sink.old) (S.pieces sink.new) (whole_pieces (self.old ++ shown_unit unit))) }
        ensures emptied { OnErr result (self.new ≡ []) }
        ensures cause { OnErr result (HasRisen (S.faults sink.old) (S.faults sink.new)) }
        ensures calm { OnOk result (S.faults sink.new ≡ S.faults sink.old) }
        ensures faults { NeverFalls (S.faults sink.old) (S.faults sink.new) }
        ensures few { length self.new < 256 }
    {
        match unit {
            0x5c => self.put_bytes(b"\\\\", sink),
            0x20..=0x7e => self.put_bytes(&[unit as u8], sink),
            _ => self.put_bytes(&escape_of(unit), sink),
        }
    }

    /// Puts a text in UTF-16: a unit from 32 to 126 stands for itself, a backslash is doubled, and
    /// each other unit is `\u` and four hexadecimal digits.
    pub fn put_escaped<S: Sink>(&mut self, units: &[u16], sink: &mut S) -> Result<(), SinkFailed>
        ensures sent { OnOk result (Sends (S.bytes sink.old) (S.bytes sink.new)
            (S.pieces sink.old) (S.pieces sink.new) (whole_pieces (self.old ++ shown units.now))) }
        ensures held { OnOk result (self.new ≡ rest_of_pieces (self.old ++ shown units.now)) }
        ensures part { OnErr result (BreaksOff (S.bytes sink.old) (S.bytes sink.new)
            (S.pieces sink.old) (S.pieces sink.new) (whole_pieces (self.old ++ shown units.now))) }
        ensures emptied { OnErr result (self.new ≡ []) }
        ensures cause { OnErr result (HasRisen (S.faults sink.old) (S.faults sink.new)) }
        ensures calm { OnOk result (S.faults sink.new ≡ S.faults sink.old) }
        ensures faults { NeverFalls (S.faults sink.old) (S.faults sink.new) }
        ensures few { length self.new < 256 }
    {
        // The proof of the first turn wants to know that the buffer has room.
        let _ = &self.len;
        for unit in units {
            self.put_unit(*unit, sink)?;
        }
        Ok(())
    }

    /// Puts a text in UTF-8 as its UTF-16 is put.
    pub fn put_path<S: Sink>(&mut self, path: &str, sink: &mut S) -> Result<(), SinkFailed>
        ensures sent { OnOk result (Sends (S.bytes sink.old) (S.bytes sink.new)
            (S.pieces sink.old) (S.pieces sink.new) (whole_pieces (self.old ++ shown (utf16_of path.now)))) }
        ensures held { OnOk result (self.new ≡ rest_of_pieces (self.old ++ shown (utf16_of path.now))) }
        ensures part { OnErr result (BreaksOff (S.bytes sink.old) (S.bytes sink.new)
            (S.pieces sink.old) (S.pieces sink.new) (whole_pieces (self.old ++ shown (utf16_of path.now)))) }
        ensures emptied { OnErr result (self.new ≡ []) }
        ensures cause { OnErr result (HasRisen (S.faults sink.old) (S.faults sink.new)) }
        ensures calm { OnOk result (S.faults sink.new ≡ S.faults sink.old) }
        ensures faults { NeverFalls (S.faults sink.old) (S.faults sink.new) }
        ensures few { length self.new < 256 }
    {
        let _ = &self.len;
        for character in path.chars() {
            let mut pair = [0; 2];
            self.put_escaped(character.encode_utf16(&mut pair), sink)?;
        }
        Ok(())
    }

    /// Puts a number in decimal digits, after a minus sign where it is below 0.
    pub fn put_number<S: Sink>(&mut self, n: i64, sink: &mut S) -> Result<(), SinkFailed>
        ensures sent { OnOk result (Sends (S.bytes sink.old) (S.bytes sink.new)
            (S.pieces sink.old) (S.pieces sink.new) (whole_pieces (self.old ++ signed_decimal n))) }
        ensures held { OnOk result (self.new ≡ rest_of_pieces (self.old ++ signed_decimal n)) }
        ensures part { OnErr result (BreaksOff (S.bytes sink.old) (S.bytes sink.new)
            (S.pieces sink.old) (S.pieces sink.new) (whole_pieces (self.old ++ signed_decimal n))) }
        ensures emptied { OnErr result (self.new ≡ []) }
        ensures cause { OnErr result (HasRisen (S.faults sink.old) (S.faults sink.new)) }
        ensures calm { OnOk result (S.faults sink.new ≡ S.faults sink.old) }
        ensures faults { NeverFalls (S.faults sink.old) (S.faults sink.new) }
        ensures few { length self.new < 256 }
    {
        let mut digits = Buffer::new();
        self.put_bytes(digits.format(n).as_bytes(), sink)
    }

    /// Puts a line feed, after which all that was held goes out as one piece.
    pub fn end_line<S: Sink>(&mut self, sink: &mut S) -> Result<(), SinkFailed>
        ensures sent { OnOk result (Sends (S.bytes sink.old) (S.bytes sink.new)
            (S.pieces sink.old) (S.pieces sink.new) ((self.old ++ 10 ∷ []) ∷ [])) }
        ensures part { OnErr result (BreaksOff (S.bytes sink.old) (S.bytes sink.new)
            (S.pieces sink.old) (S.pieces sink.new) ((self.old ++ 10 ∷ []) ∷ [])) }
        ensures emptied { self.new ≡ [] }
        ensures cause { OnErr result (HasRisen (S.faults sink.old) (S.faults sink.new)) }
        ensures calm { OnOk result (S.faults sink.new ≡ S.faults sink.old) }
        ensures faults { NeverFalls (S.faults sink.old) (S.faults sink.new) }
    {
        self.bytes[self.len] = b'\n';
        let end = self.len + 1;
        self.len = 0;
        sink.write(&self.bytes[..end])
    }
}

/// A lower-case hexadecimal digit.
fn hex_digit_of(digit: u16) -> u8
    requires { digit < 16 }
    ensures { result ≡ hex_digit digit }
{
    if digit < 10 {
        b'0' + digit as u8
    } else {
        b'a' + (digit - 10) as u8
    }
}

/// `\u` and the four hexadecimal digits of a unit.
fn escape_of(unit: u16) -> [u8; 6]
    ensures { result ≡ escape unit }
{
    [
        b'\\',
        b'u',
        hex_digit_of(unit / 4096 % 16),
        hex_digit_of(unit / 256 % 16),
        hex_digit_of(unit / 16 % 16),
        hex_digit_of(unit % 16),
    ]
}
