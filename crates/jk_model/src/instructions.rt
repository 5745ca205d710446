//! Decoded instructions, in their long forms.

use crate::lists::List;

/// An instruction, at its place in the bytes of its code.
#[derive(Debug, Drop)]
pub struct Instr {
    pub at: u32,
    /// The opcode, or that of the long form where the instruction has a short one. That of `goto` for
    /// `goto_w`, and after `wide` the opcode that it widens.
    pub op: u8,
    /// The constant, local, pool index, array code or target; 0 where there is none. A target is a
    /// place from 0 to 65,535, which may lie past the code's end, or -1 where it lies outside these.
    pub a: i32,
    /// The second operand: the step of `iinc`, the dimensions of `multianewarray`; else 0.
    pub b: i32,
    /// The cases of a switch, whose default is `a`.
    pub cases: List<SwitchCase>,
}

/// A key of a switch, and where it leads.
#[derive(Clone, Copy, Debug, PartialEq, Eq)]
pub struct SwitchCase {
    pub key: i32,
    /// As the target of a jump: -1 where it lies outside 0 to 65,535.
    pub target: i32,
}
