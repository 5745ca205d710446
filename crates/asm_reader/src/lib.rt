//! Reads the lines of an assembler's text, in which tests and examples write class files that no compiler would make: which
//! item each line is. `docs/FORMATS.md` has the grammar.
#![tactic(auto)]

mod item_lines;
mod items;
pub mod laws;
mod lines;
mod mnemonics;
mod numbers;
mod statements;
mod words;

pub use items::{
    CatchLine, ClassLine, CodeLine, Constant, FieldLine, Item, LineReading, MemberKind, MethodLine,
    Statement, SwitchLine,
};
pub use lines::read_lines;
