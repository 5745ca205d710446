//! The bytes of a method's code are read as instructions, each with its operands and the places to which it may go; or the
//! first byte is found at which no instruction stands, with the reason.
#![tactic(auto)]

mod code;
mod errors;
mod formats;
mod operands;
mod plain;
mod switches;

pub use code::decode;
pub use errors::CodeError;
