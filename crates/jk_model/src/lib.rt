//! The plain types that the crates of the kernel speak of, and, in `specs/`, the definitions that the
//! contracts of its lower half cite: class files and what stands in them, system classes, extents,
//! capabilities, scripts, output and the world outside. It says nothing of a machine.
#![tactic(auto)]

mod access;
mod args;
mod capabilities;
mod class_file;
mod descriptors;
mod entries;
mod extents;
mod frames;
mod identifiers;
mod instructions;
pub mod laws;
mod lists;
mod memory;
pub mod opcodes;
mod output;
mod script;
mod steps;
mod stores;
#[cfg(test)]
mod tests;
mod values;

pub use access::{AccessFlags, has};
pub use args::Args;
pub use capabilities::CapStatus;
pub use class_file::{Attribute, ClassFile, Code, Handler, MemberInfo, PoolEntry};
pub use descriptors::{Base, FieldType, MethodType};
pub use entries::Entry;
pub use extents::Extent;
pub use frames::FrameHead;
pub use identifiers::{CapId, ClassId, DomainId, MemberId, SegmentNo, ThreadNo};
pub use instructions::{Instr, SwitchCase};
pub use lists::{Bytes, List, Units};
pub use memory::OutOfMemory;
pub use output::{Line, Place, Rule};
pub use script::{Event, FaultKind, Quotas, ScriptFault};
pub use steps::{After, Raise, Standing};
pub use stores::{AdmitError, NoChunks, NoRoom};
pub use values::Value;
