//! Which class file of a folder breaks a rule, and which of two faults counts.

ghost use Rattle.std.specs.Prelude.{◌≡◌};
ghost use Rattle.class_files.specs.RuleOrder.{earlier_of, rank_of};

use jk_model::{OutOfMemory, Rule};
use jk_model_classes::ClassFault;
use thiserror::Error;

/// A rule that a class file of a folder breaks, and where.
#[derive(Clone, Copy, Debug, PartialEq, Eq)]
pub struct FileFault {
    pub rule: Rule,
    /// The place of the file, in the order of paths.
    pub file: usize,
    /// A member, an entry of the constant pool, or a place in the bytes, as the rule says.
    pub number: u32,
}

/// Why the class files of a folder aren't answered.
#[derive(Clone, Copy, Debug, PartialEq, Eq, Error)]
pub enum ClassFilesError {
    /// A file breaks a rule.
    #[error("a class file breaks a rule")]
    Broken(FileFault),
    #[error("out of memory")]
    OutOfMemory,
}

impl From<OutOfMemory> for ClassFilesError {
    ghost use Rattle.std.specs.Prelude.{◌≡◌};
    ghost use Rattle.class_files.specs.declared.faults.ClassFilesError.TheVariants.{OutOfMemory as Lacks};

    ghost from_gives = { λ _ e. e ≡ Lacks };

    fn from(_e: OutOfMemory) -> ClassFilesError {
        ClassFilesError::OutOfMemory
    }
}

/// The fault of the file at a place.
pub(crate) fn fault_at(file: usize, fault: ClassFault) -> FileFault
    ensures { result ≡ record { rule = fault.rule; file = file; number = fault.number } }
{
    FileFault {
        rule: fault.rule,
        file,
        number: fault.number,
    }
}

/// The place of a rule among all.
fn rank(rule: Rule) -> u8
    ensures { result ≡ rank_of rule }
{
    rule as u8
}

/// Of the first fault so far and that of a later file, the one that counts: that of the earlier rule, or the one so far where
/// both are of one rule.
pub(crate) fn earlier(first: Option<FileFault>, next: FileFault) -> FileFault
    ensures { result ≡ earlier_of first next }
{
    let Some(fault) = first else {
        return next;
    };
    if rank(next.rule) < rank(fault.rule) {
        next
    } else {
        fault
    }
}
