//! The first of the rules C6 to C17 that a class file breaks. A rule is asked only where those before it hold.

ghost use Rattle.std.specs.Prelude.{◌≡◌, ℕ, ◌<◌, ◌^◌, List, IfOk, IfSome, None, length};
ghost use Rattle.std.specs.List.{AllByRecursion};
ghost use Rattle.jk_model.specs.ClassFile.{IsEntry};
ghost use Rattle.jk_model.specs.ReadFaults.{IsWritable};
ghost use Rattle.jk_model_classes.specs.OneClassRules.{IsFirstFault, HasNoFault};
ghost use Rattle.class_rules.specs.Attributes.{HaveShort};
ghost use Rattle.class_rules.specs.Order.{HoldBefore, IsFaultBefore};
ghost use Rattle.class_rules.specs.Texts.{AreFacts};

use crate::bad_attributes::bad_attributes;
use crate::code_rules::{CodeRule, bad_code, judge_methods};
use crate::duplicates::duplicate_member;
use crate::flag_rules::{bad_monitor, native_method};
use crate::flags::bad_flags;
use crate::floats::bad_floats;
use crate::member_descriptors::bad_descriptors;
use crate::names::bad_names;
use crate::path::wrong_path;
use crate::texts::{TextFacts, facts_of};
use jk_model::{ClassFile, OutOfMemory, Rule};
use jk_model_classes::ClassFault;
use std::alloc::Global;

/// The first of the rules C6 to C17 that a class file breaks by itself, with the least member that breaks it, or else the
/// least entry. None where it breaks none of them.
///
/// The path is that of the file below its folder, as `p/A.class`. The record is one that `is_writable` takes, as is
/// each that was read of a file shorter than 2^31 bytes. Each text is judged and each code decoded once, so the time
/// is linear in the file, or a logarithm more.
pub fn first_fault(
    alloc: Global,
    c: &ClassFile,
    path: &str,
) -> Result<Option<ClassFault>, OutOfMemory>
    requires { IsWritable c.now }
    ensures fault { IfOk result (λ found. IfSome found (λ fault. IsFirstFault c.now path.now fault.rule fault.number)) }
    ensures no_fault { IfOk result (λ found. found ≡ None → HasNoFault c.now path.now) }
{
    let facts = facts_of(alloc, c.pool.as_slice())?;
    let facts = facts.as_slice();
    if let Some(fault) = fault_of_parts(alloc, c, facts)? {
        return Ok(Some(fault));
    }
    if let Some(fault) = fault_of_methods(alloc, c, facts)? {
        return Ok(Some(fault));
    }
    fault_of_whole(alloc, c, facts, path)
}

/// The first of the rules C6 to C9 that is broken.
fn fault_of_parts(
    alloc: Global,
    c: &ClassFile,
    facts: &[Option<TextFacts>],
) -> Result<Option<ClassFault>, OutOfMemory>
    requires known { AreFacts c.now.pool facts.now }
    requires fields { length c.now.fields < 2 ^ 16 }
    requires methods { length c.now.methods < 2 ^ 16 }
    requires entries { length c.now.pool < 2 ^ 16 }
    requires short { HaveShort c.now.methods }
    ensures { IfOk result (λ found. (path : List ℕ) → IsFaultBefore c.now path 4 found) }
{
    if let Some(number) = bad_flags(c, facts) {
        return Ok(Some(ClassFault {
            rule: Rule::C6,
            number,
        }));
    }
    if let Some(number) = bad_names(c, facts) {
        return Ok(Some(ClassFault {
            rule: Rule::C7,
            number,
        }));
    }
    if let Some(number) = bad_descriptors(c, facts) {
        return Ok(Some(ClassFault {
            rule: Rule::C8,
            number,
        }));
    }
    if let Some(number) = bad_attributes(alloc, c, facts)? {
        return Ok(Some(ClassFault {
            rule: Rule::C9,
            number,
        }));
    }
    Ok(None)
}

/// The first of the rules C10 to C15 that is broken, where those before them hold.
fn fault_of_methods(
    alloc: Global,
    c: &ClassFile,
    facts: &[Option<TextFacts>],
) -> Result<Option<ClassFault>, OutOfMemory>
    requires known { AreFacts c.now.pool facts.now }
    requires fields { length c.now.fields < 2 ^ 16 }
    requires methods { length c.now.methods < 2 ^ 16 }
    requires entries { length c.now.pool < 2 ^ 16 }
    requires short { HaveShort c.now.methods }
    requires earlier { (path : List ℕ) → HoldBefore c.now path 4 }
    ensures { IfOk result (λ found. (path : List ℕ) → IsFaultBefore c.now path 10 found) }
{
    let judged = judge_methods(alloc, c, facts)?;
    let judged = judged.as_slice();
    if let Some(number) = bad_floats(c, facts, judged) {
        return Ok(Some(ClassFault {
            rule: Rule::C10,
            number,
        }));
    }
    if let Some(number) = bad_code(c, judged, CodeRule::Subroutines) {
        return Ok(Some(ClassFault {
            rule: Rule::C11,
            number,
        }));
    }
    if let Some(number) = bad_monitor(c, facts, judged) {
        return Ok(Some(ClassFault {
            rule: Rule::C12,
            number,
        }));
    }
    if let Some(number) = native_method(c, facts) {
        return Ok(Some(ClassFault {
            rule: Rule::C13,
            number,
        }));
    }
    if let Some(number) = bad_code(c, judged, CodeRule::ClassConstants) {
        return Ok(Some(ClassFault {
            rule: Rule::C14,
            number,
        }));
    }
    if let Some(number) = bad_code(c, judged, CodeRule::BadCode) {
        return Ok(Some(ClassFault {
            rule: Rule::C15,
            number,
        }));
    }
    Ok(None)
}

/// C16 or C17, where one is broken and those before them hold.
fn fault_of_whole(
    alloc: Global,
    c: &ClassFile,
    facts: &[Option<TextFacts>],
    path: &str,
) -> Result<Option<ClassFault>, OutOfMemory>
    requires known { AreFacts c.now.pool facts.now }
    requires fields { length c.now.fields < 2 ^ 16 }
    requires methods { length c.now.methods < 2 ^ 16 }
    requires entries { AllByRecursion IsEntry c.now.pool }
    requires earlier { HoldBefore c.now path.now 10 }
    ensures { IfOk result (λ found. IsFaultBefore c.now path.now 12 found) }
{
    if let Some(number) = duplicate_member(alloc, c, facts)? {
        return Ok(Some(ClassFault {
            rule: Rule::C16,
            number,
        }));
    }
    if let Some(number) = wrong_path(alloc, c, path)? {
        return Ok(Some(ClassFault {
            rule: Rule::C17,
            number,
        }));
    }
    Ok(None)
}
