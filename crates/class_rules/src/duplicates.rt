//! C16: members that are there twice.

ghost use Rattle.std.specs.Prelude.{◌≡◌, ◌<◌, ◌^◌, ℕ, IfOk, length, is_some};
ghost use Rattle.jk_model_classes.specs.ClassNames.{IsDuplicate};
ghost use Rattle.class_rules.specs.Answers.{IsLeastSpot};
ghost use Rattle.class_rules.specs.MemberKeys.{first_at, key_of, IsFirstRepeat};
ghost use Rattle.class_rules.specs.Texts.{AreFacts};

use crate::texts::TextFacts;
use jk_model::{ClassFile, MemberInfo, OutOfMemory};
use std::alloc::Global;
use std::collections::BTreeSet;

/// The first index of the text at an index, if there is one.
fn first_index(facts: &[Option<TextFacts>], index: u16) -> Option<u16>
    ensures { result ≡ first_at facts.now index }
{
    match facts.get(usize::from(index)) {
        Some(Some(known)) => Some(known.first),
        _ => None,
    }
}

/// The first indices of the texts of a member's name and descriptor. Namesakes have the same.
fn key(facts: &[Option<TextFacts>], member: &MemberInfo) -> Option<(u16, u16)>
    ensures { result ≡ key_of facts.now member.now }
{
    let name = first_index(facts, member.name)?;
    let descriptor = first_index(facts, member.descriptor)?;
    Some((name, descriptor))
}

/// The place of the first member that has a namesake before it.
fn first_repeat(
    alloc: Global,
    facts: &[Option<TextFacts>],
    members: &[MemberInfo],
) -> Result<Option<usize>, OutOfMemory>
    ensures { IfOk result (IsFirstRepeat facts.now members.now) }
{
    let mut seen = BTreeSet::new(alloc);
    for (i, member) in members.iter().enumerate() {
        let Some(key) = key(facts, member) else {
            continue;
        };
        if !seen.insert(key)? {
            return Ok(Some(i));
        }
    }
    Ok(None)
}

/// The number of the first member that C16 refuses: another before it has its name and descriptor.
pub(crate) fn duplicate_member(
    alloc: Global,
    c: &ClassFile,
    facts: &[Option<TextFacts>],
) -> Result<Option<u32>, OutOfMemory>
    requires few_fields { length c.now.fields < 2 ^ 16 }
    requires few_methods { length c.now.methods < 2 ^ 16 }
    requires known { AreFacts c.now.pool facts.now }
    ensures { IfOk result (IsLeastSpot (IsDuplicate c.now)) }
{
    if let Some(i) = first_repeat(alloc, facts, c.fields.as_slice())? {
        return Ok(Some(i as u32 + 1));
    }
    if let Some(i) = first_repeat(alloc, facts, c.methods.as_slice())? {
        return Ok(Some((c.fields.len() + i + 1) as u32));
    }
    Ok(None)
}
