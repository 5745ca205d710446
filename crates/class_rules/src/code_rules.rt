//! The rules that ask of codes alone, and the least spots that break them.

ghost use Rattle.std.specs.Prelude.{◌≡◌, ℕ, ◌<◌, ◌^◌, IsTrue, Option, IfOk, IfSome, Some, slice_get, length};
ghost use Rattle.jk_model.specs.declared.class_file.MemberInfo.{MemberInfo};
ghost use Rattle.jk_model_classes.specs.MemberAttributes.{HasBadAttribute};
ghost use Rattle.jk_model_classes.specs.Items.{Spot};
ghost use Rattle.class_rules.specs.Answers.{IsLeastSpot};
ghost use Rattle.class_rules.specs.Attributes.{HasBadMethodAttributes, HaveShort};
ghost use Rattle.class_rules.specs.CodeRules.{AreMethodsJudged, AreJudged, breaks, IsCodeRuleBroken};
ghost use Rattle.class_rules.specs.Texts.{AreFacts};
ghost use Rattle.class_rules.specs.Walks.{IsLeastItem};
ghost use Rattle.class_rules.specs.declared.codes.CodeJudgment.{CodeJudgment};

use crate::codes::CodeJudgment;
use crate::members::FirstPlaces;
use crate::method_codes::judge_method;
use crate::texts::TextFacts;
use jk_model::{ClassFile, List, MemberInfo, OutOfMemory};
use std::alloc::Global;

/// A rule that asks of codes alone.
#[derive(Clone, Copy)]
pub(crate) enum CodeRule {
    /// The part of C10 on codes.
    Floats,
    /// C11
    Subroutines,
    /// The part of C12 on codes.
    Monitors,
    /// C14
    ClassConstants,
    /// C15
    BadCode,
}

/// What the code of each of these methods says.
fn judge_each(
    alloc: Global,
    c: &ClassFile,
    facts: &[Option<TextFacts>],
    methods: &[MemberInfo],
) -> Result<List<Option<CodeJudgment>>, OutOfMemory>
    requires facts { AreFacts c.now.pool facts.now }
    requires short { HaveShort methods.now }
    requires attributes { (i : ℕ) (m : MemberInfo) → slice_get methods.now i ≡ Some m
        → HasBadMethodAttributes c.now m → ⊥ }
    ensures { IfOk result (λ judged. AreJudged c.now methods.now judged) }
{
    let mut judged = List::new(alloc);
    for method in methods {
        let found = judge_method(alloc, c, facts, method)?;
        judged.push(found)?;
    }
    Ok(judged)
}

/// What the code of each method says, where no attribute breaks C9. No code is decoded twice.
pub(crate) fn judge_methods(
    alloc: Global,
    c: &ClassFile,
    facts: &[Option<TextFacts>],
) -> Result<List<Option<CodeJudgment>>, OutOfMemory>
    requires facts { AreFacts c.now.pool facts.now }
    requires short { HaveShort c.now.methods }
    requires attributes { (spot : Spot) → HasBadAttribute c.now spot → ⊥ }
    ensures { IfOk result (λ judged. AreMethodsJudged c.now judged) }
{
    judge_each(alloc, c, facts, c.methods.as_slice())
}

/// Whether the code of a method breaks a rule.
fn breaks(rule: CodeRule, judged: &Option<CodeJudgment>) -> bool
    ensures { result ≡ breaks rule judged.now }
{
    match judged {
        Some(judgment) => match rule {
            CodeRule::Floats => judgment.has_float,
            CodeRule::Subroutines => judgment.has_subroutine,
            CodeRule::Monitors => judgment.has_monitor,
            CodeRule::ClassConstants => judgment.loads_class,
            CodeRule::BadCode => judgment.is_bad,
        },
        None => false,
    }
}

/// The place of the first method whose code breaks a rule.
pub(crate) fn first_code(rule: CodeRule, judged: &[Option<CodeJudgment>]) -> Option<usize>
    ensures least { IsLeastItem (λ (j : Option CodeJudgment). IsTrue (breaks rule j)) judged.now result }
    ensures within { IfSome result (λ i. i < length judged.now) }
{
    for (i, found) in judged.iter().enumerate() {
        if breaks(rule, found) {
            return Some(i);
        }
    }
    None
}

/// The number of the least spot whose code breaks a rule.
pub(crate) fn bad_code(
    c: &ClassFile,
    judged: &[Option<CodeJudgment>],
    rule: CodeRule,
) -> Option<u32>
    requires judged { AreMethodsJudged c.now judged.now }
    requires fields { length c.now.fields < 2 ^ 16 }
    requires methods { length c.now.methods < 2 ^ 16 }
    ensures { IsLeastSpot (IsCodeRuleBroken rule c.now) result }
{
    let places = FirstPlaces {
        class: false,
        field: None,
        method: first_code(rule, judged),
        entry: None,
    };
    places.number(c.fields.len())
}
