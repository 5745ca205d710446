//! What the code of each method says. Each code is read and decoded once.

ghost use Rattle.std.specs.Prelude.{◌≡◌, ℕ, ◌↔◌, ◌<◌, ◌^◌, IfOk, MatchOption};
ghost use Rattle.jk_model.specs.declared.class_file.Code.{Code};
ghost use Rattle.jk_model_classes.specs.Items.{HasTwoItems};
ghost use Rattle.class_rules.specs.Attributes.{IsCalledBy, HasBadMethodAttributes, AreShort};
ghost use Rattle.class_rules.specs.KnownPools.{IsKnown};
ghost use Rattle.class_rules.specs.MethodCodes.{HasCodeBody, TakesMore, HasMoreSlots, IsMethodJudged};
ghost use Rattle.class_rules.specs.Texts.{AreFacts};
ghost use Rattle.class_rules.specs.declared.texts.Word.TheVariants as words;

use crate::attributes::{code_of, is_called, method_flags, needs_code};
use crate::codes::{CodeJudgment, judge_code};
use crate::known_pool::KnownPool;
use crate::texts::{MethodShape, TextFacts, Word};
use jk_model::{AccessFlags, Attribute, ClassFile, Code, MemberInfo, OutOfMemory, has};
use std::alloc::Global;

/// What the one Code among these attributes says, where it is laid out as one.
fn one_code(
    alloc: Global,
    pool: &KnownPool,
    attributes: &[Attribute],
) -> Result<Option<Code>, OutOfMemory>
    requires known { IsKnown pool.now }
    requires short { AreShort attributes.now }
    requires one { HasTwoItems (IsCalledBy pool.now.entries.now words.Code) attributes.now → ⊥ }
    ensures { IfOk result (λ found. MatchOption found
        ((code : Code) → HasCodeBody pool.now.entries.now attributes.now code → ⊥)
        (λ code. HasCodeBody pool.now.entries.now attributes.now code
        × ((other : Code) → HasCodeBody pool.now.entries.now attributes.now other → code ≡ other))) }
{
    for a in attributes {
        if is_called(pool, Word::Code, a) {
            return code_of(alloc, a.body.as_slice());
        }
    }
    Ok(None)
}

/// The slots of the arguments of a method of this shape, its receiver included where it isn't static.
fn slots_of(shape: Option<MethodShape>, is_static: bool) -> u32
    ensures { (max : ℕ) → max < 2 ^ 16 → (max < result) ↔ HasMoreSlots shape is_static max }
{
    match shape {
        Some(shape) => {
            if is_static {
                shape.slots
            } else {
                shape.slots.saturating_add(1)
            }
        }
        None => 0,
    }
}

/// The slots of the arguments of a method with these flags, its receiver included. A method whose descriptor is
/// none takes none.
fn arguments_of(pool: &KnownPool, flags: u16, method: &MemberInfo) -> u32
    requires { IsKnown pool.now }
    ensures { (max : ℕ) → max < 2 ^ 16 → (max < result) ↔ TakesMore pool.now.entries.now flags method.now max }
{
    match pool.text(method.descriptor) {
        Some(descriptor) => slots_of(descriptor.method, has(flags, AccessFlags::STATIC)),
        None => 0,
    }
}

/// What the code of a method says, where it has one and its attributes break no rule.
pub(crate) fn judge_method(
    alloc: Global,
    c: &ClassFile,
    facts: &[Option<TextFacts>],
    method: &MemberInfo,
) -> Result<Option<CodeJudgment>, OutOfMemory>
    requires facts { AreFacts c.now.pool facts.now }
    requires short { AreShort method.now.attributes }
    requires attributes { HasBadMethodAttributes c.now method.now → ⊥ }
    ensures { IfOk result (λ found. IsMethodJudged c.now method.now found) }
{
    let pool = KnownPool::of(c, facts);
    let flags = method_flags(&pool, method);
    if !needs_code(flags) {
        return Ok(None);
    }
    let Some(code) = one_code(alloc, &pool, method.attributes.as_slice())? else {
        return Ok(None);
    };
    let arguments = arguments_of(&pool, flags, method);
    let judgment = judge_code(alloc, &pool, &code, arguments)?;
    Ok(Some(judgment))
}
