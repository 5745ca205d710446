//! The least spot that breaks the rule C9.

ghost use Rattle.std.specs.Prelude.{◌≡◌, ◌<◌, ◌^◌, IfOk, IfSome, length};
ghost use Rattle.jk_model_classes.specs.MemberAttributes.{HasBadAttribute};
ghost use Rattle.class_rules.specs.Answers.{IsLeastSpot};
ghost use Rattle.class_rules.specs.Attributes.{HasBadFieldAttributes, HasBadMethodAttributes, HaveShort};
ghost use Rattle.class_rules.specs.KnownPools.{IsKnown};
ghost use Rattle.class_rules.specs.Texts.{AreFacts};
ghost use Rattle.class_rules.specs.Walks.{IsLeastItem};

use crate::attributes::{has_bad_field_attributes, has_bad_method_attributes, has_unnamed};
use crate::known_pool::KnownPool;
use crate::members::FirstPlaces;
use crate::texts::TextFacts;
use jk_model::{ClassFile, MemberInfo, OutOfMemory};
use std::alloc::Global;

/// The place of the first field that breaks C9.
fn first_field(pool: &KnownPool, fields: &[MemberInfo]) -> Option<usize>
    requires { IsKnown pool.now }
    ensures least { IsLeastItem (HasBadFieldAttributes pool.now.entries.now) fields.now result }
    ensures within { IfSome result (λ i. i < length fields.now) }
{
    for (i, field) in fields.iter().enumerate() {
        if has_bad_field_attributes(pool, field) {
            return Some(i);
        }
    }
    None
}

/// The place of the first method that breaks C9.
fn first_method(
    alloc: Global,
    c: &ClassFile,
    facts: &[Option<TextFacts>],
    methods: &[MemberInfo],
) -> Result<Option<usize>, OutOfMemory>
    requires facts { AreFacts c.now.pool facts.now }
    requires short { HaveShort methods.now }
    ensures least { IfOk result (λ r. IsLeastItem (HasBadMethodAttributes c.now) methods.now r) }
    ensures within { IfOk result (λ r. IfSome r (λ i. i < length methods.now)) }
{
    for (i, method) in methods.iter().enumerate() {
        let is_bad = has_bad_method_attributes(alloc, c, facts, method)?;
        if is_bad {
            return Ok(Some(i));
        }
    }
    Ok(None)
}

/// The number of the least spot whose attributes break C9.
pub(crate) fn bad_attributes(
    alloc: Global,
    c: &ClassFile,
    facts: &[Option<TextFacts>],
) -> Result<Option<u32>, OutOfMemory>
    requires known { AreFacts c.now.pool facts.now }
    requires fields { length c.now.fields < 2 ^ 16 }
    requires methods { length c.now.methods < 2 ^ 16 }
    requires short { HaveShort c.now.methods }
    ensures { IfOk result (λ n. IsLeastSpot (HasBadAttribute c.now) n) }
{
    let pool = KnownPool::of(c, facts);
    let method = first_method(alloc, c, facts, c.methods.as_slice())?;
    let places = FirstPlaces {
        class: has_unnamed(pool.entries, c.attributes.as_slice()),
        field: first_field(&pool, c.fields.as_slice()),
        method,
        entry: None,
    };
    Ok(places.number(c.fields.len()))
}
