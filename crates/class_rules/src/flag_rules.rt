//! The rules C12 and C13: methods that are synchronized or native, and codes with monitors.

ghost use Rattle.std.specs.Prelude.{◌≡◌, ◌<◌, ◌⊎◌, ◌^◌, ◌↔◌, IsTrue, IfSome, length};
ghost use Rattle.jk_model.specs.declared.class_file.MemberInfo.{MemberInfo};
ghost use Rattle.jk_model_classes.specs.MemberCode.{UsesMonitor, IsNative};
ghost use Rattle.class_rules.specs.Answers.{IsLeastSpot};
ghost use Rattle.class_rules.specs.CodeRules.{AreMethodsJudged};
ghost use Rattle.class_rules.specs.FlagRules.{HasFlagged};
ghost use Rattle.class_rules.specs.KnownPools.{IsKnown};
ghost use Rattle.class_rules.specs.Texts.{AreFacts};
ghost use Rattle.class_rules.specs.Walks.{IsLeastItem};

use crate::attributes::method_flags;
use crate::code_rules::{CodeRule, first_code};
use crate::codes::CodeJudgment;
use crate::known_pool::KnownPool;
use crate::members::{FirstPlaces, earlier};
use crate::texts::TextFacts;
use jk_model::{AccessFlags, ClassFile, MemberInfo, has};

/// Whether a flag that counts of a method is set.
fn is_flagged(pool: &KnownPool, flag: AccessFlags, method: &MemberInfo) -> bool
    requires { IsKnown pool.now }
    ensures { IsTrue result ↔ HasFlagged pool.now.entries.now flag.0 method.now }
{
    has(method_flags(pool, method), flag)
}

/// The place of the first method that has a flag.
fn first_flagged(pool: &KnownPool, flag: AccessFlags, methods: &[MemberInfo]) -> Option<usize>
    requires { IsKnown pool.now }
    ensures least { IsLeastItem (HasFlagged pool.now.entries.now flag.0) methods.now result }
    ensures within { IfSome result (λ i. i < length methods.now) }
{
    for (i, method) in methods.iter().enumerate() {
        if is_flagged(pool, flag, method) {
            return Some(i);
        }
    }
    None
}

/// The number of the least method that is native.
pub(crate) fn native_method(c: &ClassFile, facts: &[Option<TextFacts>]) -> Option<u32>
    requires known { AreFacts c.now.pool facts.now }
    requires fields { length c.now.fields < 2 ^ 16 }
    requires methods { length c.now.methods < 2 ^ 16 }
    ensures { IsLeastSpot (IsNative c.now) result }
{
    let pool = KnownPool::of(c, facts);
    let places = FirstPlaces {
        class: false,
        field: None,
        method: first_flagged(&pool, AccessFlags::NATIVE, c.methods.as_slice()),
        entry: None,
    };
    places.number(c.fields.len())
}

/// The number of the least method that is synchronized, or whose code has an opcode on monitors.
pub(crate) fn bad_monitor(
    c: &ClassFile,
    facts: &[Option<TextFacts>],
    judged: &[Option<CodeJudgment>],
) -> Option<u32>
    requires known { AreFacts c.now.pool facts.now }
    requires judged { AreMethodsJudged c.now judged.now }
    requires fields { length c.now.fields < 2 ^ 16 }
    requires methods { length c.now.methods < 2 ^ 16 }
    ensures { IsLeastSpot (UsesMonitor c.now) result }
{
    let pool = KnownPool::of(c, facts);
    let by_code = first_code(CodeRule::Monitors, judged);
    let by_flag = first_flagged(&pool, AccessFlags::SYNCHRONIZED, c.methods.as_slice());
    let places = FirstPlaces {
        class: false,
        field: None,
        method: earlier(by_code, by_flag),
        entry: None,
    };
    places.number(c.fields.len())
}
