//! Where a switch goes on.

ghost use Rattle.std.specs.Prelude.{◌≡◌, ℤ, map};
ghost use Rattle.jk_model.specs.Instructions.{Rises};
ghost use Rattle.jk_model_domains.specs.NumberRows.{switch_target};
ghost use Rattle.number_ops.specs.Operands.{keys_of};

use jk_model::Instr;

/// Where a switch goes on at a key, by a binary search of its cases.
pub(crate) fn target(i: &Instr, key: i32) -> i32
    requires { Rises (keys_of i.now.cases) }
    ensures { result ≡ switch_target i.now key }
{
    let cases = i.cases.as_slice();
    match cases.binary_search_by_key(&key, |c| c.key) {
        Ok(place) => cases[place].target,
        Err(_) => i.a,
    }
}
