//! Reads the types of methods: the Java Virtual Machine Specification, second edition, 4.3.3.

ghost use Rattle.std.specs.Prelude.{◌≡◌, ℕ, ◌<◌, ◌≤◌, ◌⊎◌, ◌^◌, List, length, MatchResult, IfOk, Err};
ghost use Rattle.jk_model.specs.declared.descriptors.MethodType.{MethodType};
ghost use Rattle.jk_model.specs.Descriptors.{IsMethodText, IsBadMethodText};
ghost use Rattle.descriptors.specs.Stops.{IsStop};
ghost use Rattle.descriptors.specs.PartTexts.{IsParamsText, IsResultText, ReadsParams, ReadsResult, ReadsMethod};
ghost use Rattle.jk_model.specs.Descriptors.{IsMethodDescriptor};
ghost use Rattle.descriptors.specs.TypeOrPlace.{IsMethodAnswer};

use crate::error::{DescriptorError, bad_before, rest_after};
use crate::fields::next_field;
use jk_model::{FieldType, List, MethodType};
use std::alloc::Global;

const OPEN: u16 = b'(' as u16;

const CLOSE: u16 = b')' as u16;

const VOID: u16 = b'V' as u16;

/// The parameters in front of the closing parenthesis, and what follows it.
fn next_params(
    alloc: Global,
    units: &[u16],
    whole: usize,
) -> Result<(List<FieldType>, &[u16]), DescriptorError>
    requires within { length units.now ≤ whole }
    requires short { whole < 2 ^ 31 }
    ensures { MatchResult result (λ found. ReadsParams units.now found.0 found.1.now) (IsStop IsParamsText units.now whole) }
{
    let mut params = List::new(alloc);
    let mut rest = units;
    loop {
        if let Some(closed) = rest_after(rest, CLOSE) {
            return Ok((params, closed));
        }
        let (param, after) = next_field(alloc, rest, whole)?;
        params.push(param)?;
        rest = after;
    }
}

/// The result in front, and what follows it.
fn next_result(
    alloc: Global,
    units: &[u16],
    whole: usize,
) -> Result<(Option<FieldType>, &[u16]), DescriptorError>
    requires within { length units.now ≤ whole }
    requires short { whole < 2 ^ 31 }
    ensures { MatchResult result (λ found. ReadsResult units.now found.0 found.1.now) (IsStop IsResultText units.now whole) }
{
    if let Some(rest) = rest_after(units, VOID) {
        return Ok((None, rest));
    }
    let (found, rest) = next_field(alloc, units, whole)?;
    Ok((Some(found), rest))
}

/// The type of a method in front, and what follows it.
fn next_method(
    alloc: Global,
    units: &[u16],
    whole: usize,
) -> Result<(MethodType, &[u16]), DescriptorError>
    requires within { length units.now ≤ whole }
    requires short { whole < 2 ^ 31 }
    ensures { MatchResult result (λ found. ReadsMethod units.now found.0 found.1.now) (IsStop IsMethodDescriptor units.now whole) }
{
    let Some(opened) = rest_after(units, OPEN) else {
        return Err(bad_before(units, whole));
    };
    let (params, closed) = next_params(alloc, opened, whole)?;
    let (result, rest) = next_result(alloc, closed, whole)?;
    Ok((MethodType { params, result }, rest))
}

/// The type of a method, or where its descriptor stops being one.
fn read(alloc: Global, units: &[u16]) -> Result<MethodType, DescriptorError>
    requires { length units.now < 2 ^ 31 }
    ensures { IsMethodAnswer units.now result }
{
    let (found, rest) = next_method(alloc, units, units.len())?;
    if !rest.is_empty() {
        return Err(bad_before(rest, units.len()));
    }
    Ok(found)
}

/// The type of a method by its descriptor, in time linear in its units.
///
/// A descriptor has the types of the parameters between parentheses, and after them the type of the result,
/// or `V` where there is none. Other units are refused as those of a field are.
pub fn method_type(alloc: Global, units: &[u16]) -> Result<MethodType, DescriptorError>
    requires { length units.now < 2 ^ 31 }
    ensures read { IfOk result (λ m. IsMethodText units.now m) }
    // A descriptor is of one type, and it is found unless memory runs out.
    ensures only { (m : MethodType) → IsMethodText units.now m
        → MatchResult result (λ found. found ≡ m) (λ e. e ≡ DescriptorError.OutOfMemory) }
    ensures bad { (n : ℕ) → result ≡ Err (DescriptorError.BadDescriptor n) → IsBadMethodText units.now n }
    // Other units are refused so, unless memory runs out.
    ensures only_bad { (n : ℕ) → IsBadMethodText units.now n
        → MatchResult result (λ _. ⊥) (λ e. (e ≡ DescriptorError.BadDescriptor n) ⊎ (e ≡ DescriptorError.OutOfMemory)) }
{
    read(alloc, units)
}
