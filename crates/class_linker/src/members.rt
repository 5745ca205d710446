//! The records of a class's fields and methods.

ghost use Rattle.std.specs.Prelude.{◌≡◌, IfOk};
ghost use Rattle.jk_model.specs.declared.class_file.Attribute.{Attribute};
ghost use Rattle.jk_model.specs.ClassFile.{CodeLayout};
ghost use Rattle.jk_model_classes.specs.ClassFlags.{MethodFlags};
ghost use Rattle.jk_model_classes.specs.Items.{HasItem};
ghost use Rattle.jk_model_classes.specs.LinkRules.{LinkScope};
ghost use Rattle.jk_model_classes.specs.MemberAttributes.{IsCodeAttribute};
ghost use Rattle.jk_model_classes.specs.Worlds.{class_named};
ghost use Rattle.jk_model_folders.specs.LinkedClasses.{GoAlong, IsBodyFor, IsFieldFor, IsMethodFor};
ghost use Rattle.class_linker.specs.KnownDescriptors.{AreKindsKnown, AreTypesKnown};
ghost use Rattle.class_linker.specs.KnownMembers.{HasBodies, HasSomeBody, IsGoodField, IsGoodMethod, IsKnownBody};
ghost use Rattle.class_linker.specs.LinkedFiles.{HasNames};
ghost use Rattle.class_linker.specs.Scopes.{IsScope};

use crate::code::linked_code;
use crate::constants::constant_of;
use crate::kinds::{field_type_at, method_kind_at, nothing_yet};
use crate::scope::Scope;
use crate::types::MethodKind;
use class_reader::{CodeRefusal, read_code};
use jk_model::{AccessFlags, Attribute, Code, List, MemberInfo, OutOfMemory, has};
use jk_model_classes::{Body, FieldRecord, MethodRecord, TypeRef};
use std::alloc::Global;

/// The record of a field, by the types that are known already.
fn field_record(
    scope: &Scope,
    known: &mut List<Option<TypeRef>>,
    field: &MemberInfo,
) -> Result<FieldRecord, OutOfMemory>
    requires scope { IsScope scope.now }
    requires known { AreTypesKnown (class_named scope.now.names.now) scope.now.file.now.pool known.old }
    requires good { IsGoodField (class_named scope.now.names.now) scope.now.file.now.pool field.now }
    ensures made { IfOk result (λ f. (s : LinkScope) → HasNames scope.now.names.now s → IsFieldFor s scope.now.file.now field.now f) }
    ensures known { AreTypesKnown (class_named scope.now.names.now) scope.now.file.now.pool known.new }
{
    let kind = field_type_at(scope, known, field.descriptor)?;
    let name = scope.text(field.name).share()?;
    let constant = constant_of(scope, field, kind)?;
    Ok(FieldRecord {
        name,
        flags: field.flags,
        kind,
        constant,
    })
}

/// The records of a class's fields, in their order.
pub(crate) fn field_records(scope: &Scope) -> Result<List<FieldRecord>, OutOfMemory>
    requires { IsScope scope.now }
    ensures { IfOk result (λ list. (s : LinkScope) → HasNames scope.now.names.now s
        → GoAlong (IsFieldFor s scope.now.file.now) scope.now.file.now.fields list) }
{
    let mut known = nothing_yet(scope.alloc, scope.file.pool.len())?;
    let mut made = List::new(scope.alloc);
    for field in scope.file.fields.as_slice() {
        made.push(field_record(scope, &mut known, field)?)?;
    }
    Ok(made)
}

/// Why the body of a Code isn't read that is one.
fn only_memory(e: CodeRefusal) -> OutOfMemory
    requires { e ≡ CodeRefusal.OutOfMemory }
{
    match e {
        CodeRefusal::OutOfMemory => OutOfMemory,
        _ => unreachable!(),
    }
}

/// What the body of a Code says.
fn code_of(alloc: Global, body: &[u8]) -> Result<Code, OutOfMemory>
    requires { IsKnownBody body.now }
    ensures { IfOk result (CodeLayout body.now) }
{
    match read_code(alloc, body) {
        Ok(code) => Ok(code),
        Err(e) => Err(only_memory(e)),
    }
}

/// What the first Code among these attributes says.
fn method_code(scope: &Scope, attributes: &[Attribute]) -> Result<Code, OutOfMemory>
    requires scope { IsScope scope.now }
    requires some { HasSomeBody scope.now.file.now.pool attributes.now }
    requires bodies { HasBodies scope.now.file.now.pool attributes.now }
    ensures { IfOk result (λ code. HasItem (λ (a : Attribute). IsCodeAttribute scope.now.file.now.pool a × CodeLayout a.body code) attributes.now) }
{
    for a in attributes {
        if scope.spells(a.name, "Code") {
            return code_of(scope.alloc, a.body.as_slice());
        }
    }
    unreachable!()
}

/// The flags that count of a method.
fn method_flags(scope: &Scope, method: &MemberInfo) -> u16
    requires { IsScope scope.now }
    ensures { MethodFlags scope.now.file.now method.now result }
{
    if scope.spells(method.name, "<clinit>") {
        AccessFlags::STATIC.0
    } else {
        method.flags
    }
}

/// What a method with these flags runs.
fn method_body(scope: &Scope, method: &MemberInfo, flags: u16) -> Result<Body, OutOfMemory>
    requires scope { IsScope scope.now }
    requires good { IsGoodMethod scope.now.file.now (class_named scope.now.names.now) method.now }
    requires flags { MethodFlags scope.now.file.now method.now flags }
    ensures { IfOk result (λ body. (s : LinkScope) → HasNames scope.now.names.now s → IsBodyFor s scope.now.file.now method.now flags body) }
{
    if has(flags, AccessFlags::ABSTRACT) {
        return Ok(Body::Absent);
    }
    let code = method_code(scope, method.attributes.as_slice())?;
    let linked = linked_code(scope, &code)?;
    Ok(Body::Linked(linked))
}

/// The record of a method, by the types that are known already.
fn method_record(
    scope: &Scope,
    known: &mut List<Option<MethodKind>>,
    method: &MemberInfo,
) -> Result<MethodRecord, OutOfMemory>
    requires scope { IsScope scope.now }
    requires known { AreKindsKnown (class_named scope.now.names.now) scope.now.file.now.pool known.old }
    requires good { IsGoodMethod scope.now.file.now (class_named scope.now.names.now) method.now }
    ensures made { IfOk result (λ m. (s : LinkScope) → HasNames scope.now.names.now s → IsMethodFor s scope.now.file.now method.now m) }
    ensures known { AreKindsKnown (class_named scope.now.names.now) scope.now.file.now.pool known.new }
{
    let types = method_kind_at(scope, known, method.descriptor)?;
    let name = scope.text(method.name).share()?;
    let flags = method_flags(scope, method);
    let body = method_body(scope, method, flags)?;
    Ok(MethodRecord {
        name,
        flags,
        kind: types.kind,
        params: types.params,
        result: types.returns,
        body,
    })
}

/// The records of a class's methods, in their order.
pub(crate) fn method_records(scope: &Scope) -> Result<List<MethodRecord>, OutOfMemory>
    requires { IsScope scope.now }
    ensures { IfOk result (λ list. (s : LinkScope) → HasNames scope.now.names.now s
        → GoAlong (IsMethodFor s scope.now.file.now) scope.now.file.now.methods list) }
{
    let mut known = nothing_yet(scope.alloc, scope.file.pool.len())?;
    let mut made = List::new(scope.alloc);
    for method in scope.file.methods.as_slice() {
        made.push(method_record(scope, &mut known, method)?)?;
    }
    Ok(made)
}
