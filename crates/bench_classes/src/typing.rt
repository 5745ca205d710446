//! The typing of methods' codes.

ghost use Rattle.std.specs.Prelude.{◌≡◌, IfSome};
ghost use Rattle.jk_model_typing.specs.Scopes.{CodeScope, IsScopeOf};

use crate::names::name;
use crate::records::{CLASS, OBJECT, Signature, class_record};
use crate::worlds::put;
use class_table::ClassTable;
use domain_resolver::World;
use jk_model::{ClassId, List, MemberId, OutOfMemory};
use jk_model_classes::{BaseRef, Body, LinkedCode, MethodRecord, TypeRef};
use shared_values::{Shared, Text};
use std::alloc::Global;
use type_verifier::verify;

/// The code of a method; none where there is no such method, or it has no code.
fn code_of(classes: &ClassTable, method: MemberId) -> Option<&LinkedCode>
    ensures { IfSome result (λ code. (s : CodeScope) → IsScopeOf classes.now method s → s.code ≡ code.now) }
{
    let class = classes.class(method.class)?;
    let method = class.methods.get(usize::from(method.index))?;
    match &method.body {
        Body::Linked(code) => Some(code),
        _ => None,
    }
}

/// How many instructions of a method control gets to; 0 where its code has no typing.
fn reached(alloc: Global, classes: &ClassTable, method: MemberId) -> Option<usize> {
    let code = code_of(classes, method)?;
    if code.instrs.len() > u32::MAX as usize {
        return None;
    }
    let Some(typing) = verify(alloc, classes, method).ok()? else {
        return Some(0);
    };
    let frames = typing.frames.as_slice();
    Some(frames.iter().filter(|frame| frame.is_some()).count())
}

/// Adds a class with these methods, and judges each of them. Answers how many instructions control gets to.
pub fn judged(
    alloc: Global,
    world: &mut World,
    methods: List<MethodRecord>,
    calls: bool,
) -> Option<usize> {
    let count = u16::try_from(methods.len()).ok()?;
    let mut class = class_record(alloc, &name(0, 0), CLASS, OBJECT).ok()?;
    class.methods = methods;
    let class = put(world, class)?;
    if !calls {
        return Some(0);
    }
    let mut all = 0usize;
    for index in 0..count {
        let method = MemberId { class, index };
        all = all.saturating_add(reached(alloc, world.classes(), method)?);
    }
    Some(all)
}

/// The same of one method alone, in a world of its own.
pub fn judged_alone(
    alloc: Global,
    method: Result<MethodRecord, OutOfMemory>,
    calls: bool,
) -> Option<usize> {
    let mut world = World::new(alloc).ok()?;
    let mut methods = List::new(alloc);
    methods.push(method.ok()?).ok()?;
    judged(alloc, &mut world, methods, calls)
}

/// The name of a method that stands alone.
pub fn own_name(alloc: Global) -> Result<Text, OutOfMemory> {
    Ok(Text::new(alloc, &name(1, 0))?)
}

/// What a method with parameters of these types has. Its descriptor, which no call here looks at, says nothing of them.
pub fn taking(alloc: Global, params: List<TypeRef>) -> Result<Signature, OutOfMemory> {
    let mut signature = Signature::empty(alloc)?;
    signature.params = Shared::new(alloc, params)?;
    Ok(signature)
}

/// The type of references to objects of a class, or to arrays of so many dimensions of such objects.
pub fn reference(dims: u8, class: ClassId) -> TypeRef {
    TypeRef {
        dims,
        base: BaseRef::Class(class),
    }
}
