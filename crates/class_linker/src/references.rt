//! The classes to which a class file refers. Each text is read once, however many entries name it.

ghost use Rattle.std.specs.Prelude.{◌≡◌, ◌↔◌, ◌<◌, ◌⊎◌, ◌^◌, [], ℕ, IfOk, IsSome, IsTrue, OnOk, length, map};
ghost use Rattle.jk_model.specs.declared.descriptors.FieldType.{FieldType};
ghost use Rattle.jk_model.specs.declared.identifiers.ClassId.{ClassId};
ghost use Rattle.jk_model.specs.Descriptors.{IsFieldText};
ghost use Rattle.jk_model_classes.specs.ClassNames.{BeginsArray};
ghost use Rattle.jk_model_classes.specs.Items.{HasItem};
ghost use Rattle.jk_model_classes.specs.LinkRules.{LinkScope};
ghost use Rattle.jk_model_classes.specs.References.{IsDescriptorEntry, IsOfClass, IsResultOfClass, Mentions};
ghost use Rattle.jk_model_classes.specs.Worlds.{class_named};
ghost use Rattle.jk_model_folders.specs.LinkedClasses.{AreReferences};
ghost use Rattle.class_linker.specs.KnownReferences.{Adds, AreKnown, IsGoodName, IsNameEntry, IsNamedBy, RefersBy};
ghost use Rattle.class_linker.specs.LinkedFiles.{HasNames};
ghost use Rattle.class_linker.specs.Scopes.{IsScope};

use crate::entry_names::begins_array;
use crate::marks::{descriptor_marks, is_marked, name_marks};
use crate::scope::{Scope, class_of};
use crate::types::only_memory;
use descriptors::{DescriptorError, field_type, method_type};
use domain_resolver::NameTable;
use jk_model::{Base, ClassId, FieldType, List, OutOfMemory};
use std::alloc::Global;

// ---- The numbers of the classes in a descriptor.

/// Adds the class that an array's elements, or a value that is no array, are of.
fn add_base(names: &NameTable, numbers: &mut Vec<u32>, base: &Base) -> Result<(), OutOfMemory>
    requires { AreKnown (class_named names.now) (λ name. base.now ≡ Base.Class name) }
    ensures { OnOk result (Adds (class_named names.now) (λ name. base.now ≡ Base.Class name) numbers.old.items numbers.new.items) }
{
    if let Base::Class(name) = base {
        numbers.push(class_of(names, name.as_slice()).0)?;
    }
    Ok(())
}

/// Adds the classes of some types.
fn add_types(
    names: &NameTable,
    numbers: &mut Vec<u32>,
    types: &[FieldType],
) -> Result<(), OutOfMemory>
    requires { AreKnown (class_named names.now) (λ name. HasItem (IsOfClass name) types.now) }
    ensures { OnOk result (Adds (class_named names.now) (λ name. HasItem (IsOfClass name) types.now) numbers.old.items numbers.new.items) }
{
    for t in types {
        add_base(names, numbers, &t.base)?;
    }
    Ok(())
}

/// Adds the class of what a method returns.
fn add_result(
    names: &NameTable,
    numbers: &mut Vec<u32>,
    of: &Option<FieldType>,
) -> Result<(), OutOfMemory>
    requires { AreKnown (class_named names.now) (λ name. IsResultOfClass name of.now) }
    ensures { OnOk result (Adds (class_named names.now) (λ name. IsResultOfClass name of.now) numbers.old.items numbers.new.items) }
{
    match of {
        Some(t) => add_base(names, numbers, &t.base),
        None => Ok(()),
    }
}

/// Adds the classes in the descriptor of a method; what is none has none.
fn add_method(scope: &Scope, numbers: &mut Vec<u32>, units: &[u16]) -> Result<(), OutOfMemory>
    requires short { length units.now < 2 ^ 31 }
    requires known { AreKnown (class_named scope.now.names.now) (Mentions units.now) }
    requires method { (t : FieldType) → IsFieldText units.now t → ⊥ }
    ensures { OnOk result (Adds (class_named scope.now.names.now) (Mentions units.now) numbers.old.items numbers.new.items) }
{
    match method_type(scope.alloc, units) {
        Ok(kind) => {
            add_types(scope.names, numbers, kind.params.as_slice())?;
            add_result(scope.names, numbers, &kind.result)
        }
        Err(DescriptorError::OutOfMemory) => Err(OutOfMemory),
        Err(DescriptorError::BadDescriptor(_)) => Ok(()),
    }
}

/// Adds the classes in a descriptor; what is none has none.
fn add_descriptor(scope: &Scope, numbers: &mut Vec<u32>, units: &[u16]) -> Result<(), OutOfMemory>
    requires short { length units.now < 2 ^ 31 }
    requires known { AreKnown (class_named scope.now.names.now) (Mentions units.now) }
    ensures { OnOk result (Adds (class_named scope.now.names.now) (Mentions units.now) numbers.old.items numbers.new.items) }
{
    match field_type(scope.alloc, units) {
        Ok(t) => add_base(scope.names, numbers, &t.base),
        Err(DescriptorError::OutOfMemory) => Err(OutOfMemory),
        Err(DescriptorError::BadDescriptor(_)) => add_method(scope, numbers, units),
    }
}

// ---- The numbers of the classes in the name of a Class entry.

/// Adds the class of a name.
fn add_class(names: &NameTable, numbers: &mut Vec<u32>, name: &[u16]) -> Result<(), OutOfMemory>
    requires { IsSome (class_named names.now name.now) }
    ensures { OnOk result (Adds (class_named names.now) (λ other. other ≡ name.now) numbers.old.items numbers.new.items) }
{
    numbers.push(class_of(names, name).0)?;
    Ok(())
}

/// The type that the name of an array says.
fn array_type(alloc: Global, name: &[u16]) -> Result<FieldType, OutOfMemory>
    requires short { length name.now < 2 ^ 31 }
    requires some { ((t : FieldType) → IsFieldText name.now t → ⊥) → ⊥ }
    ensures { IfOk result (IsFieldText name.now) }
{
    match field_type(alloc, name) {
        Ok(t) => Ok(t),
        Err(e) => Err(only_memory(e)),
    }
}

/// Adds the class that arrays of this name are of in the end.
fn add_array(scope: &Scope, numbers: &mut Vec<u32>, name: &[u16]) -> Result<(), OutOfMemory>
    requires short { length name.now < 2 ^ 31 }
    requires good { IsGoodName (class_named scope.now.names.now) name.now }
    requires array { BeginsArray name.now }
    ensures { OnOk result (Adds (class_named scope.now.names.now) (IsNamedBy name.now) numbers.old.items numbers.new.items) }
{
    let t = array_type(scope.alloc, name)?;
    add_base(scope.names, numbers, &t.base)
}

/// Adds the class that the name of a Class entry says, or that its arrays are of in the end.
fn add_named(scope: &Scope, numbers: &mut Vec<u32>, name: &[u16]) -> Result<(), OutOfMemory>
    requires short { length name.now < 2 ^ 31 }
    requires good { IsGoodName (class_named scope.now.names.now) name.now }
    ensures { OnOk result (Adds (class_named scope.now.names.now) (IsNamedBy name.now) numbers.old.items numbers.new.items) }
{
    if begins_array(name) {
        add_array(scope, numbers, name)
    } else {
        add_class(scope.names, numbers, name)
    }
}

// ---- The numbers of the classes of all texts.

/// Adds the classes of a text, if it is the name of a Class entry.
fn add_if_name(
    scope: &Scope,
    numbers: &mut Vec<u32>,
    text: &[u16],
    is_name: bool,
) -> Result<(), OutOfMemory>
    requires short { length text.now < 2 ^ 31 }
    requires good { IsTrue is_name → IsGoodName (class_named scope.now.names.now) text.now }
    ensures { OnOk result
        (Adds (class_named scope.now.names.now) (λ name. IsTrue is_name × IsNamedBy text.now name) numbers.old.items numbers.new.items) }
{
    if is_name {
        add_named(scope, numbers, text)
    } else {
        Ok(())
    }
}

/// Adds the classes of a text, if it is a descriptor.
fn add_if_descriptor(
    scope: &Scope,
    numbers: &mut Vec<u32>,
    text: &[u16],
    is_descriptor: bool,
) -> Result<(), OutOfMemory>
    requires short { length text.now < 2 ^ 31 }
    requires known { IsTrue is_descriptor → AreKnown (class_named scope.now.names.now) (Mentions text.now) }
    ensures { OnOk result
        (Adds (class_named scope.now.names.now) (λ name. IsTrue is_descriptor × Mentions text.now name) numbers.old.items numbers.new.items) }
{
    if is_descriptor {
        add_descriptor(scope, numbers, text)
    } else {
        Ok(())
    }
}

/// Adds the classes of a text, as the name of a Class entry, as a descriptor, or as both.
fn add_text(
    scope: &Scope,
    numbers: &mut Vec<u32>,
    text: &[u16],
    is_name: bool,
    is_descriptor: bool,
) -> Result<(), OutOfMemory>
    requires short { length text.now < 2 ^ 31 }
    requires good { IsTrue is_name → IsGoodName (class_named scope.now.names.now) text.now }
    requires known { IsTrue is_descriptor → AreKnown (class_named scope.now.names.now) (Mentions text.now) }
    ensures { OnOk result
        (Adds (class_named scope.now.names.now) (λ name. (IsTrue is_name × IsNamedBy text.now name) ⊎ (IsTrue is_descriptor × Mentions text.now name))
        numbers.old.items numbers.new.items) }
{
    add_if_name(scope, numbers, text, is_name)?;
    add_if_descriptor(scope, numbers, text, is_descriptor)
}

/// Adds the classes to which the file refers by its text at an index, if one stands there.
fn add_at(
    scope: &Scope,
    numbers: &mut Vec<u32>,
    i: u16,
    is_name: bool,
    is_descriptor: bool,
) -> Result<(), OutOfMemory>
    requires scope { IsScope scope.now }
    requires name { IsTrue is_name ↔ IsNameEntry scope.now.file.now.pool i }
    requires descriptor { IsTrue is_descriptor ↔ IsDescriptorEntry scope.now.file.now i }
    ensures { OnOk result (Adds (class_named scope.now.names.now) (RefersBy scope.now.file.now i) numbers.old.items numbers.new.items) }
{
    match scope.texts.text(i) {
        Some(text) => add_text(scope, numbers, text.as_slice(), is_name, is_descriptor),
        None => Ok(()),
    }
}

/// The numbers of the classes to which the file refers, in no order and some of them more than once.
fn numbers(scope: &Scope) -> Result<Vec<u32>, OutOfMemory>
    requires { IsScope scope.now }
    ensures { IfOk result (λ numbers. Adds (class_named scope.now.names.now) (λ name. (i : ℕ) × RefersBy scope.now.file.now i name) [] numbers.items) }
{
    let names = name_marks(scope.alloc, scope.file)?;
    let descriptors = descriptor_marks(scope.alloc, scope.file)?;
    let mut numbers = Vec::new(scope.alloc);
    let end = scope.file.pool.len() as u16;
    for i in 0..end {
        let is_name = is_marked(names.as_slice(), i);
        let is_descriptor = is_marked(descriptors.as_slice(), i);
        add_at(scope, &mut numbers, i, is_name, is_descriptor)?;
    }
    Ok(numbers)
}

/// The classes of these numbers, in their order.
fn classes_of(alloc: Global, numbers: &[u32]) -> Result<List<ClassId>, OutOfMemory>
    ensures { IfOk result (λ classes. map (λ (class : ClassId). class.0) classes ≡ numbers.now) }
{
    let mut classes = List::new(alloc);
    for number in numbers {
        classes.push(ClassId(*number))?;
    }
    Ok(classes)
}

/// The classes to which a class file refers, in rising number and each once. It takes memory in proportion to the file, and
/// time in proportion to it too, but for the sort of as many numbers as the file has names of classes.
pub(crate) fn references(scope: &Scope) -> Result<List<ClassId>, OutOfMemory>
    requires { IsScope scope.now }
    ensures { IfOk result (λ list. (s : LinkScope) → HasNames scope.now.names.now s → AreReferences s scope.now.file.now list) }
{
    let mut numbers = numbers(scope)?;
    numbers.sort()?;
    numbers.dedup();
    classes_of(scope.alloc, numbers.as_slice())
}
