//! What methods say they throw.

ghost use Rattle.std.specs.Prelude.{◌≡◌, ◌++◌, IfOk, OnOk, option_map};
ghost use Rattle.std.specs.List.{AllByRecursion};
ghost use Rattle.std.specs.Option.{option_to_list};
ghost use Rattle.jk_model.specs.ClassFile.{IsClassEntry, NamesEntry};
ghost use Rattle.jk_model_classes.specs.LinkRules.{LinkScope};
ghost use Rattle.jk_model_classes.specs.MemberAttributes.{AreThrown};
ghost use Rattle.jk_model_folders.specs.LinkedClasses.{AreThrownBy, GoAlong};
ghost use Rattle.class_texts.specs.PoolTexts.{AreTextsOf};
ghost use Rattle.class_linker.specs.LinkedFiles.{HasNames, IsLinkable};
ghost use Rattle.class_linker.specs.Scopes.{IsScope};
ghost use Rattle.class_linker.specs.ThrownClasses.{AreClassesIn, AreClassesOf, AreClassesThrown, IsExceptionsOf, IsItemOf};

use crate::classes::classes_in;
use crate::entry_names::class_of_entry;
use crate::scope::Scope;
use byte_fields::{ReadError, U2, counted_of};
use class_texts::ClassTexts;
use domain_resolver::NameTable;
use jk_model::{Attribute, ClassFile, ClassId, List, MemberInfo, OutOfMemory};
use std::alloc::Global;

/// The classes that each method of a class file says it throws, arrays left out. It takes time and memory in proportion to the
/// file.
pub fn thrown_classes(
    alloc: Global,
    c: &ClassFile,
    texts: &ClassTexts,
    names: &NameTable,
) -> Result<List<List<ClassId>>, OutOfMemory>
    requires linkable { IsLinkable c.now names.now }
    requires texts { AreTextsOf c.now.pool texts.now }
    ensures { IfOk result (λ lists. (s : LinkScope) → HasNames names.now s → GoAlong (AreThrownBy s c.now) c.now.methods lists) }
{
    let classes = classes_in(alloc, c, texts, names)?;
    let scope = Scope {
        alloc,
        file: c,
        texts,
        names,
        classes: classes.as_slice(),
    };
    thrown_in(&scope)
}

/// The classes that each method says it throws, arrays left out.
fn thrown_in(scope: &Scope) -> Result<List<List<ClassId>>, OutOfMemory>
    requires { IsScope scope.now }
    ensures { IfOk result (λ lists. (s : LinkScope) → HasNames scope.now.names.now s
        → GoAlong (AreThrownBy s scope.now.file.now) scope.now.file.now.methods lists) }
{
    let mut lists = List::new(scope.alloc);
    for method in scope.file.methods.as_slice() {
        let thrown = thrown_by(scope, method)?;
        lists.push(thrown)?;
    }
    Ok(lists)
}

/// The classes that a method says it throws, arrays left out.
fn thrown_by(scope: &Scope, method: &MemberInfo) -> Result<List<ClassId>, OutOfMemory>
    requires scope { IsScope scope.now }
    requires own { IsItemOf scope.now.file.now.methods method.now }
    ensures { IfOk result (λ thrown. AreClassesThrown scope.now.names.now scope.now.file.now method.now thrown) }
{
    match exceptions_of(scope, method.attributes.as_slice()) {
        Some(a) => classes_said(scope, a.body.as_slice()),
        None => Ok(List::new(scope.alloc)),
    }
}

/// The first of these attributes that is an Exceptions.
fn exceptions_of<'a>(scope: &Scope, attributes: &'a [Attribute]) -> Option<&'a Attribute>
    requires { IsScope scope.now }
    ensures { IsExceptionsOf scope.now.file.now.pool attributes.now (option_map (λ a. a.now) result) }
{
    for a in attributes {
        if scope.spells(a.name, "Exceptions") {
            return Some(a);
        }
    }
    None
}

/// The classes that the body of an Exceptions says, arrays left out.
fn classes_said(scope: &Scope, body: &[u8]) -> Result<List<ClassId>, OutOfMemory>
    requires scope { IsScope scope.now }
    requires body { (AreThrown scope.now.file.now.pool body.now → ⊥) → ⊥ }
    ensures { IfOk result (λ thrown. AreClassesIn scope.now.names.now scope.now.file.now body.now thrown) }
{
    match counted_of::<U2>(scope.alloc, body) {
        Ok(read) => classes_of(scope, read.0.as_slice()),
        Err(ReadError::EndsEarly) => unreachable!(),
        Err(ReadError::OutOfMemory) => Err(OutOfMemory),
    }
}

/// The classes of these Class entries, arrays left out.
fn classes_of(scope: &Scope, indices: &[u16]) -> Result<List<ClassId>, OutOfMemory>
    requires scope { IsScope scope.now }
    requires classes { AllByRecursion (NamesEntry IsClassEntry scope.now.file.now.pool) indices.now }
    ensures { IfOk result (λ thrown. AreClassesOf scope.now.names.now scope.now.file.now indices.now thrown) }
{
    let mut thrown = List::new(scope.alloc);
    for i in indices {
        let class = class_of_entry(scope, *i);
        add_some(&mut thrown, class)?;
    }
    Ok(thrown)
}

/// Puts a class at the end, if there is one.
fn add_some(thrown: &mut List<ClassId>, class: Option<ClassId>) -> Result<(), OutOfMemory>
    ensures { OnOk result (thrown.new ≡ thrown.old ++ option_to_list class) }
{
    match class {
        Some(class) => thrown.push(class),
        None => Ok(()),
    }
}
