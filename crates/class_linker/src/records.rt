//! The record of a class file.

ghost use Rattle.std.specs.Prelude.{◌≡◌, [], IfOk};
ghost use Rattle.jk_model_classes.specs.LinkRules.{LinkScope};
ghost use Rattle.jk_model_folders.specs.LinkedClasses.{GoAlong, IsRecordFor, NamesClassAt};
ghost use Rattle.class_texts.specs.PoolTexts.{AreTextsOf};
ghost use Rattle.class_linker.specs.LinkedFiles.{HasNames, IsLinkable};
ghost use Rattle.class_linker.specs.Scopes.{IsScope};

use crate::classes::classes_in;
use crate::members::{field_records, method_records};
use crate::references::references;
use crate::scope::Scope;
use class_texts::ClassTexts;
use domain_resolver::NameTable;
use jk_model::{ClassFile, ClassId, DomainId, List, OutOfMemory};
use jk_model_classes::ClassRecord;
use std::alloc::Global;

/// The classes of the interfaces that a class file lists, in their order.
fn interfaces(scope: &Scope) -> Result<List<ClassId>, OutOfMemory>
    requires { IsScope scope.now }
    ensures { IfOk result (λ list. (s : LinkScope) → HasNames scope.now.names.now s
        → GoAlong (NamesClassAt s scope.now.file.now) scope.now.file.now.interfaces list) }
{
    let mut classes = List::new(scope.alloc);
    for i in scope.file.interfaces.as_slice() {
        classes.push(scope.class(*i))?;
    }
    Ok(classes)
}

/// The record of a class file that is being linked.
fn record_in(scope: &Scope, home: DomainId) -> Result<ClassRecord, OutOfMemory>
    requires { IsScope scope.now }
    ensures record { IfOk result (λ r. (s : LinkScope) → HasNames scope.now.names.now s → IsRecordFor s home scope.now.file.now r) }
    ensures links { IfOk result (λ r. r.links ≡ []) }
{
    let name = scope.class_name(scope.file.this_class).share()?;
    let parent = scope.class(scope.file.super_class);
    let interfaces = interfaces(scope)?;
    let fields = field_records(scope)?;
    let methods = method_records(scope)?;
    let references = references(scope)?;
    Ok(ClassRecord {
        name,
        home: Some(home),
        flags: scope.file.flags,
        parent: Some(parent),
        interfaces,
        fields,
        methods,
        links: List::new(scope.alloc),
        references,
    })
}

/// The record of a class file, by what names mean in its domain. Its links are yet to come. It takes memory in proportion to
/// the file, and time in proportion to it too, but for sorting the numbers of the classes to which it refers and for finding
/// the places of jumps, each by halving.
pub fn class_record(
    alloc: Global,
    c: &ClassFile,
    texts: &ClassTexts,
    names: &NameTable,
    home: DomainId,
) -> Result<ClassRecord, OutOfMemory>
    requires linkable { IsLinkable c.now names.now }
    requires texts { AreTextsOf c.now.pool texts.now }
    ensures record { IfOk result (λ r. (s : LinkScope) → HasNames names.now s → IsRecordFor s home c.now r) }
    ensures links { IfOk result (λ r. r.links ≡ []) }
{
    let classes = classes_in(alloc, c, texts, names)?;
    let scope = Scope {
        alloc,
        file: c,
        texts,
        names,
        classes: classes.as_slice(),
    };
    record_in(&scope, home)
}
