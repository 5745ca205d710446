//! What the entries of a pool lead to.

ghost use Rattle.std.specs.Prelude.{◌≡◌, IfOk, OnOk, Some};
ghost use Rattle.std.specs.BTreeMap.{get};
ghost use Rattle.std.specs.Ordering.{nat_cmp};
ghost use Rattle.jk_model.specs.declared.class_file.PoolEntry.TheVariants.{Class, Str};
ghost use Rattle.jk_model_classes.specs.LinkRules.{LinkScope};
ghost use Rattle.jk_model_folders.specs.LinkedClasses.{AreLinksFor};
ghost use Rattle.class_texts.specs.PoolTexts.{AreTextsOf};
ghost use Rattle.class_linker.specs.LinkedFiles.{HasNames, IsLinkable};
ghost use Rattle.class_linker.specs.LinkParts.{AreFields, AreMethods, FieldLinksIn, IsClassLink, IsFieldLinkOf, IsMethodLinkOf, IsReady, IsTextLink, LeadsTo, MethodLinksIn, type_of_class, type_said};
ghost use Rattle.class_linker.specs.TextsSaid.{IsPairOf, SaysField, SaysMethod};
ghost use Rattle.class_linker.specs.ThrownClasses.{IsItemOf};

use crate::found::{Found, field_found, method_found};
use crate::linking::{Linking, class_named_at, field_pair, item_said, method_pair};
use crate::said::{Said, said_in};
use class_table::ClassTable;
use class_texts::ClassTexts;
use domain_resolver::NameTable;
use jk_model::{ClassFile, ClassId, List, OutOfMemory, PoolEntry};
use jk_model_classes::{BaseRef, Link, TypeRef};
use shared_values::{SharedKind, Text};
use std::alloc::Global;
use std::collections::BTreeMap;

/// What each entry of a class file's pool leads to: a reference to the member that it finds among all classes, and to
/// nothing where it finds none.
///
/// Each text is read once, and each class and name and type is looked for once. It takes memory in proportion to the pool, and
/// time in proportion to it too, but for halving among what was found before, and to what these searches cost.
pub fn class_links(
    alloc: Global,
    t: &ClassTable,
    c: &ClassFile,
    texts: &ClassTexts,
    names: &NameTable,
) -> Result<List<Link>, OutOfMemory>
    requires linkable { IsLinkable c.now names.now }
    requires texts { AreTextsOf c.now.pool texts.now }
    ensures { IfOk result (λ links. (s : LinkScope) → HasNames names.now s → s.classes ≡ t.now → AreLinksFor s c.now links) }
{
    let said = said_in(alloc, c, texts, names)?;
    let l = Linking {
        t,
        names,
        pool: c.pool.as_slice(),
        texts,
        said: said.as_slice(),
    };
    links_of(alloc, c, &l)
}

/// What each entry leads to.
fn links_of(alloc: Global, c: &ClassFile, l: &Linking<'_>) -> Result<List<Link>, OutOfMemory>
    requires linkable { IsLinkable c.now l.now.names.now }
    requires own { l.now.pool.now ≡ c.now.pool }
    requires ready { IsReady l.now }
    ensures { IfOk result (λ links. (s : LinkScope) → HasNames l.now.names.now s → s.classes ≡ l.now.t.now → AreLinksFor s c.now links) }
{
    let mut fields = BTreeMap::new(alloc);
    let mut methods = BTreeMap::new(alloc);
    let mut links = List::new(alloc);
    for entry in l.pool {
        let link = link_of(c, l, &mut fields, &mut methods, entry)?;
        links.push(link)?;
    }
    Ok(links)
}

/// What an entry leads to.
fn link_of(
    c: &ClassFile,
    l: &Linking<'_>,
    fields: &mut Found,
    methods: &mut Found,
    entry: &PoolEntry,
) -> Result<Link, OutOfMemory>
    requires linkable { IsLinkable c.now l.now.names.now }
    requires own { l.now.pool.now ≡ c.now.pool }
    requires item { IsItemOf c.now.pool entry.now }
    requires ready { IsReady l.now }
    requires fields { AreFields l.now (λ key. get nat_cmp fields.old key) }
    requires methods { AreMethods l.now (λ key. get nat_cmp methods.old key) }
    ensures link { IfOk result (λ link. LeadsTo l.now entry.now link) }
    ensures fields { OnOk result (AreFields l.now (λ key. get nat_cmp fields.new key)) }
    ensures methods { OnOk result (AreMethods l.now (λ key. get nat_cmp methods.new key)) }
{
    match entry {
        PoolEntry::Integer(bits) => Ok(Link::Int(bits.cast_signed())),
        PoolEntry::Long(bits) => Ok(Link::Long(bits.cast_signed())),
        PoolEntry::Str(text) => text_link(c, l, *text),
        PoolEntry::Class(name) => Ok(class_link(c, l, *name)),
        PoolEntry::FieldRef(class, pair) => field_link(l, fields, *class, *pair),
        PoolEntry::MethodRef(class, pair) => method_link(l, methods, *class, *pair),
        PoolEntry::InterfaceMethodRef(class, pair) => method_link(l, methods, *class, *pair),
        _ => Ok(Link::Nothing),
    }
}

/// What a Str entry leads to.
fn text_link(c: &ClassFile, l: &Linking<'_>, text: u16) -> Result<Link, OutOfMemory>
    requires linkable { IsLinkable c.now l.now.names.now }
    requires own { l.now.pool.now ≡ c.now.pool }
    requires item { IsItemOf c.now.pool (Str text) }
    requires ready { IsReady l.now }
    ensures { IfOk result (λ link. IsTextLink l.now text link) }
{
    let _pool = &c.pool;
    match l.texts.text(text) {
        Some(found) => {
            let shared = found.share()?;
            Ok(Link::Text(shared))
        }
        None => unreachable!(),
    }
}

/// What a Class entry leads to.
fn class_link(c: &ClassFile, l: &Linking<'_>, name: u16) -> Link
    requires linkable { IsLinkable c.now l.now.names.now }
    requires own { l.now.pool.now ≡ c.now.pool }
    requires item { IsItemOf c.now.pool (Class name) }
    requires ready { IsReady l.now }
    ensures { IsClassLink l.now name result }
{
    let _pool = &c.pool;
    match item_said(l, name) {
        Some(said) => match entry_type(said) {
            Some(t) => Link::Class(t),
            None => unreachable!(),
        },
        None => unreachable!(),
    }
}

/// The type that the name of a Class entry says: of an array, or else a class.
fn entry_type(said: &Said) -> Option<TypeRef>
    ensures { result ≡ type_said said.now }
{
    match said.field {
        Some(t) if t.dims != 0 => Some(t),
        _ => class_type(said.class),
    }
}

/// The type of objects of a class.
fn class_type(class: Option<ClassId>) -> Option<TypeRef>
    ensures { result ≡ type_of_class class }
{
    match class {
        Some(class) => Some(TypeRef {
            dims: 0,
            base: BaseRef::Class(class),
        }),
        None => None,
    }
}

/// What a reference to a field leads to.
fn field_link(
    l: &Linking<'_>,
    found: &mut Found,
    class: u16,
    pair: u16,
) -> Result<Link, OutOfMemory>
    requires ready { IsReady l.now }
    requires known { AreFields l.now (λ key. get nat_cmp found.old key) }
    ensures link { IfOk result (λ link. IsFieldLinkOf l.now class pair link) }
    ensures known { OnOk result (AreFields l.now (λ key. get nat_cmp found.new key)) }
{
    match class_named_at(l, class) {
        Some(class) => field_link_in(l, found, class, pair),
        None => Ok(Link::Nothing),
    }
}

/// What a reference to a field of a class leads to.
fn field_link_in(
    l: &Linking<'_>,
    found: &mut Found,
    class: ClassId,
    pair: u16,
) -> Result<Link, OutOfMemory>
    requires ready { IsReady l.now }
    requires known { AreFields l.now (λ key. get nat_cmp found.old key) }
    ensures link { IfOk result (λ link. FieldLinksIn l.now pair class link) }
    ensures known { OnOk result (AreFields l.now (λ key. get nat_cmp found.new key)) }
{
    match field_pair(l, pair) {
        Some(named) => field_link_by(l, found, class, pair, named.0, named.1),
        None => Ok(Link::Nothing),
    }
}

/// What a reference to a field of a class leads to, by the name and type of the entry at an index.
fn field_link_by(
    l: &Linking<'_>,
    found: &mut Found,
    class: ClassId,
    pair: u16,
    name: &Text,
    kind: TypeRef,
) -> Result<Link, OutOfMemory>
    requires pair { IsPairOf (SaysField l.now.names.now l.now.pool.now) l.now.pool.now pair name.now kind }
    requires known { AreFields l.now (λ key. get nat_cmp found.old key) }
    ensures link { IfOk result (λ link. FieldLinksIn l.now pair class link) }
    ensures known { OnOk result (AreFields l.now (λ key. get nat_cmp found.new key)) }
{
    let m = field_found(l, found, class, pair, name, kind)?;
    match m {
        Some(m) => Ok(Link::Field(class, m)),
        None => Ok(Link::Nothing),
    }
}

/// What a reference to a method leads to.
fn method_link(
    l: &Linking<'_>,
    found: &mut Found,
    class: u16,
    pair: u16,
) -> Result<Link, OutOfMemory>
    requires ready { IsReady l.now }
    requires known { AreMethods l.now (λ key. get nat_cmp found.old key) }
    ensures link { IfOk result (λ link. IsMethodLinkOf l.now class pair link) }
    ensures known { OnOk result (AreMethods l.now (λ key. get nat_cmp found.new key)) }
{
    match class_named_at(l, class) {
        Some(class) => method_link_in(l, found, class, pair),
        None => Ok(Link::Nothing),
    }
}

/// What a reference to a method of a class leads to.
fn method_link_in(
    l: &Linking<'_>,
    found: &mut Found,
    class: ClassId,
    pair: u16,
) -> Result<Link, OutOfMemory>
    requires ready { IsReady l.now }
    requires known { AreMethods l.now (λ key. get nat_cmp found.old key) }
    ensures link { IfOk result (λ link. MethodLinksIn l.now pair class link) }
    ensures known { OnOk result (AreMethods l.now (λ key. get nat_cmp found.new key)) }
{
    match method_pair(l, pair) {
        Some(named) => method_link_by(l, found, class, pair, named.0, named.1),
        None => Ok(Link::Nothing),
    }
}

/// What a reference to a method of a class leads to, by the name and type of the entry at an index.
fn method_link_by(
    l: &Linking<'_>,
    found: &mut Found,
    class: ClassId,
    pair: u16,
    name: &Text,
    kind: &SharedKind,
) -> Result<Link, OutOfMemory>
    requires pair { IsPairOf (SaysMethod l.now.pool.now) l.now.pool.now pair name.now kind.now }
    requires known { AreMethods l.now (λ key. get nat_cmp found.old key) }
    ensures link { IfOk result (λ link. MethodLinksIn l.now pair class link) }
    ensures known { OnOk result (AreMethods l.now (λ key. get nat_cmp found.new key)) }
{
    let m = method_found(l, found, class, pair, name, kind)?;
    match m {
        Some(m) => Ok(Link::Method(class, m)),
        None => Ok(Link::Nothing),
    }
}
