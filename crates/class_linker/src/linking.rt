//! A class file that is linked, and what its references look for.

ghost use Rattle.std.specs.Prelude.{◌≡◌, List, MatchOption, Some, ℕ, slice_get};
ghost use Rattle.jk_model.specs.declared.descriptors.MethodType.{MethodType as AMethodType};
ghost use Rattle.jk_model_classes.specs.declared.records.TypeRef.{TypeRef as ATypeRef};
ghost use Rattle.jk_model.specs.declared.class_file.PoolEntry.TheVariants.{Class, NameAndType};
ghost use Rattle.jk_model_classes.specs.Members.{TextAt};
ghost use Rattle.class_linker.specs.LinkParts.{IsReady};
ghost use Rattle.class_linker.specs.TextsSaid.{Answers, IsPairOf, IsSaidAt, NamesClassBy, SaysClass, SaysField, SaysMethod};

use crate::said::Said;
use class_table::ClassTable;
use class_texts::ClassTexts;
use domain_resolver::NameTable;
use jk_model::{ClassId, PoolEntry};
use jk_model_classes::TypeRef;
use shared_values::{SharedKind, Text};

/// A class file that is linked: all classes, what names mean, and what its pool says.
#[derive(Clone, Copy)]
pub(crate) struct Linking<'a> {
    pub(crate) t: &'a ClassTable,
    pub(crate) names: &'a NameTable,
    pub(crate) pool: &'a [PoolEntry],
    pub(crate) texts: &'a ClassTexts,
    pub(crate) said: &'a [Said],
}

/// What the text at an index says; none where there is no such entry.
pub(crate) fn item_said<'a>(l: &Linking<'a>, i: u16) -> Option<&'a Said>
    requires { IsReady l.now }
    ensures { MatchOption result ((units : List ℕ) → TextAt l.now.pool.now i units → ⊥) (λ said. IsSaidAt l.now.names.now l.now.pool.now i said.now) }
{
    match l.said.get(usize::from(i)) {
        Some(said) => Some(said),
        None => None,
    }
}

/// The class that the text at an index names.
fn class_at(l: &Linking<'_>, i: u16) -> Option<ClassId>
    requires { IsReady l.now }
    ensures { Answers (SaysClass l.now.names.now l.now.pool.now i) result }
{
    match item_said(l, i) {
        Some(said) => said.class,
        None => None,
    }
}

/// The class that the name of the Class entry at an index means.
pub(crate) fn class_named_at(l: &Linking<'_>, i: u16) -> Option<ClassId>
    requires { IsReady l.now }
    ensures { Answers (NamesClassBy l.now.names.now l.now.pool.now i) result }
{
    match name_at(l.pool, i) {
        Some(name) => class_at(l, name),
        None => None,
    }
}

/// The index of the name of the Class entry at an index.
pub(crate) fn name_at(pool: &[PoolEntry], i: u16) -> Option<u16>
    ensures { Answers (λ n. slice_get pool.now i ≡ Some (Class n)) result }
{
    match pool.get(usize::from(i)) {
        Some(PoolEntry::Class(name)) => Some(*name),
        _ => None,
    }
}

/// The indices of the name and of the descriptor of the NameAndType entry at an index.
fn pair_at(pool: &[PoolEntry], i: u16) -> Option<(u16, u16)>
    ensures { Answers (λ p. slice_get pool.now i ≡ Some (NameAndType p.0 p.1)) result }
{
    match pool.get(usize::from(i)) {
        Some(PoolEntry::NameAndType(name, descriptor)) => Some((*name, *descriptor)),
        _ => None,
    }
}

/// The type of a field that the text at an index says.
fn field_at(l: &Linking<'_>, d: u16) -> Option<TypeRef>
    requires { IsReady l.now }
    ensures { Answers (SaysField l.now.names.now l.now.pool.now d) result }
{
    match item_said(l, d) {
        Some(said) => said.field,
        None => None,
    }
}

/// The type of a method that the text at an index says.
fn method_at<'a>(l: &Linking<'a>, d: u16) -> Option<&'a SharedKind>
    requires { IsReady l.now }
    ensures { MatchOption result ((kind : AMethodType) → SaysMethod l.now.pool.now d kind → ⊥) (λ kind. SaysMethod l.now.pool.now d kind.now) }
{
    match item_said(l, d) {
        Some(said) => match &said.method {
            Some(kind) => Some(kind),
            None => None,
        },
        None => None,
    }
}

/// The name and the type of a field that the NameAndType entry at an index says.
pub(crate) fn field_pair<'a>(l: &Linking<'a>, i: u16) -> Option<(&'a Text, TypeRef)>
    requires { IsReady l.now }
    ensures { MatchOption result ((name : List ℕ) (kind : ATypeRef) → IsPairOf (SaysField l.now.names.now l.now.pool.now) l.now.pool.now i name kind → ⊥)
        (λ p. IsPairOf (SaysField l.now.names.now l.now.pool.now) l.now.pool.now i p.0.now p.1) }
{
    match pair_at(l.pool, i) {
        Some(pair) => field_by(l, pair.0, pair.1),
        None => None,
    }
}

/// The text at one index, with the type of a field that the text at the other says.
fn field_by<'a>(l: &Linking<'a>, n: u16, d: u16) -> Option<(&'a Text, TypeRef)>
    requires { IsReady l.now }
    ensures { MatchOption result ((name : List ℕ) (kind : ATypeRef) → TextAt l.now.pool.now n name → SaysField l.now.names.now l.now.pool.now d kind → ⊥)
        (λ p. TextAt l.now.pool.now n p.0.now × SaysField l.now.names.now l.now.pool.now d p.1) }
{
    match l.texts.text(n) {
        Some(name) => match field_at(l, d) {
            Some(kind) => Some((name, kind)),
            None => None,
        },
        None => None,
    }
}

/// The name and the type of a method that the NameAndType entry at an index says.
pub(crate) fn method_pair<'a>(l: &Linking<'a>, i: u16) -> Option<(&'a Text, &'a SharedKind)>
    requires { IsReady l.now }
    ensures { MatchOption result ((name : List ℕ) (kind : AMethodType) → IsPairOf (SaysMethod l.now.pool.now) l.now.pool.now i name kind → ⊥)
        (λ p. IsPairOf (SaysMethod l.now.pool.now) l.now.pool.now i p.0.now p.1.now) }
{
    match pair_at(l.pool, i) {
        Some(pair) => method_by(l, pair.0, pair.1),
        None => None,
    }
}

/// The text at one index, with the type of a method that the text at the other says.
fn method_by<'a>(l: &Linking<'a>, n: u16, d: u16) -> Option<(&'a Text, &'a SharedKind)>
    requires { IsReady l.now }
    ensures { MatchOption result ((name : List ℕ) (kind : AMethodType) → TextAt l.now.pool.now n name → SaysMethod l.now.pool.now d kind → ⊥)
        (λ p. TextAt l.now.pool.now n p.0.now × SaysMethod l.now.pool.now d p.1.now) }
{
    match l.texts.text(n) {
        Some(name) => match method_at(l, d) {
            Some(kind) => Some((name, kind)),
            None => None,
        },
        None => None,
    }
}
