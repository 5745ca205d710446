//! What the entries of a class's pool lead to.

use crate::classes::LinkError;
use crate::scope::Scope;
use class_table::ClassTable;
use jk_model::{List, PoolEntry};
use jk_model_classes::Link;
use member_lookup::{find_field, find_method};
use shared_values::Text;

/// The field that the reference at an index finds.
fn field_link(
    scope: &Scope<'_>,
    table: &ClassTable,
    index: u16,
    class: u16,
    pair: u16,
) -> Result<Link, LinkError> {
    let named = scope.class(class)?;
    let pair = scope.name_and_type(pair)?;
    let name = scope.units(pair.name)?;
    let kind = scope.field_type(pair.descriptor)?;
    let found = find_field(table, named, name.as_slice(), &kind);
    Ok(Link::Field(named, found.ok_or(LinkError::Unlinked(index))?))
}

/// The method that the reference at an index finds.
fn method_link(
    scope: &Scope<'_>,
    table: &ClassTable,
    index: u16,
    class: u16,
    pair: u16,
) -> Result<Link, LinkError> {
    let named = scope.class(class)?;
    let pair = scope.name_and_type(pair)?;
    let name = scope.units(pair.name)?;
    let kind = scope.method_type(pair.descriptor)?;
    let found = find_method(table, named, name.as_slice(), &kind);
    Ok(Link::Method(named, found.ok_or(LinkError::Unlinked(index))?))
}

/// What the entry at an index leads to.
fn link(
    scope: &Scope<'_>,
    table: &ClassTable,
    entry: &PoolEntry,
    index: u16,
) -> Result<Link, LinkError> {
    match entry {
        PoolEntry::Integer(bits) => Ok(Link::Int(bits.cast_signed())),
        PoolEntry::Long(bits) => Ok(Link::Long(bits.cast_signed())),
        PoolEntry::Str(text) => {
            let units = scope.units(*text)?;
            Ok(Link::Text(Text::new(scope.alloc, units.as_slice())?))
        }
        PoolEntry::Class(_) => Ok(Link::Class(scope.class_type(index)?)),
        PoolEntry::FieldRef(class, pair) => field_link(scope, table, index, *class, *pair),
        PoolEntry::MethodRef(class, pair) | PoolEntry::InterfaceMethodRef(class, pair) => {
            method_link(scope, table, index, *class, *pair)
        }
        _ => Ok(Link::Nothing),
    }
}

/// What each entry of the pool leads to, where the class itself is in the table.
pub(crate) fn links(scope: &Scope<'_>, table: &ClassTable) -> Result<List<Link>, LinkError> {
    let mut links = List::new(scope.alloc);
    for (i, entry) in scope.pool.iter().enumerate() {
        let index = u16::try_from(i).unwrap_or(u16::MAX);
        links.push(link(scope, table, entry, index)?)?;
    }
    Ok(links)
}
