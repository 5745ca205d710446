//! C22: final methods that are overridden.

ghost use Rattle.std.specs.Prelude.{◌≡◌, ◌↔◌, ℕ, IsTrue, Some, length};
ghost use Rattle.std.specs.Option.{option_to_list};
ghost use Rattle.jk_model_classes.specs.declared.records.MethodRecord.{MethodRecord as AMethod};
ghost use Rattle.jk_model_classes.specs.Classes.{parents_of, record_of};
ghost use Rattle.jk_model_classes.specs.LinkRules.{OverridesFinal};
ghost use Rattle.jk_model_classes.specs.Lookups.{FindsFrom, MethodIs};
ghost use Rattle.link_rules.specs.FinalMethods.{HasMethods, IsFinalFault, IsFinalFor, IsFinalIn, IsFirstPlace, IsInside, IsNamedAs, IsOutside, OverridesAt, OverridesIn, OverridesSo, OverridesWhere, earlier_place, scope_of};

use class_table::{ClassTable, MethodKey};
use jk_model::{AccessFlags, ClassId, MemberId, has};
use jk_model_classes::{ClassRecord, MethodRecord};
use member_lookup::{method_record, overrides};

/// The least number of a method of the class that overrides a final one of a class above; none where there is none. It takes
/// no memory, and for each class above at most a search for each method of the class, or one in the class for each final
/// method of the one above, whichever are fewer.
pub(crate) fn final_fault(t: &ClassTable, class: ClassId) -> Option<u32>
    ensures { IsFinalFault t.now class result }
{
    t.ordered();
    match t.class(class) {
        Some(r) => {
            let place = first_overriding(t, class, class, r.methods.as_slice());
            number_of(t, class, r, place)
        }
        None => None,
    }
}

/// The number of the first method of the class that overrides a final one, by its place.
pub(crate) fn number_of(
    t: &ClassTable,
    class: ClassId,
    r: &ClassRecord,
    place: Option<usize>,
) -> Option<u32>
    requires class { record_of t.now class ≡ Some r.now }
    requires first { IsFirstPlace (OverridesFinal (scope_of t.now class)) r.now.methods place }
    ensures { IsFinalFault t.now class result }
{
    t.ordered();
    match place {
        Some(i) => Some((r.fields.len() + i + 1) as u32),
        None => None,
    }
}

/// The place of the first of the class's methods that overrides a final one of a class above which stands before this one.
pub(crate) fn first_overriding(
    t: &ClassTable,
    class: ClassId,
    before: ClassId,
    methods: &[MethodRecord],
) -> Option<usize>
    requires { HasMethods t.now class methods.now }
    ensures { IsFirstPlace (OverridesWhere (IsOutside before) t.now class) methods.now result }
{
    t.ordered();
    let mut best = None;
    let mut next = parent_of(t, class);
    while let Some(d) = next {
        best = earlier(best, first_outside(t, class, before, d, methods));
        next = parent_of(t, d);
    }
    best
}

/// Whether a method of the class overrides a final one of a class above which doesn't stand before this one. It takes one search
/// for each of these classes.
pub(crate) fn overrides_from(
    t: &ClassTable,
    class: ClassId,
    first: ClassId,
    method: &MethodRecord,
) -> bool
    ensures { IsTrue result ↔ OverridesWhere (IsInside first) t.now class method.now }
{
    t.ordered();
    let mut next = parent_of(t, class);
    while let Some(d) = next {
        if overrides_inside(t, class, first, d, method) {
            return true;
        }
        next = parent_of(t, d);
    }
    false
}

/// The place of the first of the class's methods that overrides a final one of class d, where that stands before this one.
fn first_outside(
    t: &ClassTable,
    class: ClassId,
    before: ClassId,
    d: ClassId,
    methods: &[MethodRecord],
) -> Option<usize>
    requires { HasMethods t.now class methods.now }
    ensures { IsFirstPlace (OverridesSo (IsOutside before) t.now class d) methods.now result }
{
    if d.0 >= before.0 {
        return None;
    }
    first_below(t, class, d, methods)
}

/// Whether a method of the class overrides a final one of class d, where that doesn't stand before this one.
fn overrides_inside(
    t: &ClassTable,
    class: ClassId,
    first: ClassId,
    d: ClassId,
    method: &MethodRecord,
) -> bool
    ensures { IsTrue result ↔ OverridesSo (IsInside first) t.now class d method.now }
{
    if d.0 < first.0 {
        return false;
    }
    own_final(t, class, d, method).is_some()
}

/// The earlier of two places.
pub(crate) fn earlier(a: Option<usize>, b: Option<usize>) -> Option<usize>
    ensures { result ≡ earlier_place a b }
{
    match (a, b) {
        (Some(i), Some(j)) => Some(i.min(j)),
        (None, found) => found,
        (found, None) => found,
    }
}

/// The parent of a class; none where it has none, and where there is no such class.
fn parent_of(t: &ClassTable, c: ClassId) -> Option<ClassId>
    ensures { parents_of t.now c ≡ option_to_list result }
{
    t.class(c)?.parent
}

/// The place of the first of the class's methods that overrides a final one of class d.
fn first_below(
    t: &ClassTable,
    class: ClassId,
    d: ClassId,
    methods: &[MethodRecord],
) -> Option<usize>
    requires { HasMethods t.now class methods.now }
    ensures { IsFirstPlace (OverridesIn t.now class d) methods.now result }
{
    let Some(r) = t.class(d) else {
        return first_found(t, class, d, methods);
    };
    if asks_final_ones(methods.len(), r.methods.as_slice()) {
        first_named(t, class, d, methods, r.methods.as_slice())
    } else {
        first_found(t, class, d, methods)
    }
}

/// Whether fewer searches are made by the final ones of these methods than by so many others. Where the others are few, the
/// methods aren't counted.
fn asks_final_ones(others: usize, methods: &[MethodRecord]) -> bool {
    if others < methods.len() / 64 {
        return false;
    }
    let mut finals = 0;
    for i in 0..methods.len() {
        if has(methods[i].flags, AccessFlags::FINAL) {
            finals += 1;
        }
    }
    finals < others
}

/// The same, by a search in class d for each method of the class.
fn first_found(
    t: &ClassTable,
    class: ClassId,
    d: ClassId,
    methods: &[MethodRecord],
) -> Option<usize>
    ensures { IsFirstPlace (OverridesIn t.now class d) methods.now result }
{
    for i in 0..methods.len() {
        if own_final(t, class, d, &methods[i]).is_some() {
            return Some(i);
        }
    }
    None
}

/// The same, by a search in the class for each final method of class d.
fn first_named(
    t: &ClassTable,
    class: ClassId,
    d: ClassId,
    methods: &[MethodRecord],
    above: &[MethodRecord],
) -> Option<usize>
    requires own { HasMethods t.now class methods.now }
    requires above { HasMethods t.now d above.now }
    ensures { IsFirstPlace (OverridesIn t.now class d) methods.now result }
{
    t.ordered();
    let mut best = None;
    for i in 0..above.len() {
        let m = MemberId {
            class: d,
            index: i as u16,
        };
        best = earlier(best, overriding(t, class, m, &above[i], methods));
    }
    best
}

/// The place of the first of the class's methods that overrides this one, if it is final.
fn overriding(
    t: &ClassTable,
    class: ClassId,
    m: MemberId,
    method: &MethodRecord,
    methods: &[MethodRecord],
) -> Option<usize>
    requires own { HasMethods t.now class methods.now }
    requires method { (final : AMethod) → MethodIs t.now m final → final ≡ method.now }
    ensures { IsFirstPlace (OverridesAt t.now class m) methods.now result }
{
    if !has(method.flags, AccessFlags::FINAL) {
        return None;
    }
    if !is_final_in(t, class, m) {
        return None;
    }
    first_of_name(t, class, method, methods)
}

/// The place of the first of the class's methods that has this one's name and type.
fn first_of_name(
    t: &ClassTable,
    class: ClassId,
    method: &MethodRecord,
    methods: &[MethodRecord],
) -> Option<usize>
    requires { HasMethods t.now class methods.now }
    ensures { IsFirstPlace (IsNamedAs method.now) methods.now result }
{
    match t.own_method(class, &MethodKey::of_method(method), 0) {
        Some(i) => Some(usize::from(i)),
        None => None,
    }
}

/// The first final method of class d which methods of `class` with this one's name and type override.
fn own_final(t: &ClassTable, class: ClassId, d: ClassId, method: &MethodRecord) -> Option<u16>
    ensures { FindsFrom (IsFinalFor t.now class method.now.name method.now.kind) d 0 result }
{
    t.ordered();
    let key = MethodKey::of_method(method);
    let mut from = 0;
    while let Some(index) = t.own_method(d, &key, from) {
        if is_final_in(t, class, MemberId { class: d, index }) {
            return Some(index);
        }
        from = index + 1;
    }
    None
}

/// Whether a method is final, and those of the class with its name and type override it.
fn is_final_in(t: &ClassTable, class: ClassId, m: MemberId) -> bool
    ensures { IsTrue result ↔ IsFinalIn t.now class m }
{
    match method_record(t, m) {
        Some(method) => {
            if has(method.flags, AccessFlags::FINAL) {
                overrides(t, class, m)
            } else {
                false
            }
        }
        None => false,
    }
}
