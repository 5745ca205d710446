//! The shape of an instruction, from its group and its operands.

ghost use Rattle.std.specs.Prelude.{◌≡◌, ℕ, ◌<◌, ◌≤◌, ◌↔◌, IsTrue, MatchOption, pos};
ghost use Rattle.std.specs.Option.{option_map};
ghost use Rattle.jk_model.specs.declared.identifiers.ClassId.{ClassId as AClassId};
ghost use Rattle.jk_model.specs.declared.instructions.Instr.{Instr as AnInstr};
ghost use Rattle.jk_model_classes.specs.declared.records.BaseRef.{BaseRef as ABase};
ghost use Rattle.jk_model_classes.specs.declared.records.BaseRef.TheVariants as Base;
ghost use Rattle.jk_model_typing.specs.FrameTypes.{array_type, value_of};
ghost use Rattle.jk_model_typing.specs.Groups as def;
ghost use Rattle.jk_model_typing.specs.Rows.{IsCodeOf};
ghost use Rattle.jk_model_typing.specs.Scopes.{CodeScope, result_values};
ghost use Rattle.type_rows.specs.CodeViews.{scope_of};
ghost use Rattle.type_rows.specs.OpcodeGroups.{call_view, field_view, fixed_view, returned_view, type_view};
ghost use Rattle.type_rows.specs.Shapes.{given, shape_view};
ghost use Rattle.type_rows.specs.ShapesOfGroups.{IsKind, IsShape, NamesNoType, NamesType};

use crate::code_view::CodeView;
use crate::fresh::is_init;
use crate::groups::{CallKind, FieldUse, Fixed, Group, Returned, TypeUse, group_of};
use crate::operands::{link_of, number_of, used_field, used_method};
use crate::shapes::{Demands, INT, LONG, STRING, Shape};
use jk_model::Instr;
use jk_model_classes::{BaseRef, Link, Member, MethodRecord, TypeRef};
use jk_model_typing::{Demand, VType};
use type_frames::{of_class, of_type, value_of};

/// What an instruction does to a frame; none where its operands don't fit it, or there is no such instruction.
pub(crate) fn shape_of<'a>(view: &CodeView<'a>, i: &Instr) -> Option<Shape<'a>>
    ensures { IsShape (scope_of view.now) i.now (def.group_of i.now.op) result }
{
    match group_of(i.op) {
        Group::Fixed(kind) => Some(fixed_shape(kind)),
        Group::LoadsLocal(demand) => Some(Shape::Loads(demand, number_of(i.a)?)),
        Group::StoresLocal(demand) => Some(Shape::Stores(demand, number_of(i.a)?)),
        Group::IncrementsLocal => Some(Shape::Increments(number_of(i.a)?)),
        Group::LoadsConstant => loads_constant(view, i),
        Group::LoadsLong => loads_long(view, i),
        Group::Returns(kind) => returned_shape(view, kind),
        Group::UsesField(kind) => field_shape(view, i, kind),
        Group::Calls(kind) => call_shape(view, i, kind),
        Group::NamesType(kind) => type_shape(view, i, kind),
        Group::NoGroup => None,
    }
}

/// What an instruction does that rests on its opcode alone.
fn fixed_shape<'a>(kind: Fixed) -> Shape<'a>
    ensures { (s : CodeScope) → shape_view s result ≡ fixed_view kind }
{
    match kind {
        Fixed::TakesNone(gives) => Shape::Takes(Demands::Nothing, gives),
        Fixed::TakesOne(a, gives) => Shape::Takes(Demands::One(a), gives),
        Fixed::TakesTwo(a, b, gives) => Shape::Takes(Demands::Two(a, b), gives),
        Fixed::TakesThree(a, b, c) => Shape::Takes(Demands::Three(a, b, c), None),
        Fixed::Drops(n) => Shape::Drops(n),
        Fixed::Copies(skipped, copied) => Shape::Copies(skipped, copied),
        Fixed::Swaps => Shape::Swaps,
        Fixed::LoadsElement => Shape::LoadsElement,
    }
}

/// The end of a method.
fn returned_shape<'a>(view: &CodeView<'a>, kind: Returned) -> Option<Shape<'a>>
    ensures { (i : AnInstr) → IsShape (scope_of view.now) i (returned_view kind) result }
{
    match kind {
        Returned::Int => returns_int(view),
        Returned::Long => returns_long(view),
        Returned::Reference => returns_reference(view),
        Returned::Nothing => returns_nothing(view),
    }
}

/// What is done at a field.
fn field_shape<'a>(view: &CodeView<'a>, i: &Instr, kind: FieldUse) -> Option<Shape<'a>>
    ensures { IsShape (scope_of view.now) i.now (field_view kind) result }
{
    match kind {
        FieldUse::GetsStatic => gets_static(view, i),
        FieldUse::PutsStatic => puts_static(view, i),
        FieldUse::Gets => gets_field(view, i),
        FieldUse::Puts => puts_field(view, i),
    }
}

/// The call of a method.
fn call_shape<'a>(view: &CodeView<'a>, i: &Instr, kind: CallKind) -> Option<Shape<'a>>
    ensures { IsShape (scope_of view.now) i.now (call_view kind) result }
{
    match kind {
        CallKind::Virtual => calls_virtual(view, i),
        CallKind::Special => calls_special(view, i),
        CallKind::Static => calls_static(view, i),
        CallKind::Interface => calls_interface(view, i),
    }
}

/// What is done with a type.
fn type_shape<'a>(view: &CodeView<'a>, i: &Instr, kind: TypeUse) -> Option<Shape<'a>>
    ensures { IsShape (scope_of view.now) i.now (type_view kind) result }
{
    match kind {
        TypeUse::MakesObject => makes_object(view, i),
        TypeUse::MakesArray => makes_array(view, i),
        TypeUse::MakesArrays => makes_arrays(view, i),
        TypeUse::Casts => casts(view, i),
        TypeUse::Tests => tests(view, i),
        TypeUse::MakesNumbers => makes_numbers(i),
    }
}

/// An int or a text.
fn loads_constant<'a>(view: &CodeView<'a>, i: &Instr) -> Option<Shape<'a>>
    ensures { IsShape (scope_of view.now) i.now def.Group.LoadsConstant result }
{
    match link_of(view, i)? {
        Link::Int(_) => Some(Shape::Takes(Demands::Nothing, Some(VType::Int))),
        Link::Text(_) => Some(Shape::Takes(Demands::Nothing, Some(STRING))),
        _ => None,
    }
}

/// A long.
fn loads_long<'a>(view: &CodeView<'a>, i: &Instr) -> Option<Shape<'a>>
    ensures { IsShape (scope_of view.now) i.now def.Group.LoadsLong result }
{
    match link_of(view, i)? {
        Link::Long(_) => Some(Shape::Takes(Demands::Nothing, Some(VType::Long))),
        _ => None,
    }
}

/// What a method answers, as an entry.
fn result_of(view: &CodeView<'_>, method: &MethodRecord) -> Option<VType>
    ensures whole { result ≡ option_map (value_of (scope_of view.now).classes) method.now.result }
    ensures list { given result ≡ result_values (scope_of view.now) method.now }
{
    match &method.result {
        Some(t) => Some(value_of(view.table, t)),
        None => None,
    }
}

/// The method answers an int.
fn returns_int<'a>(view: &CodeView<'a>) -> Option<Shape<'a>>
    ensures { (i : AnInstr) → IsShape (scope_of view.now) i def.Group.ReturnsInt result }
{
    match result_of(view, view.method)? {
        VType::Int => Some(Shape::Takes(Demands::One(INT), None)),
        _ => None,
    }
}

/// The method answers a long.
fn returns_long<'a>(view: &CodeView<'a>) -> Option<Shape<'a>>
    ensures { (i : AnInstr) → IsShape (scope_of view.now) i def.Group.ReturnsLong result }
{
    match result_of(view, view.method)? {
        VType::Long => Some(Shape::Takes(Demands::One(LONG), None)),
        _ => None,
    }
}

/// The method answers an object or an array, of its result's type.
fn returns_reference<'a>(view: &CodeView<'a>) -> Option<Shape<'a>>
    ensures { (i : AnInstr) → IsShape (scope_of view.now) i def.Group.ReturnsReference result }
{
    match result_of(view, view.method)? {
        VType::Ref(t) => Some(Shape::Takes(Demands::One(Demand::Fitting(VType::Ref(t))), None)),
        _ => None,
    }
}

/// The method answers nothing.
fn returns_nothing<'a>(view: &CodeView<'a>) -> Option<Shape<'a>>
    ensures { (i : AnInstr) → IsShape (scope_of view.now) i def.Group.ReturnsNothing result }
{
    match view.method.result {
        Some(_) => None,
        None => Some(Shape::Leaves),
    }
}

/// Pushes what is in a static field.
fn gets_static<'a>(view: &CodeView<'a>, i: &Instr) -> Option<Shape<'a>>
    ensures { IsShape (scope_of view.now) i.now def.Group.GetsStatic result }
{
    let used = used_field(view, i)?;
    let value = value_of(view.table, &used.record.kind);
    Some(Shape::Takes(Demands::Nothing, Some(value)))
}

/// Takes what is put into a static field.
fn puts_static<'a>(view: &CodeView<'a>, i: &Instr) -> Option<Shape<'a>>
    ensures { IsShape (scope_of view.now) i.now def.Group.PutsStatic result }
{
    let used = used_field(view, i)?;
    let value = value_of(view.table, &used.record.kind);
    Some(Shape::Takes(Demands::One(Demand::Fitting(value)), None))
}

/// Takes an object, and pushes what is in its field.
fn gets_field<'a>(view: &CodeView<'a>, i: &Instr) -> Option<Shape<'a>>
    ensures { IsShape (scope_of view.now) i.now def.Group.GetsField result }
{
    let used = used_field(view, i)?;
    let value = value_of(view.table, &used.record.kind);
    let receiver = Demand::Receiver(used.named, Member::Field(used.member));
    Some(Shape::Takes(Demands::One(receiver), Some(value)))
}

/// Takes an object and what is put into its field.
fn puts_field<'a>(view: &CodeView<'a>, i: &Instr) -> Option<Shape<'a>>
    ensures { IsShape (scope_of view.now) i.now def.Group.PutsField result }
{
    let used = used_field(view, i)?;
    let value = value_of(view.table, &used.record.kind);
    let receiver = Demand::PutReceiver(used.named, used.member);
    Some(Shape::Takes(Demands::Two(receiver, Demand::Fitting(value)), None))
}

/// The types of a method's parameters.
pub(crate) fn params_of<'a>(method: &'a MethodRecord) -> &'a [TypeRef]
    ensures { result.now ≡ method.now.params }
{
    method.params.get().as_slice()
}

/// Calls a method at an object of the class that is named.
fn calls_virtual<'a>(view: &CodeView<'a>, i: &Instr) -> Option<Shape<'a>>
    ensures { IsShape (scope_of view.now) i.now def.Group.CallsVirtual result }
{
    let used = used_method(view, i)?;
    let receiver = Demand::Receiver(used.named, Member::Method(used.member));
    let demands = Demands::Below(receiver, params_of(used.record));
    Some(Shape::Takes(demands, result_of(view, used.record)))
}

/// A constructor; or a method of the own class or of one above it, called at an object of both.
fn calls_special<'a>(view: &CodeView<'a>, i: &Instr) -> Option<Shape<'a>>
    ensures { IsShape (scope_of view.now) i.now def.Group.CallsSpecial result }
{
    let used = used_method(view, i)?;
    let params = params_of(used.record);
    if is_init(used.record) {
        return Some(Shape::Constructs(used.named, used.member, params));
    }
    if !view.table.is_subclass(view.class, used.named) {
        return None;
    }
    let receiver = Demand::FittingBoth(
        of_class(view.table, used.named),
        of_class(view.table, view.class),
    );
    let demands = Demands::Below(receiver, params);
    Some(Shape::Takes(demands, result_of(view, used.record)))
}

/// Calls a static method.
fn calls_static<'a>(view: &CodeView<'a>, i: &Instr) -> Option<Shape<'a>>
    ensures { IsShape (scope_of view.now) i.now def.Group.CallsStatic result }
{
    let used = used_method(view, i)?;
    let demands = Demands::Arguments(params_of(used.record));
    Some(Shape::Takes(demands, result_of(view, used.record)))
}

/// Calls a method of an interface, at any object.
fn calls_interface<'a>(view: &CodeView<'a>, i: &Instr) -> Option<Shape<'a>>
    ensures { IsShape (scope_of view.now) i.now def.Group.CallsInterface result }
{
    let used = used_method(view, i)?;
    let demands = Demands::Below(Demand::Reference, params_of(used.record));
    Some(Shape::Takes(demands, result_of(view, used.record)))
}

/// The type that the first operand names.
fn named_type(view: &CodeView<'_>, i: &Instr) -> Option<TypeRef>
    ensures { MatchOption result (NamesNoType (scope_of view.now) i.now) (NamesType (scope_of view.now) i.now) }
{
    match link_of(view, i)? {
        Link::Class(t) => Some(*t),
        _ => None,
    }
}

/// Whether it is a class, and no array.
fn is_plain_class(t: TypeRef) -> bool
    ensures { IsTrue result ↔ ((c : AClassId) × (t ≡ array_type 0 (Base.Class c))) }
{
    match t.base {
        BaseRef::Class(_) => t.dims == 0,
        _ => false,
    }
}

/// Makes a fresh object of a class.
fn makes_object<'a>(view: &CodeView<'a>, i: &Instr) -> Option<Shape<'a>>
    ensures { IsShape (scope_of view.now) i.now def.Group.MakesObject result }
{
    let t = named_type(view, i)?;
    if is_plain_class(t) {
        Some(Shape::Makes)
    } else {
        None
    }
}

/// Makes an array of one dimension more than the type that is named, whose dimensions are at most 255.
fn makes_array<'a>(view: &CodeView<'a>, i: &Instr) -> Option<Shape<'a>>
    ensures { IsShape (scope_of view.now) i.now def.Group.MakesArray result }
{
    let t = named_type(view, i)?;
    let array = TypeRef {
        dims: t.dims.checked_add(1)?,
        base: t.base,
    };
    let gives = of_type(view.table, &array);
    Some(Shape::Takes(Demands::One(INT), Some(gives)))
}

/// How many dimensions are made of an array of this type.
fn dimensions(t: TypeRef, operand: i32) -> Option<u8>
    ensures { MatchOption result ((n : ℕ) → operand ≡ pos n → 0 < n → n ≤ t.dims → ⊥) (λ n. (operand ≡ pos n) × (0 < n) × (n ≤ t.dims)) }
{
    let n = number_of(operand)?;
    if n > 0 && n <= u32::from(t.dims) {
        Some(n as u8)
    } else {
        None
    }
}

/// Makes an array of the type that is named, with so many of its dimensions.
fn makes_arrays<'a>(view: &CodeView<'a>, i: &Instr) -> Option<Shape<'a>>
    ensures { IsShape (scope_of view.now) i.now def.Group.MakesArrays result }
{
    let t = named_type(view, i)?;
    let n = dimensions(t, i.b)?;
    let gives = of_type(view.table, &t);
    Some(Shape::Takes(Demands::Ints(n), Some(gives)))
}

/// Takes an object, and pushes it as one of the type that is named.
fn casts<'a>(view: &CodeView<'a>, i: &Instr) -> Option<Shape<'a>>
    ensures { IsShape (scope_of view.now) i.now def.Group.Casts result }
{
    let t = named_type(view, i)?;
    let gives = of_type(view.table, &t);
    Some(Shape::Takes(Demands::One(Demand::Reference), Some(gives)))
}

/// Takes an object, and pushes whether it is of the type that is named.
fn tests<'a>(view: &CodeView<'a>, i: &Instr) -> Option<Shape<'a>>
    ensures { IsShape (scope_of view.now) i.now def.Group.Tests result }
{
    named_type(view, i)?;
    Some(Shape::Takes(Demands::One(Demand::Reference), Some(VType::Int)))
}

/// The kind of numbers with this code.
fn kind_of(code: u32) -> Option<BaseRef>
    ensures { MatchOption result ((base : ABase) → IsCodeOf base code → ⊥) (IsKind code) }
{
    match code {
        4 => Some(BaseRef::Bool),
        5 => Some(BaseRef::Char),
        8 => Some(BaseRef::Byte),
        9 => Some(BaseRef::Short),
        10 => Some(BaseRef::Int),
        11 => Some(BaseRef::Long),
        _ => None,
    }
}

/// Makes an array of numbers.
fn makes_numbers<'a>(i: &Instr) -> Option<Shape<'a>>
    ensures { (s : CodeScope) → IsShape s i.now def.Group.MakesNumbers result }
{
    let base = kind_of(number_of(i.a)?)?;
    let array = VType::Ref(TypeRef { dims: 1, base });
    Some(Shape::Takes(Demands::One(INT), Some(array)))
}
