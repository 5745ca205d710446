//! Writes an instruction's bytes after the code so far, and puts its constants into the pool.

ghost use Rattle.std.specs.Prelude.{◌≡◌, ◌+◌, ◌<◌, ◌≤◌, ◌^◌, ◌∷◌, ◌++◌, ◌&&◌, [], List, Some, None, OnOk, Err, IsSome, length, flat_map, replicate, if◌then◌else◌};
ghost use Rattle.std.specs.Int.{w8, w16, cast_unsigned};
ghost use Rattle.std.specs.List.{AllByRecursion};
ghost use Rattle.asm_reader.specs.declared.items.CodeLine.{CodeLine};
ghost use Rattle.jk_model.specs.ClassFile.{u2};
ghost use Rattle.jk_model.specs.Instructions.{gap};
ghost use Rattle.jkasm.specs.CodePlaces.{is_byte, is_byte_step, label_place, statement_size};
ghost use Rattle.jkasm.specs.Constants.{Class, Value, Reference, for_class, for_value, for_reference, for_statement};
ghost use Rattle.jkasm.specs.GoodLines.{ReachesLabel};
ghost use Rattle.jkasm.specs.LabelTables.{IsLabelsOf};
ghost use Rattle.jkasm.specs.LineWriting.{Writes, CannotBeWritten};
ghost use Rattle.jkasm.specs.OperandWriting.{known_offset, offset_bytes, case_bytes, switch_bytes, HasIndex, DoStand, JumpsTo, member_end};
ghost use Rattle.jkasm.specs.PoolGrowth.{Takes, HasNoRoom, IsPoolText, HasPoolText};
ghost use Rattle.jkasm.specs.Texts.{texts_of_statement};
ghost use Rattle.jkasm.specs.Written.{load_op};

use crate::labels::{Labels, statement_size};
use crate::pool::{PoolBuilder, PoolError};
use asm_reader::{Constant, MemberKind, Statement, SwitchLine};
use class_writer::{append_u2, append_u4};
use jk_model::opcodes::{
    IINC, LDC_W, LDC2_W, LOOKUPSWITCH, MULTIANEWARRAY, NEWARRAY, SIPUSH, WIDE,
};
use jk_model::{Bytes, OutOfMemory};

/// The most bytes that a code may have.
const LONGEST: u64 = 65_535;

/// A place that no code has.
const FAR: u32 = 1 << 20;

/// Why a line was not taken.
#[derive(Clone, Copy, Debug, PartialEq, Eq)]
pub(crate) enum LineStop {
    /// It is at fault.
    AtFault,
    /// No memory was left.
    OutOfMemory,
}

impl From<OutOfMemory> for LineStop {
    ghost use Rattle.std.specs.Prelude.{◌≡◌};
    ghost use Rattle.jkasm.specs.declared.code_writer.LineStop.TheVariants as Stop;

    ghost from_gives = { λ _ e. e ≡ Stop.OutOfMemory };

    fn from(_e: OutOfMemory) -> LineStop {
        LineStop::OutOfMemory
    }
}

/// A full pool is the line's fault.
impl From<PoolError> for LineStop {
    ghost use Rattle.std.specs.Prelude.{◌≡◌};
    ghost use Rattle.jkasm.specs.LineStops.{stop_of};

    ghost from_gives = { λ e stop. stop ≡ stop_of e };

    fn from(e: PoolError) -> LineStop {
        match e {
            PoolError::Full => LineStop::AtFault,
            PoolError::OutOfMemory => LineStop::OutOfMemory,
        }
    }
}

// ---- Without the pool and labels.

/// An opcode, and a number of two bytes.
fn append_short(code: &mut Bytes, op: u8, n: u16) -> Result<(), OutOfMemory>
    ensures { OnOk result (code.new ≡ code.old ++ op ∷ u2 n) }
{
    code.push(op)?;
    append_u2(code, n)
}

/// An instruction on a local.
fn append_local(code: &mut Bytes, op: u8, local: u16) -> Result<(), OutOfMemory>
    ensures { OnOk result (code.new ≡ code.old ++ (if is_byte local then op ∷ local ∷ [] else WIDE ∷ op ∷ u2 local)) }
{
    if local < 256 {
        return code.extend_from_slice(&[op, local as u8]);
    }
    code.push(WIDE)?;
    append_short(code, op, local)
}

/// `iinc`
fn append_increment(code: &mut Bytes, local: u16, step: i16) -> Result<(), OutOfMemory>
    ensures { OnOk result (code.new ≡ code.old ++ (if is_byte local && is_byte_step step
        then IINC ∷ local ∷ cast_unsigned w8 step ∷ []
        else WIDE ∷ IINC ∷ u2 local ++ u2 (cast_unsigned w16 step))) }
{
    if local < 256 && -128 <= step && step <= 127 {
        return code.extend_from_slice(&[IINC, local as u8, (step as i8).cast_unsigned()]);
    }
    code.push(WIDE)?;
    append_short(code, IINC, local)?;
    append_u2(code, step.cast_unsigned())
}

// ---- With a constant.

/// The opcode that loads a constant.
fn load_op(constant: &Constant) -> u8
    ensures { result ≡ load_op constant.now }
{
    match constant {
        Constant::Long(_) => LDC2_W,
        _ => LDC_W,
    }
}

/// An instruction that loads a constant.
fn append_load(
    pool: &mut PoolBuilder,
    code: &mut Bytes,
    constant: &Constant,
) -> Result<(), LineStop>
    requires { HasPoolText constant.now }
    ensures written { OnOk result (HasIndex pool.new code.old code.new (load_op constant.now) (Value constant.now) []) }
    ensures takes { OnOk result (Takes pool.old pool.new (for_value constant.now)) }
    ensures full { result ≡ Err LineStop.AtFault → HasNoRoom pool.old (for_value constant.now) }
{
    let index = pool.value(constant)?;
    append_short(code, load_op(constant), index)?;
    Ok(())
}

/// An instruction on a class.
fn append_class(
    pool: &mut PoolBuilder,
    code: &mut Bytes,
    op: u8,
    class: &[u8],
) -> Result<(), LineStop>
    requires { IsPoolText class.now }
    ensures written { OnOk result (HasIndex pool.new code.old code.new op (Class class.now) []) }
    ensures takes { OnOk result (Takes pool.old pool.new (for_class class.now)) }
    ensures full { result ≡ Err LineStop.AtFault → HasNoRoom pool.old (for_class class.now) }
{
    let index = pool.class(class)?;
    append_short(code, op, index)?;
    Ok(())
}

/// `multianewarray`
fn append_new_arrays(
    pool: &mut PoolBuilder,
    code: &mut Bytes,
    class: &[u8],
    dims: u8,
) -> Result<(), LineStop>
    requires { IsPoolText class.now }
    ensures written { OnOk result (HasIndex pool.new code.old code.new MULTIANEWARRAY (Class class.now) (dims ∷ [])) }
    ensures takes { OnOk result (Takes pool.old pool.new (for_class class.now)) }
    ensures full { result ≡ Err LineStop.AtFault → HasNoRoom pool.old (for_class class.now) }
{
    append_class(pool, code, MULTIANEWARRAY, class)?;
    code.push(dims)?;
    Ok(())
}

/// What stands after the index of a reference to a member: the count 1 and a 0 for an interface's method.
fn append_member_end(code: &mut Bytes, kind: MemberKind) -> Result<(), OutOfMemory>
    ensures { OnOk result (code.new ≡ code.old ++ member_end kind) }
{
    match kind {
        MemberKind::InterfaceMethod => code.extend_from_slice(&[1, 0]),
        _ => Ok(()),
    }
}

/// An instruction on a member.
fn append_member(
    pool: &mut PoolBuilder,
    code: &mut Bytes,
    op: u8,
    kind: MemberKind,
    class: &[u8],
    name: &[u8],
    descriptor: &[u8],
) -> Result<(), LineStop>
    requires class { IsPoolText class.now }
    requires name { IsPoolText name.now }
    requires descriptor { IsPoolText descriptor.now }
    ensures written { OnOk result (HasIndex pool.new code.old code.new op
        (Reference kind class.now name.now descriptor.now) (member_end kind)) }
    ensures takes { OnOk result (Takes pool.old pool.new (for_reference kind class.now name.now descriptor.now)) }
    ensures full { result ≡ Err LineStop.AtFault
        → HasNoRoom pool.old (for_reference kind class.now name.now descriptor.now) }
{
    let index = pool.reference(kind, class, name, descriptor)?;
    append_short(code, op, index)?;
    append_member_end(code, kind)?;
    Ok(())
}

// ---- With labels.

/// The offset from a place to a label, or none where no such label stands. A place that no code has
/// counts as the nearest of those.
fn offset_to(labels: &Labels, at: u16, label: &[u8]) -> Option<i32>
    ensures { (codes : List CodeLine) → IsLabelsOf codes labels.now → result ≡ known_offset at (label_place 0 codes label.now) }
{
    let place = labels.place(label)?;
    if place < FAR {
        Some(place as i32 - i32::from(at))
    } else {
        Some(FAR as i32 - i32::from(at))
    }
}

/// A jump.
fn append_jump(labels: &Labels, code: &mut Bytes, op: u8, label: &[u8]) -> Result<(), LineStop>
    requires { length code.old ≤ 65535 }
    ensures written { (codes : List CodeLine) → IsLabelsOf codes labels.now
        → OnOk result (JumpsTo codes (length code.old) code.old code.new op label.now) }
    ensures fault { (codes : List CodeLine) → IsLabelsOf codes labels.now → result ≡ Err LineStop.AtFault
        → IsSome (label_place 0 codes label.now) → ReachesLabel codes (length code.old) (Some (Statement.Jump op label.now)) → ⊥ }
{
    let offset = offset_to(labels, code.len() as u16, label).ok_or(LineStop::AtFault)?;
    let Ok(offset) = i16::try_from(offset) else {
        return Err(LineStop::AtFault);
    };
    append_short(code, op, offset.cast_unsigned())?;
    Ok(())
}

/// The offset from a place to a label, in four bytes.
fn append_offset(labels: &Labels, code: &mut Bytes, at: u16, label: &[u8]) -> Result<(), LineStop>
    ensures written { (codes : List CodeLine) → IsLabelsOf codes labels.now
        → OnOk result (code.new ≡ code.old ++ offset_bytes codes at label.now) }
    ensures stands { (codes : List CodeLine) → IsLabelsOf codes labels.now
        → OnOk result (IsSome (label_place 0 codes label.now)) }
    ensures fault { (codes : List CodeLine) → IsLabelsOf codes labels.now → result ≡ Err LineStop.AtFault
        → label_place 0 codes label.now ≡ None }
{
    let offset = offset_to(labels, at, label).ok_or(LineStop::AtFault)?;
    append_u4(code, offset.cast_unsigned())?;
    Ok(())
}

/// The zeros between the opcode of a switch that stands at this place, and its operands.
fn append_gap(code: &mut Bytes, at: u16) -> Result<(), OutOfMemory>
    ensures { OnOk result (code.new ≡ code.old ++ replicate (gap at) 0) }
{
    match at % 4 {
        0 => code.extend_from_slice(&[0, 0, 0]),
        1 => code.extend_from_slice(&[0, 0]),
        2 => code.push(0),
        _ => Ok(()),
    }
}

/// The keys and offsets of a switch whose opcode stands at this place.
fn append_cases(
    labels: &Labels,
    code: &mut Bytes,
    at: u16,
    cases: &[SwitchLine],
) -> Result<(), LineStop>
    ensures written { (codes : List CodeLine) → IsLabelsOf codes labels.now
        → OnOk result (code.new ≡ code.old ++ flat_map (case_bytes codes at) cases.now) }
    ensures stand { (codes : List CodeLine) → IsLabelsOf codes labels.now → OnOk result (DoStand codes cases.now) }
    ensures fault { (codes : List CodeLine) → IsLabelsOf codes labels.now → result ≡ Err LineStop.AtFault
        → DoStand codes cases.now → ⊥ }
{
    for case in cases {
        append_u4(code, case.key.cast_unsigned())?;
        append_offset(labels, code, at, case.label.as_slice())?;
    }
    Ok(())
}

/// `lookupswitch`
fn append_switch(
    labels: &Labels,
    code: &mut Bytes,
    default: &[u8],
    cases: &[SwitchLine],
) -> Result<(), LineStop>
    requires short { length code.old ≤ 65535 }
    requires few { length cases.now < 2 ^ 32 }
    ensures written { (codes : List CodeLine) → IsLabelsOf codes labels.now
        → OnOk result (code.new ≡ code.old ++ switch_bytes codes (length code.old) default.now cases.now) }
    ensures stand { (codes : List CodeLine) → IsLabelsOf codes labels.now
        → OnOk result (IsSome (label_place 0 codes default.now) × DoStand codes cases.now) }
    ensures fault { (codes : List CodeLine) → IsLabelsOf codes labels.now → result ≡ Err LineStop.AtFault
        → IsSome (label_place 0 codes default.now) → DoStand codes cases.now → ⊥ }
{
    let at = code.len() as u16;
    code.push(LOOKUPSWITCH)?;
    append_gap(code, at)?;
    append_offset(labels, code, at, default)?;
    append_u4(code, cases.len() as u32)?;
    append_cases(labels, code, at, cases)
}

// ---- All instructions.

/// Writes an instruction where there is room for it.
fn write_in_room(
    pool: &mut PoolBuilder,
    labels: &Labels,
    code: &mut Bytes,
    statement: &Statement,
) -> Result<(), LineStop>
    requires room { length code.old + statement_size (length code.old) statement.now ≤ 65535 }
    requires texts { AllByRecursion IsPoolText (texts_of_statement (Some statement.now)) }
    ensures ok { (codes : List CodeLine) → IsLabelsOf codes labels.now
        → OnOk result (Writes codes pool.old pool.new code.old code.new (Some statement.now)) }
    ensures takes { OnOk result (Takes pool.old pool.new (for_statement (Some statement.now))) }
    ensures fault { (codes : List CodeLine) → IsLabelsOf codes labels.now → result ≡ Err LineStop.AtFault
        → CannotBeWritten codes pool.old code.old (Some statement.now) }
{
    match statement {
        Statement::Simple(op) => Ok(code.push(*op)?),
        Statement::Push(n) => Ok(append_short(code, SIPUSH, n.cast_unsigned())?),
        Statement::Load(constant) => append_load(pool, code, constant),
        Statement::OnLocal(op, local) => Ok(append_local(code, *op, *local)?),
        Statement::Increment(local, step) => Ok(append_increment(code, *local, *step)?),
        Statement::Jump(op, label) => append_jump(labels, code, *op, label.as_slice()),
        Statement::OnMember(op, kind, class, name, descriptor) => append_member(
            pool,
            code,
            *op,
            *kind,
            class.as_slice(),
            name.as_slice(),
            descriptor.as_slice(),
        ),
        Statement::OnClass(op, class) => append_class(pool, code, *op, class.as_slice()),
        Statement::NewArray(kind) => Ok(code.extend_from_slice(&[NEWARRAY, *kind])?),
        Statement::NewArrays(class, dims) => {
            append_new_arrays(pool, code, class.as_slice(), *dims)
        }
        Statement::Switch(default, cases) => {
            append_switch(labels, code, default.as_slice(), cases.as_slice())
        }
    }
}

/// Writes an instruction after the code so far, and puts what it needs into the pool.
pub(crate) fn write_statement(
    pool: &mut PoolBuilder,
    labels: &Labels,
    code: &mut Bytes,
    statement: &Statement,
) -> Result<(), LineStop>
    requires { AllByRecursion IsPoolText (texts_of_statement (Some statement.now)) }
    ensures ok { (codes : List CodeLine) → IsLabelsOf codes labels.now
        → OnOk result (Writes codes pool.old pool.new code.old code.new (Some statement.now)) }
    ensures takes { OnOk result (Takes pool.old pool.new (for_statement (Some statement.now))) }
    ensures fault { (codes : List CodeLine) → IsLabelsOf codes labels.now → result ≡ Err LineStop.AtFault
        → CannotBeWritten codes pool.old code.old (Some statement.now) }
{
    let at = code.len() as u64;
    if at > LONGEST || statement_size(at as u32, statement) > LONGEST - at {
        return Err(LineStop::AtFault);
    }
    write_in_room(pool, labels, code, statement)
}
