//! Builds a method, line by line.

ghost use Rattle.std.specs.Prelude.{◌≡◌, ◌≤◌, ◌∷◌, ◌++◌, [], List, Err, IfOk, OnOk, flat_map, is_some, length};
ghost use Rattle.std.specs.List.{AllByRecursion};
ghost use Rattle.jk_model.specs.ClassFile.{AreAttributes, AreBytes, IsHandler, IsU2};
ghost use Rattle.asm_reader.specs.declared.items.CodeLine.{CodeLine};
ghost use Rattle.asm_reader.specs.declared.items.Item.TheVariants as item;
ghost use Rattle.jkasm.specs.Assembled.{Agree, HasThrowsAttribute, IsCaught};
ghost use Rattle.jkasm.specs.Building.{IsCodeName};
ghost use Rattle.jkasm.specs.CodeBody.{IsCodeBody};
ghost use Rattle.jkasm.specs.Constants.{ClassAt, for_caught, for_class, for_code, for_statement, for_throws, goes_on};
ghost use Rattle.jkasm.specs.GoodLines.{IsNew};
ghost use Rattle.jkasm.specs.HandlerPlaces.{IsPlaceOf, IsPlacedOrNone};
ghost use Rattle.jkasm.specs.LabelTables.{IsLabelsOf, AreSeenOf};
ghost use Rattle.jkasm.specs.Limits.{MAX_COUNT};
ghost use Rattle.jkasm.specs.LineWriting.{Writes, CannotBeWritten};
ghost use Rattle.jkasm.specs.PoolGrowth.{Takes, HasNoRoom, IsPoolText};
ghost use Rattle.jkasm.specs.Texts.{HasPoolTexts};

use crate::code_writer::{LineStop, write_statement};
use crate::labels::{Labels, SeenLabels};
use crate::pool::PoolBuilder;
use asm_reader::{CatchLine, CodeLine, Item, LineReading, MethodLine};
use class_writer::{append_list, write_code};
use jk_model::{Attribute, Bytes, Code, Handler, List, MemberInfo, OutOfMemory};
use std::alloc::Global;

/// The most of everything that is counted in two bytes.
const MOST: usize = 65_535;

/// A method that has not ended.
#[derive(Drop)]
pub(crate) struct MethodBuilder {
    pub flags: u16,
    /// The index of its name, and that of its descriptor.
    pub name: u16,
    pub descriptor: u16,
    pub stack: u16,
    pub locals: u16,
    /// The index of the name of the attribute Code, where the method has lines.
    pub code_name: Option<u16>,
    /// The attribute Exceptions, where it may throw something.
    pub thrown: List<Attribute>,
    pub labels: Labels,
    pub seen: SeenLabels,
    pub code: Bytes,
    pub handlers: List<Handler>,
}

/// Whether the first line that isn't empty is there, and is no `end`.
fn goes_on(later: &[LineReading]) -> bool
    ensures { result ≡ goes_on later.now }
{
    for reading in later {
        match reading {
            LineReading::Empty => {}
            LineReading::Short(Item::End) => return false,
            _ => return true,
        }
    }
    false
}

/// The index of the name of Code, where a method has lines.
fn code_name(pool: &mut PoolBuilder, later: &[LineReading]) -> Result<Option<u16>, LineStop>
    ensures name { IfOk result (λ name. IsCodeName pool.new name) }
    ensures named { IfOk result (λ name. is_some name ≡ goes_on later.now) }
    ensures takes { OnOk result (Takes pool.old pool.new (for_code (goes_on later.now))) }
    ensures fault { result ≡ Err LineStop.AtFault → HasNoRoom pool.old (for_code (goes_on later.now)) }
{
    if !goes_on(later) {
        return Ok(None);
    }
    let name = pool.utf8(b"Code")?;
    Ok(Some(name))
}

/// The indices of classes.
pub(crate) fn class_indices(
    alloc: Global,
    pool: &mut PoolBuilder,
    classes: &[Bytes],
) -> Result<List<u16>, LineStop>
    requires { AllByRecursion IsPoolText classes.now }
    ensures says { IfOk result (λ indices. Agree (λ class i. ClassAt pool.new i class) classes.now indices) }
    ensures fit { IfOk result (λ indices. AllByRecursion IsU2 indices) }
    ensures takes { OnOk result (Takes pool.old pool.new (flat_map for_class classes.now)) }
    ensures fault { result ≡ Err LineStop.AtFault → HasNoRoom pool.old (flat_map for_class classes.now) }
{
    let mut indices = List::new(alloc);
    for class in classes {
        let index = pool.class(class.as_slice())?;
        indices.push(index)?;
    }
    Ok(indices)
}

/// The attribute Exceptions, where classes are thrown. At most 65,535 are.
fn thrown(
    alloc: Global,
    pool: &mut PoolBuilder,
    classes: &[Bytes],
) -> Result<List<Attribute>, LineStop>
    requires { AllByRecursion IsPoolText classes.now }
    ensures has { IfOk result (λ attributes. HasThrowsAttribute pool.new classes.now attributes) }
    ensures fit { IfOk result (λ attributes. AreAttributes attributes) }
    ensures takes { OnOk result (Takes pool.old pool.new (for_throws classes.now)) }
    ensures short { OnOk result (length classes.now ≤ MAX_COUNT) }
    ensures fault { result ≡ Err LineStop.AtFault → length classes.now ≤ MAX_COUNT
        → HasNoRoom pool.old (for_throws classes.now) }
{
    let mut attributes = List::new(alloc);
    if classes.is_empty() {
        return Ok(attributes);
    }
    if classes.len() > MOST {
        return Err(LineStop::AtFault);
    }
    let name = pool.utf8(b"Exceptions")?;
    let indices = class_indices(alloc, pool, classes)?;
    let mut body = Bytes::new(alloc);
    append_list(&mut body, indices.as_slice())?;
    attributes.push(Attribute { name, body })?;
    Ok(attributes)
}

/// The place of a label in a code. It is any place where the code is too long.
fn short_place(labels: &Labels, label: &[u8]) -> Option<u16>
    ensures { (codes : List CodeLine) → IsLabelsOf codes labels.now → IsPlaceOf codes label.now result }
{
    let place = labels.place(label)?;
    Some(place.min(65_535) as u16)
}

/// The handler of a line, which catches the class at an index. None where a label doesn't stand in the method.
fn handler_of(labels: &Labels, line: &CatchLine, catch: u16) -> Option<Handler>
    ensures { (codes : List CodeLine) → IsLabelsOf codes labels.now → IsPlacedOrNone codes line.now catch result }
{
    let start = short_place(labels, line.from.as_slice())?;
    let end = short_place(labels, line.to.as_slice())?;
    let handler = short_place(labels, line.handler.as_slice())?;
    Some(Handler {
        start,
        end,
        handler,
        catch,
    })
}

/// The index of the class that a handler catches, 0 for any.
fn caught(pool: &mut PoolBuilder, line: &CatchLine) -> Result<u16, LineStop>
    requires { HasPoolTexts (item.Catch line.now) }
    ensures is_caught { IfOk result (λ i. IsCaught pool.new i line.now.class) }
    ensures takes { OnOk result (Takes pool.old pool.new (for_caught line.now.class)) }
    ensures fault { result ≡ Err LineStop.AtFault → HasNoRoom pool.old (for_caught line.now.class) }
{
    let Some(class) = &line.class else {
        return Ok(0);
    };
    Ok(pool.class(class.as_slice())?)
}

// ---- What the types of numbers say of them. These functions do nothing: their callers need the clauses.

/// Each of these is a byte.
fn are_bytes(bytes: &[u8])
    ensures { AreBytes bytes.now }
{}

/// Each of these numbers has two bytes.
fn are_u2(start: u16, end: u16, handler: u16, catch: u16)
    ensures { IsU2 start × IsU2 end × IsU2 handler × IsU2 catch }
{}

/// The numbers of each handler have two bytes.
fn are_handlers(handlers: &[Handler])
    ensures { AllByRecursion IsHandler handlers.now }
{
    for handler in handlers {
        are_u2(handler.start, handler.end, handler.handler, handler.catch);
    }
}

// ---- The parts of a method.

/// The body of the attribute Code. At fault where there is no instruction, or too much.
fn code_body(
    alloc: Global,
    stack: u16,
    locals: u16,
    code: Bytes,
    handlers: List<Handler>,
) -> Result<Bytes, LineStop>
    ensures body { IfOk result (λ body. IsCodeBody (record {
      max_stack = stack;
      max_locals = locals;
      code = code;
      handlers = handlers;
      attributes = [];
    }) body) }
    ensures fault { result ≡ Err LineStop.AtFault → length code ≤ MAX_COUNT → length handlers ≤ MAX_COUNT → code ≡ [] }
{
    if code.is_empty() || code.len() > MOST || handlers.len() > MOST {
        return Err(LineStop::AtFault);
    }
    are_bytes(code.as_slice());
    are_handlers(handlers.as_slice());
    let attributes = List::new(alloc);
    let code = Code {
        max_stack: stack,
        max_locals: locals,
        code,
        handlers,
        attributes,
    };
    let body = write_code(alloc, &code)?;
    are_bytes(body.as_slice());
    Ok(body)
}

/// Puts an attribute in front of others, of which there is one at most.
fn put_first(attributes: &mut List<Attribute>, first: Attribute) -> Result<(), OutOfMemory>
    ensures { length attributes.old ≤ 1 → OnOk result (attributes.new ≡ first ∷ attributes.old) }
{
    if attributes.is_empty() {
        return attributes.push(first);
    }
    let second = attributes.replace(0, first);
    attributes.push(second)
}

/// Takes the label of a line. At fault where it was met before.
fn meet_label(alloc: Global, seen: &mut SeenLabels, line: &CodeLine) -> Result<(), LineStop>
    ensures new { (codes : List CodeLine) → AreSeenOf codes seen.old → OnOk result (IsNew codes line.now.label) }
    ensures seen { (codes : List CodeLine) → AreSeenOf codes seen.old
        → OnOk result (AreSeenOf (codes ++ line.now ∷ []) seen.new) }
    ensures fault { (codes : List CodeLine) → AreSeenOf codes seen.old → result ≡ Err LineStop.AtFault
        → IsNew codes line.now.label → ⊥ }
{
    match &line.label {
        None => Ok(()),
        Some(label) => {
            if seen.meet(alloc, label.as_slice())? {
                Ok(())
            } else {
                Err(LineStop::AtFault)
            }
        }
    }
}

/// Writes the instruction of a line, where it has one.
fn write_line(
    pool: &mut PoolBuilder,
    labels: &Labels,
    code: &mut Bytes,
    line: &CodeLine,
) -> Result<(), LineStop>
    requires { HasPoolTexts (item.Code line.now) }
    ensures ok { (codes : List CodeLine) → IsLabelsOf codes labels.now → length code.old ≤ MAX_COUNT
        → OnOk result (Writes codes pool.old pool.new code.old code.new line.now.statement) }
    ensures takes { OnOk result (Takes pool.old pool.new (for_statement line.now.statement)) }
    ensures fault { (codes : List CodeLine) → IsLabelsOf codes labels.now → result ≡ Err LineStop.AtFault
        → CannotBeWritten codes pool.old code.old line.now.statement }
{
    match &line.statement {
        Some(statement) => write_statement(pool, labels, code, statement),
        None => Ok(()),
    }
}

impl MethodBuilder {
    ghost use Rattle.std.specs.Prelude.{◌≡◌, ◌≤◌, ◌++◌, ◌∷◌, [], List, Some, Err, IfOk, OnOk, length};
    ghost use Rattle.std.specs.List.{AllByRecursion};
    ghost use Rattle.jk_model.specs.declared.class_file.PoolEntry.{PoolEntry};
    ghost use Rattle.jk_model.specs.ClassFile.{IsMember};
    ghost use Rattle.asm_reader.specs.declared.items.Item.TheVariants as item;
    ghost use Rattle.asm_reader.specs.declared.items.LineReading.{LineReading};
    ghost use Rattle.asm_reader.specs.declared.items.LineReading.TheVariants as reading;
    ghost use Rattle.jkasm.specs.Assembled.{IsMethodOf};
    ghost use Rattle.jkasm.specs.Building.{IsMethodSoFar};
    ghost use Rattle.jkasm.specs.CodePlaces.{place_after};
    ghost use Rattle.jkasm.specs.Constants.{for_item, for_statement, for_caught};
    ghost use Rattle.jkasm.specs.GoodLines.{HasGoodLabels, AllStand, HasCodeOrNothing};
    ghost use Rattle.jkasm.specs.Limits.{MAX_COUNT};
    ghost use Rattle.jkasm.specs.Outline.{MethodText, items_of, codes_to_end};
    ghost use Rattle.jkasm.specs.PoolGrowth.{Takes, HasNoRoom};
    ghost use Rattle.jkasm.specs.Texts.{HasPoolTexts};

    /// Begins the method of a line, which the lines after it belong to.
    pub(crate) fn begin(
        alloc: Global,
        pool: &mut PoolBuilder,
        line: &MethodLine,
        later: &[LineReading],
    ) -> Result<MethodBuilder, LineStop>
        requires { HasPoolTexts (item.Method line.now) }
        ensures begun { IfOk result (IsMethodSoFar pool.new (record { line = line.now; codes = []; catches = [] }) later.now) }
        ensures takes { OnOk result (Takes pool.old pool.new (for_item (item.Method line.now) later.now)) }
        ensures short { OnOk result (length line.now.throws ≤ MAX_COUNT) }
        ensures fault { result ≡ Err LineStop.AtFault → length line.now.throws ≤ MAX_COUNT
            → HasNoRoom pool.old (for_item (item.Method line.now) later.now) }
    {
        let name = pool.utf8(line.name.as_slice())?;
        let descriptor = pool.utf8(line.descriptor.as_slice())?;
        let code_name = code_name(pool, later)?;
        let thrown = thrown(alloc, pool, line.throws.as_slice())?;
        let labels = Labels::of(alloc, later)?;
        Ok(MethodBuilder {
            flags: line.flags,
            name,
            descriptor,
            stack: line.stack,
            locals: line.locals,
            code_name,
            thrown,
            labels,
            seen: SeenLabels::new(alloc),
            code: Bytes::new(alloc),
            handlers: List::new(alloc),
        })
    }

    /// Takes a code line.
    pub(crate) fn code_line(
        &mut self,
        alloc: Global,
        pool: &mut PoolBuilder,
        line: &CodeLine,
    ) -> Result<(), LineStop>
        requires { HasPoolTexts (item.Code line.now) }
        ensures built { (m : MethodText) (later : List LineReading)
            → IsMethodSoFar pool.old m (reading.Short (item.Code line.now) ∷ later) self.old
            → OnOk result (IsMethodSoFar pool.new (record m { codes = m.codes ++ line.now ∷ [] }) later self.new) }
        ensures good { (m : MethodText) (later : List LineReading)
            → IsMethodSoFar pool.old m (reading.Short (item.Code line.now) ∷ later) self.old
            → OnOk result (HasGoodLabels m.codes line.now (codes_to_end (items_of later))) }
        ensures takes { OnOk result (Takes pool.old pool.new (for_statement line.now.statement)) }
        ensures fault { (m : MethodText) (later : List LineReading)
            → IsMethodSoFar pool.old m (reading.Short (item.Code line.now) ∷ later) self.old
            → result ≡ Err LineStop.AtFault
            → HasGoodLabels m.codes line.now (codes_to_end (items_of later))
            → place_after 0 (m.codes ++ line.now ∷ []) ≤ MAX_COUNT
            → HasNoRoom pool.old (for_statement line.now.statement) }
    {
        meet_label(alloc, &mut self.seen, line)?;
        write_line(pool, &self.labels, &mut self.code, line)?;
        are_bytes(self.code.as_slice());
        Ok(())
    }

    /// Takes a handler.
    pub(crate) fn catch_line(
        &mut self,
        pool: &mut PoolBuilder,
        line: &CatchLine,
    ) -> Result<(), LineStop>
        requires { HasPoolTexts (item.Catch line.now) }
        ensures built { (m : MethodText) (later : List LineReading)
            → IsMethodSoFar pool.old m (reading.Short (item.Catch line.now) ∷ later) self.old
            → OnOk result (IsMethodSoFar pool.new (record m { catches = m.catches ++ line.now ∷ [] }) later self.new) }
        ensures good { (m : MethodText) (later : List LineReading)
            → IsMethodSoFar pool.old m (reading.Short (item.Catch line.now) ∷ later) self.old
            → OnOk result (AllStand (m.codes ++ codes_to_end (items_of later))
            (line.now.from ∷ line.now.to ∷ line.now.handler ∷ []) × (length (m.catches ++ line.now ∷ []) ≤ MAX_COUNT)) }
        ensures takes { OnOk result (Takes pool.old pool.new (for_caught line.now.class)) }
        ensures fault { (m : MethodText) (later : List LineReading)
            → IsMethodSoFar pool.old m (reading.Short (item.Catch line.now) ∷ later) self.old
            → result ≡ Err LineStop.AtFault
            → AllStand (m.codes ++ codes_to_end (items_of later)) (line.now.from ∷ line.now.to ∷ line.now.handler ∷ [])
            → length (m.catches ++ line.now ∷ []) ≤ MAX_COUNT
            → HasNoRoom pool.old (for_caught line.now.class) }
    {
        if self.handlers.len() >= MOST {
            return Err(LineStop::AtFault);
        }
        let catch = caught(pool, line)?;
        let Some(handler) = handler_of(&self.labels, line, catch) else {
            return Err(LineStop::AtFault);
        };
        self.handlers.push(handler)?;
        Ok(())
    }

    /// The method, at its end. It has an instruction, or no lines at all.
    pub(crate) fn end(self, alloc: Global) -> Result<MemberInfo, LineStop>
        ensures built { (pool : List PoolEntry) (m : MethodText) (later : List LineReading)
            → IsMethodSoFar pool m (reading.Short item.End ∷ later) self → length m.catches ≤ MAX_COUNT
            → IfOk result (λ method. IsMethodOf pool m method × IsMember method × HasCodeOrNothing m) }
        ensures fault { (pool : List PoolEntry) (m : MethodText) (later : List LineReading)
            → IsMethodSoFar pool m (reading.Short item.End ∷ later) self → length m.catches ≤ MAX_COUNT
            → result ≡ Err LineStop.AtFault → HasCodeOrNothing m → ⊥ }
    {
        let MethodBuilder {
            flags,
            name,
            descriptor,
            stack,
            locals,
            code_name,
            thrown: mut attributes,
            labels: _labels,
            seen: _seen,
            code,
            handlers,
        } = self;
        if let Some(name) = code_name {
            let body = code_body(alloc, stack, locals, code, handlers)?;
            put_first(&mut attributes, Attribute { name, body })?;
        }
        Ok(MemberInfo {
            flags,
            name,
            descriptor,
            attributes,
        })
    }
}
