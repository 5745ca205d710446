//! The sizes of instructions, and the places that the labels of a method stand for.

ghost use Rattle.std.specs.Prelude.{◌≡◌, ◌+◌, ◌*◌, length, ◌≤◌, ◌++◌, ◌∷◌, ◌↔◌, [], List, Some, None, IfOk, OnOk, IsTrue, min};
ghost use Rattle.asm_reader.specs.declared.items.CodeLine.{CodeLine};
ghost use Rattle.jk_model.specs.Instructions.{gap};
ghost use Rattle.jkasm.specs.CodePlaces.{is_byte, is_byte_step, statement_size, line_size, label_place};
ghost use Rattle.jkasm.specs.Labels.{FAR, IsKnownLabel};
ghost use Rattle.jkasm.specs.LabelTables.{IsLabelsOf, AreSeenOf, Notes, ReadsItem, Reads};
ghost use Rattle.jkasm.specs.Outline.{items_of, codes_to_end};

use asm_reader::{CodeLine, Item, LineReading, MemberKind, Statement, SwitchLine};
use jk_model::OutOfMemory;
use std::alloc::Global;
use std::collections::{BTreeMap, BTreeSet};

/// A place that no code has. All that lie after it count as this one.
const TOO_FAR: u32 = 1 << 20;

/// Whether a local is written in one byte.
fn is_byte(local: u16) -> bool
    ensures { result ≡ is_byte local }
{
    local < 256
}

/// Whether a step is written in one byte.
fn is_byte_step(step: i16) -> bool
    ensures { result ≡ is_byte_step step }
{
    -128 <= step && step <= 127
}

/// How many bytes a switch takes whose opcode stands at this place.
fn switch_size(at: u32, cases: &[SwitchLine]) -> u64
    ensures { result ≡ 9 + gap at + 8 * length cases.now }
{
    let gap = 3 - u64::from(at % 4);
    9 + gap + 8 * cases.len() as u64
}

/// How many bytes an instruction takes whose opcode stands at this place.
pub(crate) fn statement_size(at: u32, statement: &Statement) -> u64
    ensures { result ≡ statement_size at statement.now }
{
    match statement {
        Statement::Simple(_) => 1,
        Statement::OnLocal(_, local) if is_byte(*local) => 2,
        Statement::OnLocal(..) => 4,
        Statement::Increment(local, step) if is_byte(*local) && is_byte_step(*step) => 3,
        Statement::Increment(..) => 6,
        Statement::OnMember(_, MemberKind::InterfaceMethod, ..) => 5,
        Statement::NewArray(_) => 2,
        Statement::NewArrays(..) => 4,
        Statement::Switch(_, cases) => switch_size(at, cases.as_slice()),
        Statement::Push(_)
        | Statement::Load(_)
        | Statement::Jump(..)
        | Statement::OnMember(..)
        | Statement::OnClass(..) => 3,
    }
}

/// The place after a line, or the one that is too far.
fn next_place(at: u32, line: &CodeLine) -> u32
    requires { at ≤ FAR }
    ensures { result ≡ min (at + line_size at line.now.statement) FAR }
{
    let Some(statement) = &line.statement else {
        return at;
    };
    let next = u64::from(at).saturating_add(statement_size(at, statement));
    next.min(u64::from(TOO_FAR)) as u32
}

/// The places of a method's labels.
#[derive(Drop)]
pub(crate) struct Labels {
    places: BTreeMap<Vec<u8>, u32>,
}

impl Labels {
    /// The labels of the method whose lines begin here: up to its end, or that of the text. In time linear
    /// in these lines, and a logarithm more.
    pub(crate) fn of(alloc: Global, later: &[LineReading]) -> Result<Labels, OutOfMemory>
        ensures { IfOk result (IsLabelsOf (codes_to_end (items_of later.now))) }
    {
        let mut labels = Labels {
            places: BTreeMap::new(alloc),
        };
        let mut at = 0;
        for reading in later {
            let Some(next) = labels.read(alloc, at, reading)? else {
                return Ok(labels);
            };
            at = next;
        }
        Ok(labels)
    }

    /// Takes the line at this place, and answers the place after it. There is none after the end of a method.
    fn read(
        &mut self,
        alloc: Global,
        at: u32,
        reading: &LineReading,
    ) -> Result<Option<u32>, OutOfMemory>
        requires { at ≤ FAR }
        ensures { IfOk result (Reads self.old at reading.now self.new) }
    {
        match reading {
            LineReading::Short(item) | LineReading::Long(item) => self.read_item(alloc, at, item),
            LineReading::Empty | LineReading::Bad => Ok(Some(at)),
        }
    }

    /// The same of an item.
    fn read_item(&mut self, alloc: Global, at: u32, item: &Item) -> Result<Option<u32>, OutOfMemory>
        requires { at ≤ FAR }
        ensures { IfOk result (ReadsItem self.old at item.now self.new) }
    {
        match item {
            Item::Code(line) => {
                self.note(alloc, at, line)?;
                Ok(Some(next_place(at, line)))
            }
            Item::End => Ok(None),
            Item::Class(_) | Item::Field(_) | Item::Method(_) | Item::Catch(_) => Ok(Some(at)),
        }
    }

    /// Puts the label of a line at its place, unless it stands at an earlier one.
    fn note(&mut self, alloc: Global, at: u32, line: &CodeLine) -> Result<(), OutOfMemory>
        ensures { OnOk result (Notes self.old line.now.label at self.new) }
    {
        let Some(label) = &line.label else {
            return Ok(());
        };
        if self.places.contains_key(label.as_slice()) {
            return Ok(());
        }
        let key = Vec::from_slice(alloc, label.as_slice())?;
        self.places.insert(key, at)?;
        Ok(())
    }

    /// The place of a label, or a place that is too far away, or that there is none.
    pub(crate) fn place(&self, label: &[u8]) -> Option<u32>
        ensures { (codes : List CodeLine) → IsLabelsOf codes self.now → IsKnownLabel codes label.now result }
    {
        self.places.get(label).copied()
    }
}

/// The labels that were met so far.
#[derive(Drop)]
pub(crate) struct SeenLabels {
    labels: BTreeSet<Vec<u8>>,
}

impl SeenLabels {
    /// None.
    pub(crate) fn new(alloc: Global) -> SeenLabels
        ensures { AreSeenOf [] result }
    {
        SeenLabels {
            labels: BTreeSet::new(alloc),
        }
    }

    /// Puts a label to those, and answers whether it wasn't among them.
    pub(crate) fn meet(&mut self, alloc: Global, label: &[u8]) -> Result<bool, OutOfMemory>
        ensures new { (codes : List CodeLine) → AreSeenOf codes self.old
            → IfOk result (λ is_new. IsTrue is_new ↔ (label_place 0 codes label.now ≡ None)) }
        ensures seen { (codes : List CodeLine) (line : CodeLine) → AreSeenOf codes self.old → line.label ≡ Some label.now
            → OnOk result (AreSeenOf (codes ++ line ∷ []) self.new) }
    {
        if self.labels.contains(label) {
            return Ok(false);
        }
        let key = Vec::from_slice(alloc, label)?;
        self.labels.insert(key)?;
        Ok(true)
    }
}
