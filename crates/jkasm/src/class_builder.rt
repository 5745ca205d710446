//! Builds a class, line by line.

ghost use Rattle.std.specs.Prelude.{◌≡◌, ◌≤◌, [], Err, IfOk, OnOk, length};
ghost use Rattle.asm_reader.specs.declared.items.Item.TheVariants as item;
ghost use Rattle.jkasm.specs.Building.{IsHeaderOf};
ghost use Rattle.jkasm.specs.Constants.{for_item};
ghost use Rattle.jkasm.specs.Limits.{MAX_COUNT};
ghost use Rattle.jkasm.specs.PoolGrowth.{Takes, HasNoRoom};
ghost use Rattle.jkasm.specs.Texts.{HasPoolTexts};

use crate::code_writer::LineStop;
use crate::field_builder::build_field;
use crate::method_builder::{MethodBuilder, class_indices};
use crate::pool::PoolBuilder;
use asm_reader::{CatchLine, ClassLine, CodeLine, FieldLine, Item, LineReading, MethodLine};
use jk_model::{ClassFile, List, MemberInfo, OutOfMemory, PoolEntry};
use std::alloc::Global;

/// The most of everything that is counted in two bytes.
const MOST: usize = 65_535;

/// The version of the files that are made.
const VERSION: u16 = 48;

/// What the line of a class says, by indices.
#[derive(Drop)]
pub(crate) struct Header {
    pub flags: u16,
    pub this_class: u16,
    pub super_class: u16,
    pub interfaces: List<u16>,
}

/// A class that is not complete.
#[derive(Drop)]
pub(crate) struct ClassBuilder {
    pub pool: PoolBuilder,
    pub header: Option<Header>,
    pub fields: List<MemberInfo>,
    /// Those that have ended.
    pub methods: List<MemberInfo>,
    pub unfinished: Option<MethodBuilder>,
}

/// What the line of a class says, with its classes in the pool.
fn build_header(alloc: Global, pool: &mut PoolBuilder, line: &ClassLine) -> Result<Header, LineStop>
    requires { HasPoolTexts (item.Class line.now) }
    ensures says { IfOk result (λ h. IsHeaderOf pool.new line.now h) }
    ensures takes { OnOk result (Takes pool.old pool.new (for_item (item.Class line.now) [])) }
    ensures short { OnOk result (length line.now.interfaces ≤ MAX_COUNT) }
    ensures fault { result ≡ Err LineStop.AtFault → length line.now.interfaces ≤ MAX_COUNT
        → HasNoRoom pool.old (for_item (item.Class line.now) []) }
{
    if line.interfaces.len() > MOST {
        return Err(LineStop::AtFault);
    }
    let this_class = pool.class(line.name.as_slice())?;
    let super_class = pool.class(line.parent.as_slice())?;
    let interfaces = class_indices(alloc, pool, line.interfaces.as_slice())?;
    Ok(Header {
        flags: line.flags,
        this_class,
        super_class,
        interfaces,
    })
}

impl Header {
    ghost use Rattle.std.specs.Prelude.{◌≡◌, []};
    ghost use Rattle.jk_model.specs.ClassFile.{IsU2};

    /// The class file of this header, these constants and these members.
    fn into_file(
        self,
        alloc: Global,
        pool: List<PoolEntry>,
        fields: List<MemberInfo>,
        methods: List<MemberInfo>,
    ) -> ClassFile
        ensures parts { result ≡ record {
          minor = 0;
          major = 48;
          pool = pool;
          flags = self.flags;
          this_class = self.this_class;
          super_class = self.super_class;
          interfaces = self.interfaces;
          fields = fields;
          methods = methods;
          attributes = [];
        } }
        ensures numbers { IsU2 self.flags × IsU2 self.this_class × IsU2 self.super_class }
    {
        ClassFile {
            minor: 0,
            major: VERSION,
            pool,
            flags: self.flags,
            this_class: self.this_class,
            super_class: self.super_class,
            interfaces: self.interfaces,
            fields,
            methods,
            attributes: List::new(alloc),
        }
    }
}

impl ClassBuilder {
    ghost use Rattle.std.specs.Prelude.{◌≡◌, ◌&&◌, [], ◌∷◌, List, Some, Err, IfOk, OnOk, MatchOption, is_some, is_none};
    ghost use Rattle.jk_model.specs.ClassFile.{class_bytes, IsClass};
    ghost use Rattle.asm_reader.specs.declared.items.Item.TheVariants as item;
    ghost use Rattle.asm_reader.specs.declared.items.LineReading.TheVariants as reading;
    ghost use Rattle.asm_reader.specs.declared.items.LineReading.{LineReading};
    ghost use Rattle.jkasm.specs.Building.{IsBuilt};
    ghost use Rattle.jkasm.specs.ClassSteps.{Adds, CannotBeAdded};
    ghost use Rattle.jkasm.specs.ConstantRanges.{AreInRange};
    ghost use Rattle.jkasm.specs.Constants.{HasJust, PoolConstant};
    ghost use Rattle.jkasm.specs.GoodLines.{IsComplete};
    ghost use Rattle.jkasm.specs.Limits.{FitPool, IsWithinLimits};
    ghost use Rattle.jkasm.specs.Outline.{Outline, nothing_yet};
    ghost use Rattle.jkasm.specs.Texts.{HasPoolTexts};
    ghost use Rattle.jkasm.specs.WholeText.{SaysOutline};

    /// Nothing yet.
    pub(crate) fn new(alloc: Global) -> Result<ClassBuilder, OutOfMemory>
        ensures built { IfOk result (λ b. (later : List LineReading) → IsBuilt nothing_yet later b) }
        ensures pool { IfOk result (λ b. HasJust b.pool []) }
    {
        Ok(ClassBuilder {
            pool: PoolBuilder::new(alloc)?,
            header: None,
            fields: List::new(alloc),
            methods: List::new(alloc),
            unfinished: None,
        })
    }

    /// Whether the class was said, and no method is unfinished.
    fn has_room_for_members(&self) -> bool
        ensures { result ≡ is_some self.now.header && is_none self.now.unfinished }
    {
        self.header.is_some() && self.unfinished.is_none()
    }

    /// Takes the line of the class.
    fn add_class(&mut self, alloc: Global, line: &ClassLine) -> Result<(), LineStop>
        requires { HasPoolTexts (item.Class line.now) }
        ensures added { (o : Outline) (later : List LineReading)
            → IsBuilt o (reading.Short (item.Class line.now) ∷ later) self.old → IsWithinLimits o
            → OnOk result (Adds o (item.Class line.now) later self.old.pool self.new) }
        ensures fault { (o : Outline) (later : List LineReading)
            → IsBuilt o (reading.Short (item.Class line.now) ∷ later) self.old → IsWithinLimits o
            → result ≡ Err LineStop.AtFault → CannotBeAdded o (item.Class line.now) later self.old.pool }
    {
        if self.header.is_some() {
            return Err(LineStop::AtFault);
        }
        let header = build_header(alloc, &mut self.pool, line)?;
        self.header = Some(header);
        Ok(())
    }

    /// Takes a field.
    fn add_field(&mut self, alloc: Global, line: &FieldLine) -> Result<(), LineStop>
        requires { HasPoolTexts (item.Field line.now) }
        ensures added { (o : Outline) (later : List LineReading)
            → IsBuilt o (reading.Short (item.Field line.now) ∷ later) self.old → IsWithinLimits o
            → OnOk result (Adds o (item.Field line.now) later self.old.pool self.new) }
        ensures fault { (o : Outline) (later : List LineReading)
            → IsBuilt o (reading.Short (item.Field line.now) ∷ later) self.old → IsWithinLimits o
            → result ≡ Err LineStop.AtFault → CannotBeAdded o (item.Field line.now) later self.old.pool }
    {
        if !self.has_room_for_members() || self.fields.len() >= MOST {
            return Err(LineStop::AtFault);
        }
        let field = build_field(alloc, &mut self.pool, line)?;
        self.fields.push(field)?;
        Ok(())
    }

    /// Begins a method, which these lines come after.
    fn add_method(
        &mut self,
        alloc: Global,
        line: &MethodLine,
        later: &[LineReading],
    ) -> Result<(), LineStop>
        requires { HasPoolTexts (item.Method line.now) }
        ensures added { (o : Outline) → IsBuilt o (reading.Short (item.Method line.now) ∷ later.now) self.old → IsWithinLimits o
            → OnOk result (Adds o (item.Method line.now) later.now self.old.pool self.new) }
        ensures fault { (o : Outline) → IsBuilt o (reading.Short (item.Method line.now) ∷ later.now) self.old → IsWithinLimits o
            → result ≡ Err LineStop.AtFault → CannotBeAdded o (item.Method line.now) later.now self.old.pool }
    {
        if !self.has_room_for_members() || self.methods.len() >= MOST {
            return Err(LineStop::AtFault);
        }
        let method = MethodBuilder::begin(alloc, &mut self.pool, line, later)?;
        self.unfinished = Some(method);
        Ok(())
    }

    /// Takes a code line.
    fn add_code(&mut self, alloc: Global, line: &CodeLine) -> Result<(), LineStop>
        requires { HasPoolTexts (item.Code line.now) }
        ensures added { (o : Outline) (later : List LineReading)
            → IsBuilt o (reading.Short (item.Code line.now) ∷ later) self.old → IsWithinLimits o
            → OnOk result (Adds o (item.Code line.now) later self.old.pool self.new) }
        ensures fault { (o : Outline) (later : List LineReading)
            → IsBuilt o (reading.Short (item.Code line.now) ∷ later) self.old → IsWithinLimits o
            → result ≡ Err LineStop.AtFault → CannotBeAdded o (item.Code line.now) later self.old.pool }
    {
        let Some(method) = &mut self.unfinished else {
            return Err(LineStop::AtFault);
        };
        method.code_line(alloc, &mut self.pool, line)?;
        Ok(())
    }

    /// Takes a handler.
    fn add_catch(&mut self, line: &CatchLine) -> Result<(), LineStop>
        requires { HasPoolTexts (item.Catch line.now) }
        ensures added { (o : Outline) (later : List LineReading)
            → IsBuilt o (reading.Short (item.Catch line.now) ∷ later) self.old → IsWithinLimits o
            → OnOk result (Adds o (item.Catch line.now) later self.old.pool self.new) }
        ensures fault { (o : Outline) (later : List LineReading)
            → IsBuilt o (reading.Short (item.Catch line.now) ∷ later) self.old → IsWithinLimits o
            → result ≡ Err LineStop.AtFault → CannotBeAdded o (item.Catch line.now) later self.old.pool }
    {
        let Some(method) = &mut self.unfinished else {
            return Err(LineStop::AtFault);
        };
        method.catch_line(&mut self.pool, line)?;
        Ok(())
    }

    /// Ends the method.
    fn add_end(&mut self, alloc: Global) -> Result<(), LineStop>
        ensures added { (o : Outline) (later : List LineReading) → IsBuilt o (reading.Short item.End ∷ later) self.old → IsWithinLimits o
            → OnOk result (Adds o item.End later self.old.pool self.new) }
        ensures fault { (o : Outline) (later : List LineReading) → IsBuilt o (reading.Short item.End ∷ later) self.old → IsWithinLimits o
            → result ≡ Err LineStop.AtFault → CannotBeAdded o item.End later self.old.pool }
    {
        let Some(method) = self.unfinished.take() else {
            return Err(LineStop::AtFault);
        };
        let method = method.end(alloc)?;
        self.methods.push(method)?;
        Ok(())
    }

    /// Takes an item, which these lines come after.
    pub(crate) fn add(
        &mut self,
        alloc: Global,
        item: &Item,
        later: &[LineReading],
    ) -> Result<(), LineStop>
        requires { HasPoolTexts item.now }
        ensures added { (o : Outline) → IsBuilt o (reading.Short item.now ∷ later.now) self.old → IsWithinLimits o
            → OnOk result (Adds o item.now later.now self.old.pool self.new) }
        ensures fault { (o : Outline) → IsBuilt o (reading.Short item.now ∷ later.now) self.old → IsWithinLimits o
            → result ≡ Err LineStop.AtFault → CannotBeAdded o item.now later.now self.old.pool }
    {
        match item {
            Item::Class(line) => self.add_class(alloc, line),
            Item::Field(line) => self.add_field(alloc, line),
            Item::Method(line) => self.add_method(alloc, line, later),
            Item::Code(line) => self.add_code(alloc, line),
            Item::Catch(line) => self.add_catch(line),
            Item::End => self.add_end(alloc),
        }
    }

    /// Stands for its clause, and does nothing: what the pool has fits a pool.
    pub(crate) fn constants_fit(&self)
        ensures { (constants : List PoolConstant) → HasJust self.now.pool constants → AreInRange constants → FitPool constants }
    {
        self.pool.constants_fit();
    }

    /// The class file, or none where no class was said or a method is unfinished.
    pub(crate) fn into_class(self, alloc: Global) -> Option<ClassFile>
        ensures { (o : Outline) (later : List LineReading) (constants : List PoolConstant) → IsBuilt o later self
            → HasJust self.pool constants
            → MatchOption result (IsComplete o → ⊥) (λ c. IsClass (class_bytes c) c × SaysOutline o constants c) }
    {
        let ClassBuilder {
            pool,
            header,
            fields,
            methods,
            unfinished,
        } = self;
        if unfinished.is_some() {
            return None;
        }
        let file = header?.into_file(alloc, pool.into_entries(), fields, methods);
        Some(file)
    }
}
