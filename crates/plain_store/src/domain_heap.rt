//! The heap of one domain. All its memory is taken when it is made.

ghost use Rattle.std.specs.Prelude.{◌≡◌, ◌+◌, ◌-◌, ◌<◌, ◌≤◌, ◌^◌, ◌++◌, pos, length, vec_capacity, if◌then◌else◌};
ghost use Rattle.jk_model.specs.declared.values.Value.TheVariants as Held;
ghost use Rattle.jk_model_heaps.specs.Heaps.{zero_object};
ghost use Rattle.object_store.specs.HeapContents.{HasShapeClasses, shape_words};
ghost use Rattle.plain_store.specs.Headers.{IsDomainHeap, HasRoom, IsUnit, is_text, units_in, values_in};

use crate::zeros::{add_fields, add_units, add_values, zero_of};
use class_table::ClassTable;
use jk_model::{NoRoom, OutOfMemory, Value};
use jk_model_heaps::Shape;
use object_costs::shape_words;
use std::alloc::Global;

/// The least that an object costs.
const LEAST_WORDS: u32 = 4;

/// An object: what it is of, where its payload begins, among the units where it is a text and else among the values, how many of
/// them it has, and its mark.
#[derive(Clone, Copy)]
pub(crate) struct Header {
    pub(crate) shape: Shape,
    pub(crate) first: u32,
    pub(crate) len: u32,
    pub(crate) mark: u32,
}

/// The objects of a domain, in the order of making. An object's name is its place among the headers. There is room for as many
/// headers as a heap of so many words can have, and for as many values and units.
#[derive(Drop)]
pub(crate) struct DomainHeap {
    pub(crate) words: u32,
    pub(crate) used: u32,
    pub(crate) headers: Vec<Header>,
    pub(crate) values: Vec<Value>,
    pub(crate) units: Vec<u16>,
    ghost ok: { IsDomainHeap words used headers.items values.items units.items },
    ghost room: { HasRoom words (vec_capacity headers) (vec_capacity values) (vec_capacity units) },
}

impl DomainHeap {
    ghost use Rattle.std.specs.Prelude.{◌≡◌, ◌-◌, ◌<◌, ◌≤◌, IfOk, OnOk, OnErr, Some};
    ghost use Rattle.jk_model_domains.specs.Objects.{Object as AnObject};
    ghost use Rattle.jk_model_heaps.specs.Heaps.{shape_of, zero_object};
    ghost use Rattle.object_store.specs.HeapContents.{HasShapeClasses, IsWritten, item_of, shape_words};
    ghost use Rattle.plain_store.specs.HeapMoves.{HasItemAt, IsFresh, IsNamed, IsNextIn, IsObject, MakesIn, MarksIn, TakesItemAt, WritesIn, mark_of};

    /// An empty heap of so many words.
    pub(crate) fn new(alloc: Global, words: u32) -> Result<DomainHeap, OutOfMemory>
        requires least { 1 ≤ words }
        requires most { words ≤ 16777216 }
        ensures { IfOk result (λ x. IsFresh x words) }
    {
        let headers = Vec::with_capacity(alloc, (words / LEAST_WORDS) as usize)?;
        let values = Vec::with_capacity(alloc, words as usize)?;
        let units = Vec::with_capacity(alloc, words as usize)?;
        Ok(DomainHeap {
            words,
            used: 0,
            headers,
            values,
            units,
        })
    }

    /// How many words are free.
    pub(crate) fn free(&self) -> u32
        ensures { result ≡ self.now.words - self.now.used }
    {
        self.words - self.used
    }

    /// Makes an object of zeros or nulls behind all others, and answers its name.
    pub(crate) fn make(&mut self, t: &ClassTable, shape: Shape) -> Result<u32, NoRoom>
        requires { HasShapeClasses t.now shape }
        ensures ok { IfOk result (λ a. MakesIn self.old self.new t.now a (zero_object t.now shape)) }
        ensures err { OnErr result (self.new ≡ self.old) }
        ensures room { OnOk result (shape_words t.now shape ≤ self.old.words - self.old.used) }
        ensures no_room { OnErr result (self.old.words - self.old.used < shape_words t.now shape) }
    {
        let cost = shape_words(t, &shape);
        if cost > u64::from(self.free()) {
            return Err(NoRoom);
        }
        let name = self.headers.len() as u32;
        let (first, len) = add_payload(&mut self.values, &mut self.units, t, &shape);
        self.headers.push_reserved(Header {
            shape,
            first,
            len,
            mark: 0,
        });
        self.used += cost as u32;
        Ok(name)
    }

    /// What an object is of.
    #[inline(always)]
    pub(crate) fn shape(&self, a: u32) -> Shape
        requires { IsNamed self.now a }
        ensures { (object : AnObject) → IsObject self.now a object → result ≡ shape_of object }
    {
        self.headers[a as usize].shape
    }

    /// The value at a place of an object.
    #[inline(always)]
    pub(crate) fn read(&self, a: u32, i: u32) -> Value
        requires { HasItemAt self.now a i }
        ensures { (object : AnObject) → IsObject self.now a object → item_of object i ≡ Some result }
    {
        let header = self.headers[a as usize];
        let place = (header.first + i) as usize;
        match header.shape {
            Shape::Text(_) => Value::Int(i32::from(self.units[place])),
            _ => self.values[place],
        }
    }

    /// Sets the value at a place of an object.
    #[inline(always)]
    pub(crate) fn write(&mut self, a: u32, i: u32, v: Value)
        requires { TakesItemAt self.old a i v }
        ensures { (object new : AnObject) → IsObject self.old a object → IsWritten object i v new → WritesIn self.old self.new a new }
    {
        let header = self.headers[a as usize];
        let place = (header.first + i) as usize;
        match header.shape {
            Shape::Text(_) => self.units[place] = unit_of(v),
            _ => self.values[place] = v,
        }
    }

    /// The mark of an object.
    pub(crate) fn mark(&self, a: u32) -> u32
        requires { IsNamed self.now a }
        ensures { result ≡ mark_of self.now a }
    {
        self.headers[a as usize].mark
    }

    /// Sets the mark of an object.
    pub(crate) fn set_mark(&mut self, a: u32, m: u32)
        requires { IsNamed self.old a }
        ensures { MarksIn self.old self.new a m }
    {
        self.headers[a as usize].mark = m;
    }

    /// The least name above this one, or of all where none is given.
    pub(crate) fn next_name(&self, above: Option<u32>) -> Option<u32>
        ensures { IsNextIn self.now above result }
    {
        let next = match above {
            Some(a) => a as usize + 1,
            None => 0,
        };
        if next < self.headers.len() {
            Some(next as u32)
        } else {
            None
        }
    }
}

/// Puts the payload of a new object behind all others, where there is room for it, and answers where it begins and how long it is.
fn add_payload(
    values: &mut Vec<Value>,
    units: &mut Vec<u16>,
    t: &ClassTable,
    shape: &Shape,
) -> (u32, u32)
    requires classes { HasShapeClasses t.now shape.now }
    requires fits { shape_words t.now shape.now ≤ 16777216 }
    requires few_values { length values.old.items ≤ 16777216 }
    requires few_units { length units.old.items ≤ 16777216 }
    requires values_room { length values.old.items + shape_words t.now shape.now ≤ vec_capacity values.old }
    requires units_room { length units.old.items + shape_words t.now shape.now ≤ vec_capacity units.old }
    ensures values { values.new.items ≡ values.old.items ++ values_in (zero_object t.now shape.now) }
    ensures units { units.new.items ≡ units.old.items ++ units_in (zero_object t.now shape.now) }
    ensures values_room { vec_capacity values.old ≤ vec_capacity values.new }
    ensures units_room { vec_capacity units.old ≤ vec_capacity units.new }
    ensures first { result.0 ≡ (if is_text shape.now then length units.old.items else length values.old.items) }
    ensures len { result.1 ≡ length (values_in (zero_object t.now shape.now)) + length (units_in (zero_object t.now shape.now)) }
{
    let first = values.len() as u32;
    match shape {
        Shape::Plain(c) => {
            add_fields(values, t, *c);
            (first, values.len() as u32 - first)
        }
        Shape::Array(element, len) => {
            add_values(values, *len, zero_of(element));
            (first, *len)
        }
        Shape::Text(len) => {
            let first = units.len() as u32;
            add_units(units, *len);
            (first, *len)
        }
        Shape::Task(_) => (first, 0),
    }
}

/// The unit that an Int from 0 to 65,535 stands for.
fn unit_of(v: Value) -> u16
    requires { IsUnit v }
    ensures { v ≡ Held.Int (pos result) }
{
    match v {
        Value::Int(n) => n as u16,
        _ => unreachable!(),
    }
}
