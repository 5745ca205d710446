//! Codes of methods, as they would be made of class files.

use crate::records::{PUBLIC, Signature};
use jk_model::opcodes::{ALOAD, ASTORE, LOOKUPSWITCH};
use jk_model::{Instr, List, OutOfMemory, SwitchCase};
use jk_model_classes::{Body, Caught, LinkedCode, MethodRecord};
use shared_values::Text;
use std::alloc::Global;

/// Flag of a member: static.
const STATIC: u16 = 0x0008;

/// The code of a static method, as far as it is written.
#[derive(Drop)]
pub struct CodeWriter {
    alloc: Global,
    code: LinkedCode,
}

impl CodeWriter {
    /// A code without instructions, with so many slots.
    pub fn new(alloc: Global, max_locals: u16, max_stack: u16) -> CodeWriter {
        CodeWriter {
            alloc,
            code: LinkedCode {
                max_stack,
                max_locals,
                instrs: List::new(alloc),
                handlers: List::new(alloc),
            },
        }
    }

    /// The place of the next instruction.
    pub fn place(&self) -> u16 {
        self.code.instrs.len().min(65_535) as u16
    }

    /// Writes an instruction with this operand. It stands at no byte, since a code is judged by its places.
    pub fn put(&mut self, op: u8, a: u16) -> Result<(), OutOfMemory> {
        self.code.instrs.push(Instr {
            at: 0,
            op,
            a: i32::from(a),
            b: 0,
            cases: List::new(self.alloc),
        })
    }

    /// Writes a switch to the next place, with cases for all places from one up to another.
    pub fn put_switch(&mut self, from: u16, to: u16) -> Result<(), OutOfMemory> {
        let mut cases = List::new(self.alloc);
        for place in from..to {
            cases.push(SwitchCase {
                key: i32::from(place),
                target: i32::from(place),
            })?;
        }
        let next = i32::from(self.place()) + 1;
        self.code.instrs.push(Instr {
            at: 0,
            op: LOOKUPSWITCH,
            a: next,
            b: 0,
            cases,
        })
    }

    /// Writes instructions without operands.
    pub fn put_all(&mut self, ops: &[u8]) -> Result<(), OutOfMemory> {
        for op in ops {
            self.put(*op, 0)?;
        }
        Ok(())
    }

    /// Writes a load of one local and a store into another.
    pub fn move_local(&mut self, from: u16, to: u16) -> Result<(), OutOfMemory> {
        self.put(ALOAD, from)?;
        self.put(ASTORE, to)
    }

    /// Writes a catch entry for all throwables.
    pub fn catch(&mut self, start: u16, end: u16, handler: u16) -> Result<(), OutOfMemory> {
        self.code.handlers.push(Caught {
            start: u32::from(start),
            end: u32::from(end),
            handler: u32::from(handler),
            class: None,
        })
    }

    /// The static method of this type with the code.
    pub fn method(self, signature: &Signature, name: Text) -> Result<MethodRecord, OutOfMemory> {
        let mut method = signature.declared(name)?;
        method.flags = PUBLIC | STATIC;
        method.body = Body::Linked(self.code);
        Ok(method)
    }
}
