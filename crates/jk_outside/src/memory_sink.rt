//! A sink in memory, whose faults are told in advance.

ghost use Rattle.std.specs.Prelude.{◌≡◌, ◌↔◌, ◌^◌, ◌+◌, ◌-◌, ◌<◌, ◌≤◌, ◌∷◌, ◌++◌, [], length, min, take, vec_len, if◌then◌else◌, IfOk, OnOk, OnErr, IsErr, IsTrue, Some};
ghost use Rattle.jk_model.specs.Outside.{Appends, AppendsPart, HasRisen, NeverFalls};
ghost use Rattle.jk_outside.specs.MemorySinks.{will_fail, after_write};
ghost use Rattle.std.specs.Vec.{vec_capacity};
ghost use Rattle.jk_outside.specs.Counts.{min_fits};

use crate::handed_pieces::HandedPieces;
use crate::numbers::is_named;
use crate::sinks::{Sink, SinkFailed};
use jk_model::OutOfMemory;
use std::alloc::Global;
use std::marker::Model;

/// A sink that keeps what it takes in memory which it holds from the start. A write whose number is
/// named fails and takes nothing; one that passes the room takes what fits, and fails.
#[derive(Drop)]
pub struct MemorySink {
    room: usize,
    fails: Vec<u32>,
    bytes: Vec<u8>,
    writes: u32,
    faults: u64,
    handed: HandedPieces,
}

impl Model for MemorySink {
    ghost use Rattle.std.specs.Prelude.{◌≤◌, vec_len};
    ghost use Rattle.std.specs.Vec.{vec_capacity};
    ghost use Rattle.jk_outside.specs.MemorySinks.{SinkState};

    ghost Value = { SinkState };

    ghost view = { λ s. record {
      room = s.room;
      fails = s.fails.items;
      bytes = s.bytes.items;
      writes = s.writes;
      faults = s.faults;
      pieces = s.handed.pieces;
    } };

    ghost invariant = { λ s. (vec_len s.bytes ≤ s.room) × (s.room ≤ vec_capacity s.bytes) };
}

impl MemorySink {
    /// A sink with room for so many bytes. The writes with these numbers, counted from 1, fail.
    pub fn with_room(alloc: Global, room: usize, fails: &[u32]) -> Result<MemorySink, OutOfMemory>
        ensures { IfOk result (λ sink. sink
            ≡ record { room = room; fails = fails.now; bytes = []; writes = 0; faults = 0; pieces = [] }) }
    {
        Ok(MemorySink {
            room,
            fails: Vec::from_slice(alloc, fails)?,
            bytes: Vec::with_capacity(alloc, room)?,
            writes: 0,
            faults: 0,
            handed: HandedPieces::new(),
        })
    }

    /// All bytes that it took.
    pub fn bytes(&self) -> &[u8]
        ensures { result.now ≡ self.now.bytes }
    {
        self.bytes.as_slice()
    }

    /// How many faults there were.
    pub fn faults(&self) -> u64
        ensures { result ≡ self.now.faults }
    {
        self.faults
    }
}

impl Sink for MemorySink {
    ghost bytes = { λ s. Some s.bytes };

    ghost pieces = { λ s. s.pieces };

    ghost faults = { λ s. min s.faults (2 ^ 64 - 1) };

    ghost faults_fit = { λ s. min_fits s.faults };

    fn write(&mut self, piece: &[u8]) -> Result<(), SinkFailed>
        requires { 0 < length piece.now }
        ensures handed { self.new.pieces ≡ self.old.pieces ++ piece.now ∷ [] }
        ensures ok { OnOk result (Appends (Some self.old.bytes) (Some self.new.bytes) piece.now) }
        ensures part { OnErr result (AppendsPart (Some self.old.bytes) (Some self.new.bytes) piece.now) }
        ensures cause { OnErr result
            (HasRisen (min self.old.faults (2 ^ 64 - 1)) (min self.new.faults (2 ^ 64 - 1))) }
        ensures calm { OnOk result (min self.new.faults (2 ^ 64 - 1) ≡ min self.old.faults (2 ^ 64 - 1)) }
        ensures faults { NeverFalls (min self.old.faults (2 ^ 64 - 1)) (min self.new.faults (2 ^ 64 - 1)) }

        // What it does is settled by what it holds.
        ensures fails { IsErr result ↔ IsTrue (will_fail self.old piece.now) }
        ensures after { self.new ≡ after_write self.old piece.now }
    {
        self.handed.note(piece);
        self.writes = self.writes.saturating_add(1);
        let named = is_named(self.fails.as_slice(), self.writes);
        let free = free_room(named, self.room, self.bytes.len());
        append_front(&mut self.bytes, piece, free);
        if named || free < piece.len() {
            self.faults = self.faults.saturating_add(1);
            return Err(SinkFailed);
        }
        Ok(())
    }
}

/// How many more bytes a sink takes.
fn free_room(named: bool, room: usize, used: usize) -> usize
    requires { used ≤ room }
    ensures { result ≡ (if named then 0 else room - used) }
{
    if named { 0 } else { room - used }
}

/// Appends as much of a piece as is free.
fn append_front(bytes: &mut Vec<u8>, piece: &[u8], free: usize)
    requires { vec_len bytes.old + free ≤ vec_capacity bytes.old }
    ensures items { bytes.new.items ≡ bytes.old.items ++ take free piece.now }
    ensures len { vec_len bytes.new ≤ vec_len bytes.old + free }
    ensures capacity { vec_capacity bytes.old ≤ vec_capacity bytes.new }
{
    let taken = free.min(piece.len());
    bytes.extend_from_slice(&piece[..taken]).unwrap();
}
