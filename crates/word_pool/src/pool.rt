//! The pool, which contracts see as the list of its words: `None` where a word isn't readable, else `Some` of what it holds.
ghost use Rattle.std.specs.Prelude.{◌≡◌, ◌+◌, ◌≤◌, ◌++◌, Some, None, length, take, drop, replicate, slice_get, slice_set, IfOk};
ghost use Rattle.word_pool.specs.Readable.{IsReadable};

use crate::block::Block;
use jk_model::OutOfMemory;
use std::alloc::Global;
use std::marker::Model;

/// A block of 32-bit words. A word can be read once it was cleared, and until then it is whatever memory held.
pub struct WordPool {
    block: Block,
    heap: Global,
}

impl Model for WordPool {
    ghost use Rattle.std.specs.Prelude.{ℕ, List, Option};

    ghost Value = { List (Option ℕ) };

    ghost view = { λ p. p.block.content };
}

impl WordPool {
    /// A pool of so many words, none of them readable; there may be none at all. It takes four bytes a word, and writes none of them.
    pub fn make(alloc: Global, words: u32) -> Result<WordPool, OutOfMemory>
        ensures { IfOk result (λ p. p ≡ replicate words None) }
    {
        let block = Block::of(&alloc, words as usize)?;
        Ok(WordPool { block, heap: alloc })
    }

    /// Sets the `len` words from `from` on to 0, which makes them readable. The others stay as they are.
    pub fn clear(&mut self, from: u32, len: u32)
        requires { from + len ≤ length self.old }
        ensures { self.new ≡ take from self.old ++ replicate len (Some 0) ++ drop (from + len) self.old }
    {
        let first = from as usize;
        let end = first + len as usize;
        for at in first..end {
            self.block.put(at, 0);
        }
    }

    /// The word at a place, counted from 0. The word was cleared before.
    pub fn load(&self, at: u32) -> u32
        requires { IsReadable self.now at }
        ensures { slice_get self.now at ≡ Some (Some result) }
    {
        self.block.get(at as usize)
    }

    /// Writes a word over the one at a place, counted from 0, which was cleared before. The others stay as they are.
    pub fn store(&mut self, at: u32, word: u32)
        requires { IsReadable self.old at }
        ensures { self.new ≡ slice_set self.old at (Some word) }
    {
        self.block.put(at as usize, word);
    }
}

impl Drop for WordPool {
    fn drop(self) {
        let WordPool { block, heap } = self;
        block.give_back(&heap);
    }
}
