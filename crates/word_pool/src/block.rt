//! The memory of a pool, and all raw pointers of the kernel: four functions, each with a proof by hand.
ghost use Rattle.std.specs.Prelude.{◌≡◌, ℕ, ◌*◌, ◌^◌, ◌<◌, List, Option, Some, None, length, replicate, slice_get, slice_set, IfOk};
ghost use Rattle.word_pool.specs.Readable.{IsReadable};
ghost use Rattle.word_pool.specs.Ownership.{block_owned, block_lent};

use std::alloc::{AllocError, Allocator, Global};
use std::marker::Model;

/// So many words of the heap from `start` on, each of four bytes, and the right to free them. `content` has `None` where a word was never written.
pub struct Block {
    start: *mut u32,
    words: usize,
    ghost content: { List (Option ℕ) },
}

impl Model for Block {
    ghost also_owns = { λ b. block_owned b.start b.words b.content };

    ghost also_shares = { λ b _ κ. block_lent b.start b.words b.content κ };
}

impl Block {
    /// Takes a block of so many words, none of which can be read yet. It asks the heap for four bytes a word.
    pub(crate) fn of(heap: &Global, words: usize) -> Result<Block, AllocError>
        requires { words * 4 < 2 ^ 63 }
        ensures { IfOk result (λ b. b.content ≡ replicate words None) }
    {
        match heap.allocate(words * 4, 4) {
            Ok(bytes) => Ok(Block {
                start: bytes as *mut u32,
                words,
            }),
            Err(full) => Err(full),
        }
    }

    /// Writes a word, which from then on can be read.
    pub(crate) fn put(&mut self, at: usize, word: u32)
        requires { at < length self.old.content }
        ensures { self.new.content ≡ slice_set self.old.content at (Some word) }
    {
        unsafe { *self.start.add(at) = word };
    }

    /// Reads a word that can be read.
    pub(crate) fn get(&self, at: usize) -> u32
        requires { IsReadable self.now.content at }
        ensures { slice_get self.now.content at ≡ Some (Some result) }
    {
        unsafe { *self.start.add(at) }
    }

    /// Frees the words, whatever they are by now.
    pub(crate) fn give_back(self, heap: &Global) {
        let Block { start, words } = self;
        unsafe { heap.deallocate(start as *mut u8, words * 4, 4) };
    }
}
