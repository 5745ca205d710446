//! What was asked of files so far. It exists only in proofs, and takes no memory at run time.

ghost use Rattle.std.specs.Prelude.{◌≡◌, List, [], ◌∷◌, ◌++◌};
ghost use Rattle.std.specs.Borrow.{ftrue};
ghost use Rattle.jk_model.specs.Outside.{Ask};

use std::marker::Model;

/// A call, as its arguments tell it.
#[derive(Clone, Copy)]
pub(crate) enum Call<'a> {
    /// A folder to be listed, and the limit of entries.
    List(&'a [u8], u32),
    /// A file to be read, and the limit of bytes.
    Read(&'a [u8], u32),
}

/// What was asked, in order.
#[derive(Drop)]
pub(crate) struct Asked {
    ghost asks: { List Ask },
}

impl Model for Asked {
    ghost also_owns = { λ _. ftrue };
}

impl Asked {
    ghost use Rattle.std.specs.Prelude.{◌≡◌, [], ◌∷◌, ◌++◌};
    ghost use Rattle.jk_outside.specs.Asks.{ask_of};

    /// Nothing was asked yet.
    pub(crate) fn nothing() -> Asked
        ensures { result.asks ≡ [] }
    {
        Asked {}
    }

    /// One call more.
    pub(crate) fn and(&self, _call: &Call<'_>) -> Asked
        ensures { result.asks ≡ self.now.asks ++ ask_of _call.now ∷ [] }
    {
        Asked {}
    }
}
