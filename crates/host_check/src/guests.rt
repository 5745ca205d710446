//! The guests of the host, and what stands in their folders.

ghost use Rattle.std.specs.Prelude.{◌≡◌, true};
ghost use Rattle.jk_model.specs.ScriptGrammar.{is_name};

/// A guest.
#[derive(Clone, Copy)]
pub(crate) enum Guest {
    /// Its thread says "Hello" and ends.
    Good,
    /// Its thread never ends.
    Bad,
    /// The same as `Good`, with five steps in all. The sixth would say "Hello".
    Poor,
    /// It has no folder.
    Absent,
}

impl Guest {
    /// The name of its folder and of its domain.
    pub(crate) fn name(self) -> &'static str
        ensures { is_name result.now ≡ true }
    {
        match self {
            Guest::Good => "good",
            Guest::Bad => "bad",
            Guest::Poor => "poor",
            Guest::Absent => "absent",
        }
    }

    /// How many steps it has in all, where they are limited.
    pub(crate) fn steps(self) -> Option<u32> {
        match self {
            Guest::Poor => Some(5),
            _ => None,
        }
    }
}

/// `Main` of `good` and of `poor`.
pub(crate) const HELLO: &[u8] = b"class 0021 Main java/lang/Object
method 0009 main ([Ljava/lang/String;)V 2 1
        getstatic java/lang/System out Ljava/io/PrintStream;
        ldc_w text \"Hello\"
        invokevirtual java/io/PrintStream println (Ljava/lang/String;)V
        return
end";

/// `Main` of `bad`.
pub(crate) const RUNAWAY: &[u8] = b"class 0021 Main java/lang/Object
method 0009 main ([Ljava/lang/String;)V 0 1
again:  goto again
end";
