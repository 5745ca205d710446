//! The command, as `clap` knows it.

ghost use Rattle.std.specs.Prelude.{◌≡◌, IfOk};
ghost use Rattle.clap.specs.Words.{app_of};
ghost use Rattle.command_words.specs.CommandLine.{command_app};

use clap::{Arg, Command};
use std::alloc::{AllocError, Global};

/// `jkernel`, with `--demo SEED` and the words ROOT and SCRIPT, each of which may be left out.
pub(crate) fn jkernel_command<'a>(alloc: Global) -> Result<Command<'a>, AllocError>
    ensures { IfOk result (λ command. app_of command ≡ command_app) }
{
    let named = Command::new(alloc, "jkernel")
        .no_binary_name(true)
        .disable_help_flag(true);
    let demo = Arg::new(alloc, "demo").long("demo");
    let root = Arg::new(alloc, "ROOT");
    let script = Arg::new(alloc, "SCRIPT");
    named.arg(demo)?.arg(root)?.arg(script)
}
