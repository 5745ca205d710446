//! Why a domain isn't added, and what came of a start.

use jk_model::{OutOfMemory, Place, Rule, ThreadNo};
use thiserror::Error;

/// Why a domain isn't added. The machine is as before.
#[derive(Debug, Drop, Error)]
pub enum AddAnswer {
    /// The first rule that the folder breaks, and where.
    #[error("the folder breaks a rule")]
    Refused(Rule, Place),
    /// A fault of the files, which was counted.
    #[error("cannot read")]
    ReadFault,
    /// L3: no free extent of a store is long enough.
    #[error("no room in the pools")]
    NoRoom,
    /// L4: not so many numbers of capabilities are left.
    #[error("not so many numbers of capabilities are left")]
    CapNumbers,
    /// L8: as many domains were added as there may be.
    #[error("too many domains")]
    TooManyDomains,
    #[error("out of memory")]
    OutOfMemory,
}

impl From<OutOfMemory> for AddAnswer {
    ghost use Rattle.std.specs.Prelude.{◌≡◌};
    ghost use Rattle.kernel_openings.specs.declared.answers.AddAnswer.TheVariants.{OutOfMemory as Lacks};

    ghost from_gives = { λ _ e. e ≡ Lacks };

    fn from(_e: OutOfMemory) -> AddAnswer {
        AddAnswer::OutOfMemory
    }
}

/// What came of a start.
#[derive(Clone, Copy)]
pub enum Beginning {
    /// The number of the rule that refuses it. All is as before.
    Refused(u8),
    Begun(ThreadNo),
}
