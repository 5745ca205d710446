//! Why bytes are no instructions.

ghost use Rattle.std.specs.Prelude.{◌≡◌};
ghost use Rattle.jk_opcodes.specs.Errors.{code_error};

use byte_fields::EndsEarly;
use jk_model::OutOfMemory;
use thiserror::Error;

/// Why a code was not decoded, with the place of the opcode of the instruction where it shows,
/// counted in bytes from the start of the code.
#[derive(Clone, Copy, Debug, PartialEq, Eq, Error)]
pub enum CodeError {
    /// The byte is no opcode.
    #[error("no opcode at byte {0}")]
    IllegalOpcode(u32),
    /// The code ends within the instruction.
    #[error("the code ends within the instruction at byte {0}")]
    CutInstruction(u32),
    /// A switch whose lowest key is above its highest, whose number of pairs is negative, or whose
    /// keys don't rise.
    #[error("bad switch at byte {0}")]
    BadSwitch(u32),
    /// An operand that may not be.
    #[error("bad operand at byte {0}")]
    BadOperand(u32),
    /// An instruction on float or double.
    #[error("float or double at byte {0}")]
    FloatOpcode(u32),
    /// An instruction of subroutines.
    #[error("subroutine at byte {0}")]
    Subroutine(u32),
    /// An instruction on monitors.
    #[error("monitor at byte {0}")]
    Monitor(u32),
    /// No memory was left. It says nothing of the code.
    #[error("out of memory")]
    OutOfMemory,
}

impl From<OutOfMemory> for CodeError {
    ghost use Rattle.std.specs.Prelude.{◌≡◌};
    ghost use Rattle.jk_opcodes.specs.declared.errors.CodeError.TheVariants as Error;

    ghost from_gives = { λ _ e. e ≡ Error.OutOfMemory };

    fn from(_e: OutOfMemory) -> CodeError {
        CodeError::OutOfMemory
    }
}

/// What is wrong with the instruction that is read. A call that takes no memory answers nothing else.
#[derive(Clone, Copy, Debug)]
pub enum Stop {
    IllegalOpcode,
    CutInstruction,
    BadSwitch,
    BadOperand,
    FloatOpcode,
    Subroutine,
    Monitor,
}

impl From<EndsEarly> for Stop {
    ghost use Rattle.std.specs.Prelude.{◌≡◌};
    ghost use Rattle.jk_opcodes.specs.declared.errors.Stop.TheVariants as Reason;

    ghost from_gives = { λ _ s. s ≡ Reason.CutInstruction };

    fn from(_e: EndsEarly) -> Stop {
        Stop::CutInstruction
    }
}

/// Why an instruction was not read by a call that takes memory.
#[derive(Clone, Copy, Debug)]
pub enum StepError {
    Memory,
    Stop(Stop),
}

impl From<Stop> for StepError {
    ghost use Rattle.std.specs.Prelude.{◌≡◌};
    ghost use Rattle.jk_opcodes.specs.declared.errors.StepError.TheVariants as Error;

    ghost from_gives = { λ s e. e ≡ Error.Stop s };

    fn from(stop: Stop) -> StepError {
        StepError::Stop(stop)
    }
}

impl From<OutOfMemory> for StepError {
    ghost use Rattle.std.specs.Prelude.{◌≡◌};
    ghost use Rattle.jk_opcodes.specs.declared.errors.StepError.TheVariants as Error;

    ghost from_gives = { λ _ e. e ≡ Error.Memory };

    fn from(_e: OutOfMemory) -> StepError {
        StepError::Memory
    }
}

impl StepError {
    /// The same of the instruction at this place.
    pub fn at(self, place: u32) -> CodeError
        ensures { result ≡ code_error place self }
    {
        match self {
            StepError::Memory => CodeError::OutOfMemory,
            StepError::Stop(Stop::IllegalOpcode) => CodeError::IllegalOpcode(place),
            StepError::Stop(Stop::CutInstruction) => CodeError::CutInstruction(place),
            StepError::Stop(Stop::BadSwitch) => CodeError::BadSwitch(place),
            StepError::Stop(Stop::BadOperand) => CodeError::BadOperand(place),
            StepError::Stop(Stop::FloatOpcode) => CodeError::FloatOpcode(place),
            StepError::Stop(Stop::Subroutine) => CodeError::Subroutine(place),
            StepError::Stop(Stop::Monitor) => CodeError::Monitor(place),
        }
    }
}
