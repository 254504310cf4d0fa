//! Why the words ask for nothing.
use clap::error::ErrorKind;
use std::alloc::{AllocError, AllocFailed};
use thiserror::Error;

/// Why no invocation is read: memory ran out, `clap` refuses the words, with its own text, or a name, an id, an SREL or
/// a date has a bad form.
#[derive(Debug, Drop, Error)]
pub enum ArgFault {
    #[error("out of memory")]
    Memory,
    #[error("{0}")]
    Clap(clap::Error),
    #[error("bad operand")]
    BadOperand,
}

impl From<AllocError> for ArgFault {
    ghost use Rattle.std.specs.Prelude.{◌≡◌};
    ghost use Rattle.smpe_invocation.specs.declared.fault.ArgFault.TheVariants.{Memory};

    ghost from_gives = { λ _ e. e ≡ Memory };

    fn from(_error: AllocError) -> ArgFault {
        ArgFault::Memory
    }
}

impl<T: Drop> From<AllocFailed<T>> for ArgFault {
    ghost use Rattle.std.specs.Prelude.{◌≡◌};
    ghost use Rattle.smpe_invocation.specs.declared.fault.ArgFault.TheVariants.{Memory};

    ghost from_gives = { λ _ e. e ≡ Memory };

    fn from(_error: AllocFailed<T>) -> ArgFault {
        ArgFault::Memory
    }
}

impl From<clap::Error> for ArgFault {
    ghost use Rattle.smpe_invocation.specs.Answers.{IsOfClap};

    ghost from_gives = { IsOfClap };

    fn from(error: clap::Error) -> ArgFault {
        match error.kind() {
            ErrorKind::OutOfMemory => ArgFault::Memory,
            _ => ArgFault::Clap(error),
        }
    }
}
