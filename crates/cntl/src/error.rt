//! Why a command, or a command file, is not read.
use fields::spelling::{as_str, command_code_text};
use std::alloc::{AllocError, AllocFailed};
use terms::CommandCode;
use thiserror::Error;

/// Why one command is not read.
#[derive(Clone, Copy, Debug, PartialEq, Eq, Error)]
pub enum CommandReadError {
    #[error("out of memory")]
    Memory,
    #[error("{}", as_str(command_code_text(*.0)))]
    Fault(CommandCode),
}

/// Why a command file is not read: the first bad command begins in this record.
#[derive(Clone, Copy, Debug, PartialEq, Eq, Error)]
pub enum CntlError {
    #[error("out of memory")]
    Memory,
    #[error("{} in record {number}", as_str(command_code_text(*code)))]
    Fault { number: usize, code: CommandCode },
}

impl From<AllocError> for CntlError {
    ghost use Rattle.std.specs.Prelude.{◌≡◌};
    ghost use Rattle.cntl.specs.declared.error.CntlError.TheVariants.{Memory};

    ghost from_gives = { λ _ e. e ≡ Memory };

    fn from(_e: AllocError) -> CntlError {
        CntlError::Memory
    }
}

impl<T: Drop> From<AllocFailed<T>> for CntlError {
    ghost use Rattle.std.specs.Prelude.{◌≡◌};
    ghost use Rattle.cntl.specs.declared.error.CntlError.TheVariants.{Memory};

    ghost from_gives = { λ _ e. e ≡ Memory };

    fn from(_e: AllocFailed<T>) -> CntlError {
        CntlError::Memory
    }
}
