//! Why RECEIVE refuses a SYSMOD.
use std::alloc::AllocError;
use thiserror::Error;

/// Why the global zone does not receive a SYSMOD: a fault of the SYSMOD, or memory ran out.
#[derive(Clone, Copy, Debug, PartialEq, Eq, Error)]
pub enum Refused {
    #[error("Rc1: the SYSMOD is already received")]
    AlreadyReceived,
    #[error("Rc2: the SYSMOD closes a loop of PRE, SUP and FMID")]
    MakesLoop,
    #[error("Rc3: a function is named where only service may be, or service where only functions may")]
    WrongRole,
    #[error("Rc4: 65,535 SYSMODs are received")]
    NoRoom,
    #[error("out of memory")]
    Memory,
}

impl From<AllocError> for Refused {
    ghost use Rattle.std.specs.Prelude.{◌≡◌};
    ghost use Rattle.sysmods.specs.declared.refused.Refused.TheVariants.{Memory};

    ghost from_gives = { λ _ e. e ≡ Memory };

    fn from(_e: AllocError) -> Refused {
        Refused::Memory
    }
}
