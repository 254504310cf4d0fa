//! The codes that reports name: tests, needs, commands, and the faults of files.
ghost use Rattle.std.specs.Prelude.{◌≡◌};
ghost use Rattle.terms.specs.Needs.{takes_superseder};

/// The words with which commands begin.
#[derive(Clone, Copy, Debug, PartialEq, Eq, PartialOrd, Ord, Hash)]
pub enum CommandWord {
    Set,
    Receive,
    Reject,
    Apply,
    Accept,
    Restore,
    List,
    Report,
}

/// What is wrong in a PTFIN or hold file, in the order of the codes `Mc1` to `Mc6`.
#[derive(Clone, Copy, Debug, PartialEq, Eq, PartialOrd, Ord, Hash)]
pub enum StatementCode {
    /// A record, or the form of a statement.
    BadStatementForm,
    /// The word with which it begins.
    UnknownStatementWord,
    /// An operand.
    BadStatementOperand,
    /// Its place among the other statements.
    WrongPlace,
    /// The text after it.
    BadText,
    /// One of the limits.
    OverLimit,
}

/// What is wrong in a command file, in the order of the codes `Cn1` to `Cn5`.
#[derive(Clone, Copy, Debug, PartialEq, Eq, PartialOrd, Ord, Hash)]
pub enum CommandCode {
    /// The word of a command.
    UnknownCommand,
    /// An operand, or a member of BYPASS.
    BadCommandOperand,
    /// An operand, or a member of BYPASS, that occurs twice.
    OperandTwice,
    /// RESTORE with both SELECT and GROUP, or with neither.
    NoSingleList,
    /// A record, or the form of a command.
    BadCommandForm,
}

/// The tests that a candidate passes or fails, each named for the candidates that fail it, in the order of the codes
/// `J1` to `J13`. `AlreadyAccepted`, `HasDelete` and `OtherLevel` belong to RESTORE, the others to APPLY and ACCEPT.
#[derive(Clone, Copy, Debug, PartialEq, Eq, PartialOrd, Ord, Hash)]
pub enum Test {
    HeldBySystem,
    HeldByUser,
    ForbiddenByNpre,
    OwnedByAnother,
    Regression,
    NothingToUpdate,
    NotInTarget,
    ChainDeleted,
    InClash,
    AlreadyAccepted,
    HasDelete,
    OtherLevel,
    SeveralFit,
}

/// Why a candidate needs an id, in the order of reports. ELEM and DEP belong to RESTORE.
#[derive(Clone, Copy, Debug, PartialEq, Eq, PartialOrd, Ord, Hash)]
pub enum NeedKind {
    Fmid,
    Pre,
    Req,
    Ifreq,
    HoldError,
    Orphan,
    Elem,
    Dep,
}

impl NeedKind {
    /// Whether a SYSMOD that supersedes an id serves a need of this kind for it.
    pub fn takes_superseder(self) -> bool
        ensures { result ≡ takes_superseder self }
    {
        !matches!(self, NeedKind::Fmid | NeedKind::Elem | NeedKind::Dep)
    }
}

/// Why one id was refused: by RECEIVE (`Rc2` to `Rc4`), by `++RELEASE` (`Rl1`, `Rl2`) or by REJECT (`Rj1`, `Rj2`).
#[derive(Clone, Copy, Debug, PartialEq, Eq, PartialOrd, Ord, Hash)]
pub enum IdRefusal {
    /// It would close a loop of PRE, SUP and FMID.
    MakesLoop,
    /// It would name a function where only service is allowed, or service where only a function is.
    WrongRole,
    /// No more SYSMODs can be received.
    NoRoom,
    /// No hold has the key.
    NoHold,
    /// The hold came with its SYSMOD.
    Internal,
    /// It is applied in a zone.
    AppliedSomewhere,
    /// No SYSMOD has the id.
    UnknownSysmod,
}
