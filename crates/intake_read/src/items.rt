//! What the statements of a shop's files say, with SMP/E's own names. Names and values in lists are in upper case.
ghost use Rattle.std.specs.Prelude.{◌≡◌};
ghost use Rattle.intake_read.specs.Stated.{value_text};

use intake_cards::{Card, CardPlace};
use terms::Kind;
use thiserror::Error;

/// An operand as the file has it: its name in upper case, and the text in its parentheses. This text lacks the blanks
/// at either end of a card, and has one blank between two cards.
#[derive(Drop)]
pub struct WideOperand {
    pub place: CardPlace,
    pub name: Vec<u8>,
    pub value: Option<Vec<u8>>,
}

impl WideOperand {
    /// The text in its parentheses; empty if it has none.
    pub fn text(&self) -> &[u8]
        ensures { result.now ≡ value_text self.now.value }
    {
        match &self.value {
            Some(value) => value.as_slice(),
            None => b"",
        }
    }
}

/// Why an operand cannot be read as its name demands.
#[derive(Clone, Copy, Debug, PartialEq, Eq)]
pub enum OperandFault {
    /// The statement has no operand of this name.
    Unknown,
    /// It is the second one of its name in the statement.
    Repeated,
    /// The text in its parentheses is not a value of it, or it lacks parentheses, or may not have any.
    BadValue,
}

/// An operand that cannot be read as its name demands.
#[derive(Drop)]
pub struct FaultyOperand {
    pub operand: WideOperand,
    pub reason: OperandFault,
}

/// `++FUNCTION`, `++PTF`, `++APAR` or `++USERMOD`, with the statements that belong to it.
#[derive(Drop)]
pub struct WideSysmod {
    pub place: CardPlace,
    pub kind: Kind,
    /// The text in the header's parentheses, in upper case; empty if there are none.
    pub id: Vec<u8>,
    /// REWORK, DESC, FILES, RFDSNPFX, RFDSNTYPE (RFDSNTYP), FESN, as they stand.
    pub dropped: Vec<WideOperand>,
    pub faulty: Vec<FaultyOperand>,
    pub vers: Vec<WideVer>,
    pub holds: Vec<WideHold>,
    pub elements: Vec<WideElement>,
    /// Its other statements, and those that are faulty.
    pub others: Vec<WideOther>,
}

/// `++VER`. A list that the statement lacks is empty.
#[derive(Drop)]
pub struct WideVer {
    pub place: CardPlace,
    pub srels: Vec<Vec<u8>>,
    pub fmid: Option<Vec<u8>>,
    pub pre: Vec<Vec<u8>>,
    pub req: Vec<Vec<u8>>,
    pub sup: Vec<Vec<u8>>,
    pub npre: Vec<Vec<u8>>,
    pub delete: Vec<Vec<u8>>,
    pub version: Vec<Vec<u8>>,
    pub faulty: Vec<FaultyOperand>,
    pub ifs: Vec<WideIf>,
}

/// `++IF`, with THEN or without it.
#[derive(Drop)]
pub struct WideIf {
    pub place: CardPlace,
    pub fmid: Option<Vec<u8>>,
    pub then: bool,
    pub req: Vec<Vec<u8>>,
    pub faulty: Vec<FaultyOperand>,
}

/// The kind of a hold or a release; `ERR`, `SYS` and the full words alike.
#[derive(Clone, Copy, Debug, PartialEq, Eq)]
pub enum WideHoldKind {
    Error,
    System,
    User,
    Fixcat,
}

impl WideHoldKind {
    /// The kind that a word of `++HOLD` or `++RELEASE` names, or `None` if it names none.
    pub fn read(word: &[u8]) -> Option<WideHoldKind> {
        match word {
            b"ERROR" | b"ERR" => Some(WideHoldKind::Error),
            b"SYSTEM" | b"SYS" => Some(WideHoldKind::System),
            b"USER" => Some(WideHoldKind::User),
            b"FIXCAT" => Some(WideHoldKind::Fixcat),
            _ => None,
        }
    }
}

/// `++HOLD`.
#[derive(Drop)]
pub struct WideHold {
    pub place: CardPlace,
    /// What stands in its parentheses, in upper case; empty if there are none.
    pub id: Vec<u8>,
    /// `None` if it has no word for its kind. A second word is among the faulty operands.
    pub kind: Option<WideHoldKind>,
    pub reason: Option<Vec<u8>>,
    pub fmid: Option<Vec<u8>>,
    pub class: Option<Vec<u8>>,
    pub date: Option<Vec<u8>>,
    /// As it stands, inner parentheses too.
    pub comment: Option<Vec<u8>>,
    /// RESOLVER and CATEGORY, as they stand.
    pub dropped: Vec<WideOperand>,
    pub faulty: Vec<FaultyOperand>,
}

/// `++RELEASE`.
#[derive(Drop)]
pub struct WideRelease {
    pub place: CardPlace,
    pub id: Vec<u8>,
    pub kind: Option<WideHoldKind>,
    pub reason: Option<Vec<u8>>,
    pub fmid: Option<Vec<u8>>,
    /// RESOLVER, CATEGORY, CLASS, DATE and COMMENT, as they stand.
    pub dropped: Vec<WideOperand>,
    pub faulty: Vec<FaultyOperand>,
}

/// `++ASSIGN`.
#[derive(Drop)]
pub struct WideAssign {
    pub place: CardPlace,
    /// As it is typed, in lower case too.
    pub source: Option<Vec<u8>>,
    pub to: Vec<Vec<u8>>,
    pub faulty: Vec<FaultyOperand>,
}

/// A statement that brings, updates or deletes an element: `++MAC`, `++MOD`, `++ZAP`, `++PROGRAM`, each data element
/// and each element of a file system.
#[derive(Drop)]
pub struct WideElement {
    pub place: CardPlace,
    /// The word without its `++`, in upper case.
    pub word: Vec<u8>,
    /// What stands in its parentheses, in upper case.
    pub name: Vec<u8>,
    pub distlib: Option<Vec<u8>>,
    pub syslib: Option<Vec<u8>>,
    /// What RELFILE says, if its text is in another file.
    pub relfile: Option<Vec<u8>>,
    /// The library of the modules that are assembled of it.
    pub distmod: Option<Vec<u8>>,
    /// The modules that are assembled of a macro besides.
    pub assem: Vec<Vec<u8>>,
    /// TXLIB, LKLIB and FROMDS, as they stand: its text is in another library.
    pub libraries: Vec<WideOperand>,
    /// All its other operands, as they stand: SSI, ALIAS, DELETE, LMOD and so on.
    pub operands: Vec<WideOperand>,
    /// Operands that are given twice or have a bad value.
    pub faulty: Vec<FaultyOperand>,
    /// The cards after it, up to the next statement.
    pub inline: Vec<Card>,
}

/// Why a statement makes no SYSMOD, `++VER`, hold, element or other item.
#[derive(Clone, Copy, Debug, PartialEq, Eq, Error)]
pub enum OtherReason {
    /// `++FEATURE`, `++PRODUCT` or `++NULL`.
    #[error("it brings no service")]
    NoService,
    /// `++JCLIN`, `++MOVE`, `++RENAME` or `++DELETE`.
    #[error("it is about load modules")]
    LoadModules,
    /// Its word is no statement's.
    #[error("no statement has this word")]
    UnknownWord,
    /// The next statement, or the end of the file, comes before its period.
    #[error("its period is missing")]
    NoPeriod,
    /// Its period stands in columns 73 to 80, which are not read.
    #[error("its period stands behind column 72")]
    LatePeriod,
    /// A parenthesis is open at the next statement, or at the end of the file.
    #[error("a parenthesis is open")]
    OpenParenthesis,
    /// A closing parenthesis has no partner, or a list follows no word.
    #[error("a parenthesis has no partner, or no word before it")]
    StrayParenthesis,
    /// It has a character that stands in no word.
    #[error("a character stands in no word")]
    StrayCharacter,
    /// More than blanks and comments follows its period, in its card or on a card of its own.
    #[error("more than comments follows its period")]
    TextAfterPeriod,
    /// It lacks its list, as `++VER` without SRELs, or `++MAC` without a name.
    #[error("what belongs in parentheses behind its word is missing")]
    NoName,
    /// A line of it has more than 80 columns.
    #[error("a line has more than 80 columns: put the rest on a line of its own")]
    LongLine,
    /// It is an `++IF`, and its SYSMOD has no `++VER` before it; or no SYSMOD stands before it.
    #[error("it may not stand there")]
    Misplaced,
}

/// A statement that makes no SYSMOD, `++VER`, hold, element or other item: only its name is known, or it is faulty.
#[derive(Drop)]
pub struct WideOther {
    pub place: CardPlace,
    pub reason: OtherReason,
    /// The word without its `++`, in upper case.
    pub word: Vec<u8>,
    /// What stands in its parentheses, in upper case.
    pub name: Vec<u8>,
    pub operands: Vec<WideOperand>,
    pub inline: Vec<Card>,
}

/// What was read differently from what the file has, although nothing was lost by it.
#[derive(Clone, Copy, Debug, PartialEq, Eq)]
pub enum NoteReason {
    /// Words in lower case are read in upper case.
    LowerCase,
    /// Columns 73 to 80 hold more than a number. They are not read. Each card has a note of its own.
    TextInNumbers,
}

/// Something that was read differently from what the file has: the first statement or card with it, and how many there
/// are.
#[derive(Clone, Copy, Debug, PartialEq, Eq)]
pub struct Note {
    pub place: CardPlace,
    pub reason: NoteReason,
    pub count: usize,
    /// What columns 73 to 80 hold, if the note is about them.
    pub tail: [u8; 8],
}

/// A card that begins with `++` inside a comment, where it begins no statement.
#[derive(Drop)]
pub struct SwallowedStatement {
    pub place: CardPlace,
    /// Where the comment opens.
    pub comment: CardPlace,
    /// The word without its `++`, in upper case.
    pub word: Vec<u8>,
    /// What stands in its parentheses, in upper case.
    pub name: Vec<u8>,
}

/// A file's statements, but for its holds outside SYSMODs, which `WideReader` hands out as it reads them. Each list
/// keeps the order of the file, and the places say how the lists go together.
#[derive(Drop)]
pub struct WideFile {
    pub sysmods: Vec<WideSysmod>,
    /// Where the holds outside SYSMODs begin, in order, except those of FIXCAT.
    pub held: Vec<CardPlace>,
    pub releases: Vec<WideRelease>,
    pub assigns: Vec<WideAssign>,
    /// `++FEATURE`, `++PRODUCT` and `++NULL`, wherever they stand, and each `++HOLD`, `++RELEASE` and `++ASSIGN` that
    /// has a fault.
    pub others: Vec<WideOther>,
    /// Statements inside comments.
    pub swallowed: Vec<SwallowedStatement>,
    /// One for lower case, and one for each card with a text in columns 73 to 80.
    pub notes: Vec<Note>,
}
