//! The items of a wide file as text.

use intake_cards::CardReader;
use intake_read::{
    FaultyOperand, NoteReason, OperandFault, OtherReason, WideAssign, WideElement, WideError,
    WideFile, WideHold, WideHoldKind, WideIf, WideOperand, WideOther, WideReader, WideRelease,
    WideSysmod, WideVer,
};
use std::alloc::{AllocError, AllocFailed, Global};
use terms::Kind;
use thiserror::Error;

/// The items of a file as one text, to which they are appended one after the other.
#[derive(Drop)]
pub(crate) struct Spelled {
    pub text: Vec<u8>,
}

impl Spelled {
    /// An empty text.
    pub(crate) fn new(alloc: Global) -> Spelled {
        Spelled {
            text: Vec::new(alloc),
        }
    }

    /// The text as a `str`.
    pub(crate) fn as_text(&self) -> &str {
        std::str::from_utf8(self.text.as_slice()).unwrap_or("no text")
    }

    /// Appends the text.
    pub(crate) fn append(&mut self, text: &[u8]) -> Result<(), AllocError> {
        self.text.extend_from_slice(text)
    }

    /// Appends a number below 1,000.
    pub(crate) fn append_number(&mut self, number: usize) -> Result<(), AllocError> {
        if number >= 100 {
            self.text.push(b'0' + (number / 100 % 10) as u8)?;
        }
        if number >= 10 {
            self.text.push(b'0' + (number / 10 % 10) as u8)?;
        }
        self.text.push(b'0' + (number % 10) as u8)?;
        Ok(())
    }

    // Appends a list with its name, unless it is empty.
    fn append_list(&mut self, name: &[u8], words: &[Vec<u8>]) -> Result<(), AllocError> {
        if words.is_empty() {
            return Ok(());
        }
        self.append(b" ")?;
        self.append(name)?;
        for word in words {
            self.append(b" ")?;
            self.append(word.as_slice())?;
        }
        Ok(())
    }

    // Appends a value with its name, if there is one.
    fn append_value(&mut self, name: &[u8], value: &Option<Vec<u8>>) -> Result<(), AllocError> {
        let Some(text) = value else {
            return Ok(());
        };
        self.append(b" ")?;
        self.append(name)?;
        self.append(b"(")?;
        self.append(text.as_slice())?;
        self.append(b")")
    }

    // Appends an operand as it stands, after a mark.
    fn append_operand(&mut self, mark: &[u8], operand: &WideOperand) -> Result<(), AllocError> {
        self.append(b" ")?;
        self.append(mark)?;
        self.append(operand.name.as_slice())?;
        if let Some(value) = &operand.value {
            self.append(b"(")?;
            self.append(value.as_slice())?;
            self.append(b")")?;
        }
        Ok(())
    }

    // Appends each of the operands as it stands, after the mark.
    fn append_operands(&mut self, mark: &[u8], operands: &[WideOperand]) -> Result<(), AllocError> {
        for operand in operands {
            self.append_operand(mark, operand)?;
        }
        Ok(())
    }

    // Appends each of the faulty operands, after a mark for its fault.
    fn append_faulty(&mut self, faulty: &[FaultyOperand]) -> Result<(), AllocError> {
        for entry in faulty {
            let mark = match entry.reason {
                OperandFault::Unknown => b"unknown:".as_slice(),
                OperandFault::Repeated => b"again:".as_slice(),
                OperandFault::BadValue => b"bad:".as_slice(),
            };
            self.append_operand(mark, &entry.operand)?;
        }
        Ok(())
    }

    // Appends an `++IF`.
    fn append_if(&mut self, condition: &WideIf) -> Result<(), AllocError> {
        self.append(b"; IF")?;
        self.append_value(b"FMID", &condition.fmid)?;
        if condition.then {
            self.append(b" THEN")?;
        }
        self.append_list(b"REQ", condition.req.as_slice())?;
        self.append_faulty(condition.faulty.as_slice())
    }

    // Appends a `++VER` and its `++IF`s.
    fn append_ver(&mut self, ver: &WideVer) -> Result<(), AllocError> {
        self.append(b"; VER")?;
        self.append_list(b"SREL", ver.srels.as_slice())?;
        self.append_value(b"FMID", &ver.fmid)?;
        self.append_list(b"PRE", ver.pre.as_slice())?;
        self.append_list(b"REQ", ver.req.as_slice())?;
        self.append_list(b"SUP", ver.sup.as_slice())?;
        self.append_list(b"NPRE", ver.npre.as_slice())?;
        self.append_list(b"DELETE", ver.delete.as_slice())?;
        self.append_list(b"VERSION", ver.version.as_slice())?;
        self.append_faulty(ver.faulty.as_slice())?;
        for condition in ver.ifs.as_slice() {
            self.append_if(condition)?;
        }
        Ok(())
    }

    // Appends the kind of a hold or a release, if it has one.
    fn append_hold_kind(&mut self, kind: Option<WideHoldKind>) -> Result<(), AllocError> {
        self.append(match kind {
            Some(WideHoldKind::Error) => b" ERROR",
            Some(WideHoldKind::System) => b" SYSTEM",
            Some(WideHoldKind::User) => b" USER",
            Some(WideHoldKind::Fixcat) => b" FIXCAT",
            None => b"",
        })
    }

    // Appends a `++HOLD`.
    fn append_hold(&mut self, hold: &WideHold) -> Result<(), AllocError> {
        self.append(b"; HOLD ")?;
        self.append(hold.id.as_slice())?;
        self.append_hold_kind(hold.kind)?;
        self.append_value(b"REASON", &hold.reason)?;
        self.append_value(b"FMID", &hold.fmid)?;
        self.append_value(b"CLASS", &hold.class)?;
        self.append_value(b"DATE", &hold.date)?;
        self.append_value(b"COMMENT", &hold.comment)?;
        self.append_operands(b"-", hold.dropped.as_slice())?;
        self.append_faulty(hold.faulty.as_slice())
    }

    // Appends a `++RELEASE`.
    fn append_release(&mut self, release: &WideRelease) -> Result<(), AllocError> {
        self.append(b"; RELEASE ")?;
        self.append(release.id.as_slice())?;
        self.append_hold_kind(release.kind)?;
        self.append_value(b"REASON", &release.reason)?;
        self.append_value(b"FMID", &release.fmid)?;
        self.append_operands(b"-", release.dropped.as_slice())?;
        self.append_faulty(release.faulty.as_slice())
    }

    // Appends an `++ASSIGN`.
    fn append_assign(&mut self, assign: &WideAssign) -> Result<(), AllocError> {
        self.append(b"; ASSIGN")?;
        self.append_value(b"SOURCEID", &assign.source)?;
        self.append_list(b"TO", assign.to.as_slice())?;
        self.append_faulty(assign.faulty.as_slice())
    }

    // Appends a statement for an element, and how many cards of text it has.
    fn append_element(&mut self, element: &WideElement) -> Result<(), AllocError> {
        self.append(b"; ")?;
        self.append(element.word.as_slice())?;
        self.append(b" ")?;
        self.append(element.name.as_slice())?;
        self.append_value(b"DISTLIB", &element.distlib)?;
        self.append_value(b"SYSLIB", &element.syslib)?;
        self.append_value(b"RELFILE", &element.relfile)?;
        self.append_operands(b"in ", element.libraries.as_slice())?;
        self.append_operands(b"", element.operands.as_slice())?;
        self.append_faulty(element.faulty.as_slice())?;
        self.append(b" +")?;
        self.append_number(element.inline.len())
    }

    // Appends a statement that makes no item, after the reason, and how many cards of text it has.
    fn append_other(&mut self, other: &WideOther) -> Result<(), AllocError> {
        self.append(b"; ")?;
        self.append(reason_text(other.reason))?;
        self.append(b": ")?;
        self.append(other.word.as_slice())?;
        self.append(b" ")?;
        self.append(other.name.as_slice())?;
        self.append_operands(b"", other.operands.as_slice())?;
        self.append(b" +")?;
        self.append_number(other.inline.len())
    }

    // Appends a SYSMOD and its statements.
    fn append_sysmod(&mut self, sysmod: &WideSysmod) -> Result<(), AllocError> {
        self.append(match sysmod.kind {
            Kind::Function => b"; FUNCTION ",
            Kind::Ptf => b"; PTF ",
            Kind::Apar => b"; APAR ",
            Kind::Usermod => b"; USERMOD ",
        })?;
        self.append(sysmod.id.as_slice())?;
        self.append_operands(b"-", sysmod.dropped.as_slice())?;
        self.append_faulty(sysmod.faulty.as_slice())?;
        for ver in sysmod.vers.as_slice() {
            self.append_ver(ver)?;
        }
        for hold in sysmod.holds.as_slice() {
            self.append_hold(hold)?;
        }
        for element in sysmod.elements.as_slice() {
            self.append_element(element)?;
        }
        for other in sysmod.others.as_slice() {
            self.append_other(other)?;
        }
        Ok(())
    }

    // Appends the items of a file: SYSMODs, holds outside them, releases, assignments and other statements.
    fn append_file(&mut self, file: &WideFile, holds: &[WideHold]) -> Result<(), AllocError> {
        for sysmod in file.sysmods.as_slice() {
            self.append_sysmod(sysmod)?;
        }
        for hold in holds {
            self.append_hold(hold)?;
        }
        for release in file.releases.as_slice() {
            self.append_release(release)?;
        }
        for assign in file.assigns.as_slice() {
            self.append_assign(assign)?;
        }
        for other in file.others.as_slice() {
            self.append_other(other)?;
        }
        Ok(())
    }

    // Appends the statements inside comments, and the notes.
    fn append_notes(&mut self, file: &WideFile) -> Result<(), AllocError> {
        for statement in file.swallowed.as_slice() {
            self.append(b"; in the comment of ")?;
            self.append_number(statement.comment.card as usize)?;
            self.append(b": ")?;
            self.append(statement.word.as_slice())?;
            self.append(b" ")?;
            self.append(statement.name.as_slice())?;
        }
        for note in file.notes.as_slice() {
            self.append(match note.reason {
                NoteReason::LowerCase => b"; lower ",
                NoteReason::TextInNumbers => b"; behind 72 ",
            })?;
            self.append_number(note.place.card as usize)?;
            self.append(b" x ")?;
            self.append_number(note.count)?;
        }
        Ok(())
    }
}

/// A reason in a word or two.
pub(crate) fn reason_text(reason: OtherReason) -> &'static [u8] {
    match reason {
        OtherReason::NoService => b"no service",
        OtherReason::LoadModules => b"load modules",
        OtherReason::UnknownWord => b"unknown",
        OtherReason::NoPeriod => b"no period",
        OtherReason::LatePeriod => b"late period",
        OtherReason::OpenParenthesis => b"open",
        OtherReason::StrayParenthesis => b"parenthesis",
        OtherReason::StrayCharacter => b"character",
        OtherReason::TextAfterPeriod => b"behind",
        OtherReason::NoName => b"no name",
        OtherReason::LongLine => b"long line",
        OtherReason::Misplaced => b"misplaced",
    }
}

/// What is spelled of a file.
#[derive(Clone, Copy, PartialEq, Eq)]
pub(crate) enum Part {
    Items,
    ItemsAndNotes,
}

/// The items of the file, without their places. An error is told by its card and its reason.
pub(crate) fn items(alloc: Global, bytes: &[u8]) -> Result<Spelled, AllocError> {
    spelled_file(alloc, bytes, Part::Items)
}

/// This part of the file, without the places of items. An error is told by its card and its reason.
pub(crate) fn spelled_file(alloc: Global, bytes: &[u8], part: Part) -> Result<Spelled, AllocError> {
    let mut found = Spelled::new(alloc);
    match read_whole(alloc, bytes) {
        Ok(read) => {
            found.append_file(&read.file, read.holds.as_slice())?;
            if part == Part::ItemsAndNotes {
                found.append_notes(&read.file)?;
            }
        }
        Err(Unread::NoCards) => found.append(b"; no cards")?,
        Err(Unread::Statement(error)) => append_error(&mut found, error)?,
    }
    Ok(found)
}

/// A file's statements, and its holds outside SYSMODs.
#[derive(Drop)]
pub(crate) struct ReadFile {
    pub(crate) file: WideFile,
    pub(crate) holds: Vec<WideHold>,
}

/// Why a file is not read.
#[derive(Debug, Drop, Error)]
pub(crate) enum Unread {
    #[error("no cards")]
    NoCards,
    #[error("{0}")]
    Statement(WideError),
}

impl From<AllocError> for Unread {
    fn from(_e: AllocError) -> Unread {
        Unread::Statement(WideError::Memory)
    }
}

impl<T: Drop> From<AllocFailed<T>> for Unread {
    fn from(_e: AllocFailed<T>) -> Unread {
        Unread::Statement(WideError::Memory)
    }
}

impl From<WideError> for Unread {
    fn from(error: WideError) -> Unread {
        Unread::Statement(error)
    }
}

/// The statements of a file of these bytes, whose layout and code are guessed.
pub(crate) fn read_whole(alloc: Global, bytes: &[u8]) -> Result<ReadFile, Unread> {
    let Ok(mut cards) = CardReader::open(0, bytes, None, None) else {
        return Err(Unread::NoCards);
    };
    let mut notes = Vec::new(alloc);
    let mut reader = WideReader::new(alloc);
    let mut holds = Vec::new(alloc);
    for _ in 0..usize::MAX {
        let Some(card) = cards.next_card(&mut notes)? else {
            break;
        };
        if let Some(hold) = reader.read_card(&card)? {
            holds.push(hold)?;
        }
    }
    if let Some(hold) = reader.read_end()? {
        holds.push(hold)?;
    }
    let file = reader.into_file()?;
    Ok(ReadFile { file, holds })
}

// Appends why the file is refused, and the card.
fn append_error(found: &mut Spelled, error: WideError) -> Result<(), AllocError> {
    found.append(b"; refused: ")?;
    let place = match &error {
        WideError::Memory => return Err(AllocError),
        WideError::NoStatement { place, .. } => {
            found.append(b"no statement")?;
            *place
        }
        WideError::OpenComment { place } => {
            found.append(b"open comment")?;
            *place
        }
        WideError::Statement { place, reason, .. } => {
            found.append(reason_text(*reason))?;
            *place
        }
    };
    found.append(b" ")?;
    found.append_number(place.card as usize)
}
