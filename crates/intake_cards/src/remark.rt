//! The remark on a statement that is not carried unchanged.

use crate::place::CardPlace;
use crate::reason::RemarkReason;
use std::alloc::{AllocError, Global};

/// What was done with a statement or an operand.
#[derive(Clone, Copy, Debug, PartialEq, Eq)]
pub enum Deed {
    /// It says the same in other words, or has a shorter text.
    Carried,
    /// The operand or statement is not carried; what it belongs to is.
    Dropped,
    /// The whole SYSMOD, hold or release is not carried.
    LeftOut,
    /// Nothing is written.
    Refused,
}

/// A remark on one statement, or one operand of it.
#[derive(Clone, Copy, Debug)]
pub struct Remark<'a> {
    /// Where the statement begins.
    pub place: CardPlace,
    /// The statement's word, with its plus signs.
    pub statement: &'a [u8],
    /// The id or the name in it; empty if it has none.
    pub id: &'a [u8],
    /// The operand's word; empty if the whole statement is meant.
    pub operand: &'a [u8],
    pub deed: Deed,
    pub reason: RemarkReason,
    /// The value or the text that is meant, unchanged; empty if there is none.
    pub text: &'a [u8],
}

impl Deed {
    /// What was done, in words.
    pub fn words(self) -> &'static str {
        match self {
            Deed::Carried => "carried otherwise",
            Deed::Dropped => "dropped",
            Deed::LeftOut => "left out",
            Deed::Refused => "refused",
        }
    }
}

impl Remark<'_> {
    /// Whether a user may miss what the remark is about: something is left out or refused. FIXCAT holds are not missed.
    pub fn matters(&self) -> bool {
        match self.deed {
            Deed::Carried | Deed::Dropped => false,
            Deed::LeftOut => self.reason != RemarkReason::Fixcat,
            Deed::Refused => true,
        }
    }

    /// Whether both remarks say the same about the same operand, in statements of the same word.
    pub(crate) fn is_like(&self, other: &Remark<'_>) -> bool {
        self.deed == other.deed
            && self.reason == other.reason
            && self.statement == other.statement
            && self.operand == other.operand
    }

    /// The statement with its id, and the operand, as far as the remark has them; empty if it has none of these.
    pub fn subject_text(&self, alloc: Global) -> Result<Vec<u8>, AllocError> {
        let mut text = Vec::from_slice(alloc, self.statement)?;
        if !self.id.is_empty() {
            text.push(b'(')?;
            text.extend_from_slice(self.id)?;
            text.push(b')')?;
        }
        if !self.operand.is_empty() {
            if !text.is_empty() {
                text.push(b' ')?;
            }
            text.extend_from_slice(self.operand)?;
        }
        Ok(text)
    }

    /// The line that is printed for the remark, without an end of line. `file` is the name of its file, and `unit` is
    /// "record" or "line".
    pub fn line(&self, alloc: Global, file: &str, unit: &str) -> Result<Vec<u8>, AllocError> {
        let card = self.place.card;
        let mut line = format!(in alloc; "{file} {unit} {card}: ")?.into_bytes();
        let subject = self.subject_text(alloc)?;
        if !subject.is_empty() {
            line.extend_from_slice(&subject)?;
            line.extend_from_slice(b": ")?;
        }
        line.extend_from_slice(self.deed.words().as_bytes())?;
        line.extend_from_slice(b": ")?;
        line.extend_from_slice(self.reason.words().as_bytes())?;
        if !self.text.is_empty() {
            line.extend_from_slice(b": ")?;
            line.extend_from_slice(self.text)?;
        }
        Ok(line)
    }
}
