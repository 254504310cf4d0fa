//! Many remarks.

use crate::place::CardPlace;
use crate::reason::RemarkReason;
use crate::remark::{Deed, Remark};
use std::alloc::{AllocError, Global};

/// Remarks in the order in which they were told. There may be several for each hold of a large file, so the words of
/// all of them are in one buffer.
#[derive(Debug, Drop)]
pub struct RemarkList {
    heads: Vec<RemarkHead>,
    words: Vec<u8>,
}

/// A remark without its words. These follow each other among the words of all remarks.
#[derive(Clone, Copy, Debug)]
struct RemarkHead {
    place: CardPlace,
    /// Where its words begin.
    start: usize,
    /// How long each of them is.
    statement: u32,
    id: u32,
    operand: u32,
    text: u32,
    deed: Deed,
    reason: RemarkReason,
}

impl RemarkList {
    /// No remarks.
    pub fn new(alloc: Global) -> RemarkList {
        RemarkList {
            heads: Vec::new(alloc),
            words: Vec::new(alloc),
        }
    }

    /// How many remarks there are.
    pub fn len(&self) -> usize {
        self.heads.len()
    }

    /// Whether there are none.
    pub fn is_empty(&self) -> bool {
        self.heads.is_empty()
    }

    /// The remark at the place.
    pub fn get(&self, place: usize) -> Option<Remark<'_>> {
        let head = self.heads.get(place)?;
        let (_, words) = self.words.split_at_checked(head.start)?;
        let (statement, words) = words.split_at_checked(head.statement as usize)?;
        let (id, words) = words.split_at_checked(head.id as usize)?;
        let (operand, words) = words.split_at_checked(head.operand as usize)?;
        let (text, _) = words.split_at_checked(head.text as usize)?;
        Some(Remark {
            place: head.place,
            statement,
            id,
            operand,
            deed: head.deed,
            reason: head.reason,
            text,
        })
    }

    /// Adds a remark after the others.
    pub fn push(&mut self, remark: &Remark<'_>) -> Result<(), AllocError> {
        let start = self.words.len();
        let statement = self.add_word(remark.statement)?;
        let id = self.add_word(remark.id)?;
        let operand = self.add_word(remark.operand)?;
        let text = self.add_word(remark.text)?;
        self.heads.push(RemarkHead {
            place: remark.place,
            start,
            statement,
            id,
            operand,
            text,
            deed: remark.deed,
            reason: remark.reason,
        })?;
        Ok(())
    }

    // Adds a word after the others, and returns its length. Of a word of more than 4 GB only the beginning is kept.
    fn add_word(&mut self, word: &[u8]) -> Result<u32, AllocError> {
        let kept = match word.split_at_checked(u32::MAX as usize) {
            Some((front, _)) => front,
            None => word,
        };
        self.words.extend_from_slice(kept)?;
        Ok(u32::try_from(kept.len()).unwrap_or(u32::MAX))
    }

    /// Adds the others after these.
    pub fn append(&mut self, mut others: RemarkList) -> Result<(), AllocError> {
        if self.heads.is_empty() {
            *self = others;
            return Ok(());
        }
        let start = self.words.len();
        self.words.append(&mut others.words)?;
        for head in others.heads.iter_mut() {
            head.start = head.start.saturating_add(start);
        }
        self.heads.append(&mut others.heads)
    }

    /// Turns each remark that says that something is left out into one that says that it is dropped.
    pub fn mark_left_out_as_dropped(&mut self) {
        for head in self.heads.iter_mut() {
            if head.deed == Deed::LeftOut {
                head.deed = Deed::Dropped;
            }
        }
    }
}
