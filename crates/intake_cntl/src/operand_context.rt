//! Operands of a shop's commands, and remarks on them.

use crate::command_remarks::{CommandRemarks, RemarkWords};
use crate::received::Received;
use crate::spelling::{CommandVocabulary, OperandForm, Spelling, spelling_of};
use intake_asked::{KnownSysmod, KnownSysmods, WideCommand};
use intake_cards::{Deed, RemarkReason};
use intake_read::WideOperand;
use std::alloc::{AllocError, Global};

/// An operand of a shop's command, or a member of its BYPASS, with everything that decides how it is carried.
#[derive(Clone, Copy)]
pub(crate) struct OperandContext<'a> {
    /// The words that the command may have.
    pub(crate) vocabulary: &'a CommandVocabulary,
    /// The command that has the operand.
    pub(crate) wide: &'a WideCommand,
    pub(crate) operand: &'a WideOperand,
    /// The SYSMODs that are known besides those that the commands name.
    pub(crate) known: &'a KnownSysmods,
    /// What the commands before this one receive.
    pub(crate) received: Received,
}

/// The operands of the command, each with its context.
pub(crate) fn operand_contexts<'a>(
    alloc: Global,
    vocabulary: &'a CommandVocabulary,
    known: &'a KnownSysmods,
    received: Received,
    wide: &'a WideCommand,
) -> Result<Vec<OperandContext<'a>>, AllocError> {
    let mut contexts = Vec::new(alloc);
    for operand in &wide.operands {
        contexts.push(OperandContext {
            vocabulary,
            wide,
            operand,
            known,
            received,
        })?;
    }
    Ok(contexts)
}

impl OperandContext<'_> {
    /// The SYSMODs of which the operand chooses some: the known ones. Returns `None` if no list of them is given, or if
    /// SYSMODs are received and no PTFIN is given, which could be any.
    pub(crate) fn known_sysmods(&self) -> Option<&[KnownSysmod]> {
        if self.lacks_ptfin() {
            return None;
        }
        self.known.list.as_ref().map(|list| list.as_slice())
    }

    /// The known SYSMODs, as `known_sysmods` returns them, if all their source ids are known: no RECEIVE before the
    /// command gives SYSMODs one.
    pub(crate) fn known_sources(&self) -> Option<&[KnownSysmod]> {
        if self.received.source {
            return None;
        }
        self.known_sysmods()
    }

    // Whether SYSMODs are received before the command, and no PTFIN is given.
    fn lacks_ptfin(&self) -> bool {
        self.received.sysmods && !self.known.has_ptfin
    }

    /// Remarks that a member of the operand chooses among SYSMODs that are not known, or not with all their source ids.
    /// If they are those that the job receives, the remark says so.
    pub(crate) fn refuse_unknown(
        &self,
        alloc: Global,
        remarks: &mut CommandRemarks,
        member: &[u8],
    ) -> Result<(), AllocError> {
        let mut text = Vec::from_slice(alloc, member)?;
        if self.lacks_ptfin() {
            text.extend_from_slice(
                b", also among those that RECEIVE brings: --known takes its PTFIN",
            )?;
        } else if self.received.source {
            text.extend_from_slice(b", also among those to which RECEIVE gives a source id")?;
        }
        self.refuse(remarks, text.as_slice(), RemarkReason::NeedsKnown)
    }

    /// How the operand's word is spelled, or `None` if the command may not have the operand. C with a list is
    /// COMPRESS.
    pub(crate) fn spelling(&self) -> Option<Spelling> {
        let word = self.operand.name.as_slice();
        if word == b"C".as_slice() && self.operand.value.is_some() {
            return spelling_of(self.vocabulary.operands, b"COMPRESS");
        }
        spelling_of(self.vocabulary.operands, word)
    }

    /// Whether the command may have the operand, and the operand's form is this one.
    pub(crate) fn has_form(&self, form: OperandForm) -> bool {
        self.spelling()
            .is_some_and(|spelling| spelling.form == form)
    }

    /// Returns the spelling if the operand is carried, with a remark if its word is spelled out. Otherwise a remark
    /// drops the operand, or refuses it if it has no spelling.
    pub(crate) fn check_spelling(
        &self,
        remarks: &mut CommandRemarks,
        spelling: Option<Spelling>,
    ) -> Result<Option<Spelling>, AllocError> {
        let Some(spelling) = spelling else {
            self.refuse(remarks, self.operand.text(), RemarkReason::NoOperand)?;
            return Ok(None);
        };
        if spelling.form == OperandForm::Dropped {
            self.remark(
                remarks,
                self.operand.text(),
                Deed::Dropped,
                RemarkReason::NoDecision,
            )?;
            return Ok(None);
        }
        if spelling.word != spelling.full {
            self.remark(
                remarks,
                spelling.full,
                Deed::Carried,
                RemarkReason::SpelledOut,
            )?;
        }
        Ok(Some(spelling))
    }

    /// Remarks on the operand.
    pub(crate) fn remark(
        &self,
        remarks: &mut CommandRemarks,
        text: &[u8],
        deed: Deed,
        reason: RemarkReason,
    ) -> Result<(), AllocError> {
        let words = RemarkWords {
            command: self.vocabulary.word,
            operand: self.operand.name.as_slice(),
            text,
        };
        remarks.add(self.operand.place, words, deed, reason)
    }

    /// Remarks that the operand keeps the command from being carried.
    pub(crate) fn refuse(
        &self,
        remarks: &mut CommandRemarks,
        text: &[u8],
        reason: RemarkReason,
    ) -> Result<(), AllocError> {
        self.remark(remarks, text, Deed::Refused, reason)
    }
}
