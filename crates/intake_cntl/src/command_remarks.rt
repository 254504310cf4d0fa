//! Remarks on the commands of a file.

use intake_cards::{Deed, Remark, RemarkList, RemarkReason};
use intake_read::CardPlace;
use std::alloc::{AllocError, Global};

/// The remarks so far, and how many of them refuse something. If one does, no command file is written.
#[derive(Drop)]
pub(crate) struct CommandRemarks {
    pub(crate) list: RemarkList,
    pub(crate) refusals: usize,
}

impl CommandRemarks {
    /// No remarks.
    pub(crate) fn new(alloc: Global) -> CommandRemarks {
        CommandRemarks {
            list: RemarkList::new(alloc),
            refusals: 0,
        }
    }

    /// Adds a remark on an operand of a command, or on the whole command if the operand is empty. Counts the remark if
    /// it refuses something.
    pub(crate) fn add(
        &mut self,
        place: CardPlace,
        words: RemarkWords<'_>,
        deed: Deed,
        reason: RemarkReason,
    ) -> Result<(), AllocError> {
        if deed == Deed::Refused {
            self.refusals = self.refusals.saturating_add(1);
        }
        self.list.push(&Remark {
            place,
            statement: words.command,
            id: b"",
            operand: words.operand,
            deed,
            reason,
            text: words.text,
        })
    }
}

/// The words that a remark names: those of the command and the operand, and the text that is meant. Each may be empty.
#[derive(Clone, Copy, Debug)]
pub(crate) struct RemarkWords<'a> {
    pub(crate) command: &'a [u8],
    pub(crate) operand: &'a [u8],
    pub(crate) text: &'a [u8],
}
