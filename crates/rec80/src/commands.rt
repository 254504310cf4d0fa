//! The commands of a command file, one after the other.
ghost use Rattle.std.specs.Prelude.{◌≡◌, ◌<◌, ◌+◌, ◌^◌, List, [], length, IfOk, IfErr, IfSome, IfNone, OnErr};
ghost use Rattle.terms.specs.Statement.{Piece, HasSolid, IsIdle, joined};
ghost use Rattle.terms.specs.CommandCuts.{TakesCommand, IsCutFault};
ghost use Rattle.rec80.specs.Walks.{st_fault};

use crate::error::StmtError;
use crate::record_files::{Record, Records};
use crate::statements::first_place;
use crate::walk::{inline_records, skip_gaps};
use crate::words::Words;
use thiserror::Error;

/// The words of one command. Its number is that of the record where it begins, and counts from 1 in the file.
#[derive(Clone, Copy, Debug)]
pub struct CommandWords<'a> {
    pub number: usize,
    pub words: Words<'a>,
}

/// The command that begins in this record has a fault, or a comment between commands that begins there is not closed.
#[derive(Clone, Copy, Debug, PartialEq, Eq, Error)]
#[error("the command in record {number}: {why}")]
pub struct CommandError {
    pub number: usize,
    pub why: StmtError,
}

/// The remaining commands, in records the first of which has this number.
#[derive(Clone, Copy, Debug)]
pub struct Commands<'a> {
    pub number: usize,
    pub rest: &'a [Record],
    ghost room: { number + length rest.now < 2 ^ 64 },
}

impl<'a> Records<'a> {
    /// Walks the commands of a command file.
    pub fn commands(&self) -> Commands<'a>
        ensures number { result.number ≡ 1 }
        ensures rest { result.rest.now ≡ self.now.all.now }
    {
        Commands {
            number: 1,
            rest: self.all,
        }
    }
}

impl<'a> Commands<'a> {
    ghost use Rattle.rec80.specs.Views.{left_of};

    /// Takes the next command, if there is one. Returns an error, and changes nothing, if the form of the command is
    /// bad or a comment between commands is not closed.
    pub fn next_command(&mut self) -> Result<Option<CommandWords<'a>>, CommandError>
        ensures command { IfOk result (λ found. IfSome found (λ x. (pieces : List Piece)
            × TakesCommand self.old.number self.old.rest.now pieces x.number self.new.number self.new.rest.now
            × HasSolid (left_of x.words) pieces)) }
        ensures inline { IfOk result (λ found. IfSome found (λ x. x.words.inline.now ≡ [])) }
        ensures end { IfOk result (λ found. IfNone found (IsIdle (joined self.old.rest.now))) }
        ensures fault { IfErr result (λ e. IsCutFault self.old.number self.old.rest.now e.number (st_fault e.why)) }
        ensures err { OnErr result (self.new ≡ self.old) }
    {
        let Some(first) = first_place(self.rest) else {
            return Ok(None);
        };
        let from = skip_gaps(&first);
        if from.is_end() {
            return Ok(None);
        }
        // `from.later` are the records after the one in which the command begins.
        let number = self.number + (self.rest.len() - from.later.len() - 1);
        let later = match inline_records(&from) {
            Ok(later) => later,
            Err(why) => return Err(CommandError { number, why }),
        };
        self.number += self.rest.len() - later.len();
        self.rest = later;
        let words = Words {
            rest: from,
            inline: &[],
        };
        Ok(Some(CommandWords { number, words }))
    }
}
