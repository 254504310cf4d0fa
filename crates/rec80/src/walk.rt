//! Where a statement or a command ends, and what follows it.
ghost use Rattle.std.specs.Prelude.{◌≡◌, IfOk, IfErr, IsTrue, ℕ, List, false};
ghost use Rattle.terms.specs.Statement.{IsIdle, Piece};
ghost use Rattle.rec80.specs.Cursors.{rest_of, IsAhead};
ghost use Rattle.rec80.specs.Pieces.{StopsAt};
ghost use Rattle.rec80.specs.Walks.{SkipsGaps, Walks, EndsFrom, BreaksFrom};

use crate::cursor::Cursor;
use crate::error::StmtError;
use crate::piece::{Stop, skip_gap, split_piece};
use crate::record_files::Record;

/// The place after the gaps that begin here.
pub fn skip_gaps<'a>(at: &Cursor<'a>) -> Cursor<'a>
    ensures gaps { SkipsGaps (rest_of at.now) (rest_of result) }
    ensures ahead { IsAhead at.now result }
{
    let mut place = *at;
    while let Some(next) = skip_gap(&place) {
        place = next;
    }
    place
}

/// Where the pieces that begin here end, and why.
pub fn first_stop<'a>(from: &Cursor<'a>) -> (Cursor<'a>, Stop)
    ensures walks { Walks (rest_of from.now) (rest_of result.0) }
    ensures stop { StopsAt result.1 (rest_of result.0) }
    ensures ahead { IsAhead from.now result.0 }
{
    let mut at = skip_gaps(from);
    loop {
        match split_piece(&at) {
            Ok((_, next)) => at = skip_gaps(&next),
            Err(stop) => return (at, stop),
        }
    }
}

// Whether the rest of a record has only blanks and whole comments.
fn is_idle(tail: &[u8]) -> bool
    ensures idle { IsTrue result → IsIdle tail.now }
    ensures text { result ≡ false → IsIdle tail.now → ⊥ }
{
    let end = skip_gaps(&Cursor {
        line: tail,
        later: &[],
    });
    end.is_end()
}

/// The records after the one in which the statement that begins here ends. Returns `NoPeriod` if it has no period,
/// `OpenComment` if a comment before the period is not closed, `BadParens` if a parenthesis has no partner or a third
/// level opens, and `TextAfterPeriod` if more than blanks and comments follow the period in its record.
pub fn inline_records<'a>(from: &Cursor<'a>) -> Result<&'a [Record], StmtError>
    ensures ok { IfOk result (λ inline. (ps : List Piece) × (tail : List ℕ) × EndsFrom from.now ps tail inline.now
        × IsIdle tail) }
    ensures fault { IfErr result (λ e. BreaksFrom from.now e) }
{
    let (at, stop) = first_stop(from);
    match stop {
        Stop::End => Err(StmtError::NoPeriod),
        Stop::OpenComment => Err(StmtError::OpenComment),
        Stop::BadParens => Err(StmtError::BadParens),
        Stop::Period => {
            let (_, tail) = at.line.split_at(1);
            if is_idle(tail) {
                Ok(at.later)
            } else {
                Err(StmtError::TextAfterPeriod)
            }
        }
    }
}
