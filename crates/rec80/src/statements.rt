//! The words and the inline records of one statement.
ghost use Rattle.std.specs.Prelude.{◌≡◌, ℕ, List, [], IfOk, IfErr, IsOk, IfSome, IfNone};
ghost use Rattle.terms.specs.Statement.{Piece, IsStatement, IsStFault, HasSolid, joined};
ghost use Rattle.rec80.specs.Cursors.{rest_of, IsIn};
ghost use Rattle.rec80.specs.Walks.{st_fault};
ghost use Rattle.rec80.specs.Views.{left_of};

use crate::cursor::{Cursor, text_columns};
use crate::error::StmtError;
use crate::groups::Group;
use crate::record_files::Record;
use crate::walk::inline_records;
use crate::words::Words;

/// The beginning of the records, if there are any.
pub fn first_place<'a>(records: &'a [Record]) -> Option<Cursor<'a>>
    ensures text { IfSome result (λ x. rest_of x ≡ joined records.now) }
    ensures place { IfSome result (λ x. IsIn records.now x) }
    ensures none { IfNone result (records.now ≡ []) }
{
    let (first, later) = records.split_first()?;
    Some(Cursor {
        line: text_columns(first),
        later,
    })
}

/// The words and the inline records of a statement. Returns `NoPeriod` if it has no period, `OpenComment` if a comment
/// before the period is not closed, `BadParens` if a parenthesis has no partner or a third level opens, and
/// `TextAfterPeriod` if more than blanks and comments follow the period in its record.
pub fn statement<'a>(group: &Group<'a>) -> Result<Words<'a>, StmtError>
    ensures ok { IfOk result (λ words. (pieces : List Piece) × IsStatement group.now.records.now pieces words.inline.now
        × HasSolid (left_of words) pieces) }
    ensures good { (pieces : List Piece) (inline : List (List ℕ)) → IsStatement group.now.records.now pieces inline
        → IsOk result }
    ensures fault { IfErr result (λ e. IsStFault group.now.records.now (st_fault e)) }
{
    let Some(rest) = first_place(group.records) else {
        return Err(StmtError::NoPeriod);
    };
    let inline = inline_records(&rest)?;
    Ok(Words { rest, inline })
}
