//! A member of a list, and the remaining members.
ghost use Rattle.std.specs.Prelude.{◌≡◌, ◌==◌, ℕ, List, Option, true, IfSome, IfNone};
ghost use Rattle.std.specs.List.{prefix_len};
ghost use Rattle.terms.specs.Words.{is_member_byte, TakesRun, HasMembers};
ghost use Rattle.terms.specs.Words as grammar;
ghost use Rattle.rec80.specs.Cursors.{text_of};

use crate::text::Text;
use crate::words::Word;
use thiserror::Error;

/// Not a list of members: it is empty, begins or ends with a comma, has two commas side by side, or members that are
/// not separated.
#[derive(Clone, Copy, Debug, PartialEq, Eq, Error)]
#[error("no list of members")]
pub struct NoMembers;

/// The remaining members of a list.
#[derive(Clone, Copy, Debug)]
pub struct Members<'a> {
    pub(crate) rest: Text<'a>,
    pub(crate) first: bool,
}

// Whether the name of a member may have the byte.
fn is_part_of_member(byte: u8) -> bool
    ensures { result ≡ is_member_byte byte }
{
    !matches!(byte, b' ' | b',' | b'(' | b')')
}

// How many bytes of a member's name the line begins with.
fn member_len(line: &[u8]) -> usize
    ensures { result ≡ prefix_len is_member_byte line.now }
{
    line.iter()
        .take_while(|byte| is_part_of_member(**byte))
        .count()
}

/// The member that begins here, and the text after it. No member continues in the next record.
pub(crate) fn split_member_word<'a>(text: &Text<'a>) -> Option<(&'a [u8], Text<'a>)>
    ensures run { IfSome result (λ x. TakesRun (text_of text.now) x.0.now (text_of x.1)) }
    ensures none { IfNone result ((word after : List ℕ) → TakesRun (text_of text.now) word after → ⊥) }
{
    let len = member_len(text.line);
    if len == 0 {
        return None;
    }
    let (word, line) = text.line.split_at(len);
    Some((
        word,
        Text {
            line,
            later: text.later,
            more: text.more,
        },
    ))
}

impl<'a> Text<'a> {
    ghost use Rattle.rec80.specs.Lists.{LeavesMembers};

    /// Walks the members of the list.
    pub fn members(&self) -> Members<'a>
        ensures all { (ms : List grammar.Word) → HasMembers (text_of self.now) ms → LeavesMembers result ms }
        ensures only { (ms : List grammar.Word) → LeavesMembers result ms → HasMembers (text_of self.now) ms }
    {
        Members {
            rest: *self,
            first: true,
        }
    }
}
