//! The parts of a statement or a command: words, lists, other characters, and the gaps between them.
ghost use Rattle.std.specs.Prelude.{◌≡◌, IfOk, IfErr, IfSome, IfNone, slice_index, true};
ghost use Rattle.terms.specs.Statement.{TakesPiece, TheWord};
ghost use Rattle.terms.specs.CommandCuts.{BeginsNoGap};
ghost use Rattle.terms.specs.Forms.{is_word_byte};
ghost use Rattle.std.specs.List.{prefix_len};
ghost use Rattle.rec80.specs.Cursors.{rest_of, IsAhead};
ghost use Rattle.rec80.specs.Pieces.{TakesGap, piece_of, StopsAt};

use crate::cursor::Cursor;
use crate::scan::{skip_comment, skip_pair, split_parens};
use crate::text::Text;

/// A part of a statement or a command: a word, a list in parentheses, or any other character except a blank or a comma.
#[derive(Clone, Copy, Debug)]
pub enum Piece<'a> {
    Word(&'a [u8]),
    List(Text<'a>),
    Stray(u8),
}

/// Why no piece begins at a place.
#[derive(Clone, Copy, Debug)]
pub enum Stop {
    End,
    Period,
    OpenComment,
    BadParens,
}

/// The place after one blank, comma or comment.
#[tactic(auto, using(crate::proofs::Places::ahead_trans))]
pub fn skip_gap<'a>(at: &Cursor<'a>) -> Option<Cursor<'a>>
    ensures gap { IfSome result (λ x. TakesGap (rest_of at.now) (rest_of x)) }
    ensures end { IfNone result (BeginsNoGap (rest_of at.now)) }
    ensures ahead { IfSome result (λ x. IsAhead at.now x) }
{
    let (byte, next) = at.next_byte()?;
    if byte == b' ' || byte == b',' {
        return Some(next);
    }
    let inside = skip_pair(byte, &next, b'/', b'*')?;
    skip_comment(&inside)
}

/// Whether a word may have the byte.
pub fn is_part_of_word(byte: u8) -> bool
    ensures { result ≡ is_word_byte byte }
{
    byte.is_ascii_uppercase() || byte.is_ascii_digit() || matches!(byte, b'$' | b'#' | b'@' | b'+')
}

// How many bytes of a word the line begins with.
fn word_len(line: &[u8]) -> usize
    ensures { result ≡ prefix_len is_word_byte line.now }
{
    line.iter()
        .take_while(|byte| is_part_of_word(**byte))
        .count()
}

// The word that begins here, and the place after it. No word continues in the next record.
fn split_word<'a>(at: &Cursor<'a>) -> (&'a [u8], Cursor<'a>)
    requires { is_word_byte (slice_index (rest_of at.now) 0) ≡ true }
    ensures word { TakesPiece (rest_of at.now) (TheWord result.0.now) (rest_of result.1) }
    ensures ahead { IsAhead at.now result.1 }
{
    let (word, line) = at.line.split_at(word_len(at.line));
    (
        word,
        Cursor {
            line,
            later: at.later,
        },
    )
}

/// The piece that begins here, and the place after it. The error says why none begins: `End` if nothing is left,
/// `Period` at a period, `OpenComment` at a comment that is not closed, and `BadParens` at a parenthesis that has no
/// partner or holds a third level.
pub fn split_piece<'a>(at: &Cursor<'a>) -> Result<(Piece<'a>, Cursor<'a>), Stop>
    requires { BeginsNoGap (rest_of at.now) }
    ensures piece { IfOk result (λ x. TakesPiece (rest_of at.now) (piece_of x.0) (rest_of x.1)) }
    ensures stop { IfErr result (λ s. StopsAt s (rest_of at.now)) }
    ensures ahead { IfOk result (λ x. IsAhead at.now x.1) }
{
    let Some((byte, next)) = at.next_byte() else {
        return Err(Stop::End);
    };
    if is_part_of_word(byte) {
        let (word, after) = split_word(at);
        return Ok((Piece::Word(word), after));
    }
    if byte == b'.' {
        return Err(Stop::Period);
    }
    if byte == b')' {
        return Err(Stop::BadParens);
    }
    if byte == b'(' {
        return match split_parens(&next) {
            Some((list, after)) => Ok((Piece::List(list), after)),
            None => Err(Stop::BadParens),
        };
    }
    if skip_pair(byte, &next, b'/', b'*').is_some() {
        return Err(Stop::OpenComment);
    }
    Ok((Piece::Stray(byte), next))
}
