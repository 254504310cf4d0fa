//! The words of a statement or a command, each with its list.
ghost use Rattle.std.specs.Prelude.{◌≡◌, ◌<◌, ℕ, List, [], ◌∷◌, length, IfOk, IfErr, IfSome, IfNone, OnErr};
ghost use Rattle.std.specs.Prelude.{MatchOption};
ghost use Rattle.terms.specs.Statement.{Piece as AnyPiece, HasSolid, TakesPiece, TheList};
ghost use Rattle.terms.specs.Words.{TakesWord, BeginsNoWords};
ghost use Rattle.rec80.specs.Cursors.{rest_of, text_of};
ghost use Rattle.rec80.specs.Pieces.{piece_of};
ghost use Rattle.rec80.specs.Views.{left_of, word_of};

use crate::cursor::Cursor;
use crate::piece::{Piece, split_piece};
use crate::record_files::Record;
use crate::scan::split_parens;
use crate::text::Text;
use crate::walk::skip_gaps;
use thiserror::Error;

/// A word, and the text in the parentheses after it, if there are any.
#[derive(Clone, Copy, Debug)]
pub struct Word<'a> {
    pub word: &'a [u8],
    pub list: Option<Text<'a>>,
}

/// A character that belongs to no word, or a list without a word before it.
#[derive(Clone, Copy, Debug, PartialEq, Eq, Error)]
#[error("a stray character, or a list without a word")]
pub struct NoWord;

/// The remaining words of a statement or a command, and its inline records.
#[derive(Clone, Copy, Debug)]
pub struct Words<'a> {
    pub(crate) rest: Cursor<'a>,
    pub inline: &'a [Record],
}

// The list that begins here, and the place after it.
fn list_at<'a>(at: &Cursor<'a>) -> Option<(Text<'a>, Cursor<'a>)>
    ensures list { IfSome result (λ x. TakesPiece (rest_of at.now) (TheList (text_of x.0)) (rest_of x.1)) }
    ensures none { IfNone result ((list after : List ℕ) → TakesPiece (rest_of at.now) (TheList list) after → ⊥) }
{
    let (byte, next) = at.next_byte()?;
    if byte != b'(' {
        return None;
    }
    split_parens(&next)
}

impl<'a> Words<'a> {
    /// Takes the next word with its list, if there is one. Returns an error, and changes nothing, if a character that
    /// belongs to no word comes next, or a list without a word before it.
    pub fn next_word(&mut self) -> Result<Option<Word<'a>>, NoWord>
        ensures word { (pieces : List AnyPiece) → HasSolid (left_of self.old) pieces
            → IfOk result (λ found. IfSome found (λ w. (rest : List AnyPiece) × TakesWord pieces (word_of w) rest
            × HasSolid (left_of self.new) rest)) }
        ensures end { (pieces : List AnyPiece) → HasSolid (left_of self.old) pieces
            → IfOk result (λ found. IfNone found (pieces ≡ [])) }
        ensures bad { (pieces : List AnyPiece) → HasSolid (left_of self.old) pieces
            → OnErr result (BeginsNoWords pieces) }
        ensures err { OnErr result (self.new ≡ self.old) }
        ensures inline { self.new.inline.now ≡ self.old.inline.now }
        ensures shorter { IfOk result (λ found. IfSome found (λ w. length (left_of self.new) < length
            (left_of self.old))) }
    {
        let at = skip_gaps(&self.rest);
        let Ok((piece, next)) = split_piece(&at) else {
            return Ok(None);
        };
        let Piece::Word(word) = piece else {
            return Err(NoWord);
        };
        let after_gaps = skip_gaps(&next);
        if let Some((list, after)) = list_at(&after_gaps) {
            self.rest = after;
            return Ok(Some(Word {
                word,
                list: Some(list),
            }));
        }
        self.rest = after_gaps;
        Ok(Some(Word { word, list: None }))
    }

    /// Takes the next word with its list, or the piece that is there instead of one, if there is any.
    pub(crate) fn next_operand(&mut self) -> Option<Result<Word<'a>, NoWord>>
        ensures word { (pieces : List AnyPiece) → HasSolid (left_of self.old) pieces
            → IfSome result (λ found. IfOk found (λ w. (rest : List AnyPiece) × TakesWord pieces (word_of w) rest
            × HasSolid (left_of self.new) rest)) }
        ensures other { (pieces : List AnyPiece) → HasSolid (left_of self.old) pieces
            → IfSome result (λ found. IfErr found (λ _. BeginsNoWords pieces × ((p : AnyPiece) × (rest : List AnyPiece)
            × (pieces ≡ p ∷ rest) × HasSolid (left_of self.new) rest))) }
        ensures end { (pieces : List AnyPiece) → HasSolid (left_of self.old) pieces → IfNone result (pieces ≡ []) }
        ensures shorter { IfSome result (λ found. length (left_of self.new) < length (left_of self.old)) }
    {
        let Ok(found) = self.next_word() else {
            self.next_piece()?;
            return Some(Err(NoWord));
        };
        Some(Ok(found?))
    }

    /// Takes the next word, list or other character, if there is one.
    pub fn next_piece(&mut self) -> Option<Piece<'a>>
        ensures piece { (pieces : List AnyPiece) → HasSolid (left_of self.old) pieces
            → MatchOption result (pieces ≡ []) (λ p. (rest : List AnyPiece) × (pieces ≡ piece_of p ∷ rest)
            × HasSolid (left_of self.new) rest) }
        ensures inline { self.new.inline.now ≡ self.old.inline.now }
        ensures shorter { IfSome result (λ p. length (left_of self.new) < length (left_of self.old)) }
    {
        let at = skip_gaps(&self.rest);
        let Ok((piece, next)) = split_piece(&at) else {
            return None;
        };
        self.rest = next;
        Some(piece)
    }
}
