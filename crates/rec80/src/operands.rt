//! The operands of a statement or a command, read once.
ghost use Rattle.std.specs.Prelude.{◌≡◌, ◌↔◌, ◌++◌, ◌∷◌, List, [], false, map, option_map, IsTrue, OnOk, IfOk, IfErr};
ghost use Rattle.std.specs.Prelude.{IfSome, IfNone};
ghost use Rattle.std.specs.List.{list_any};
ghost use Rattle.terms.specs.Statement.{Piece, HasSolid};
ghost use Rattle.terms.specs.Words as grammar;
ghost use Rattle.terms.specs.Words.{HasWords};
ghost use Rattle.terms.specs.Operands.{AreOperands, words_in, list_behind, is_often};
ghost use Rattle.rec80.specs.Cursors.{text_of};
ghost use Rattle.rec80.specs.Views.{left_of, words_of};
ghost use Rattle.rec80.specs.Read.{IsRead};

use crate::find::{any_twice, are_operands, operand};
use crate::text::Text;
use crate::words::{NoWord, Word, Words};
use std::alloc::{AllocError, Global};

/// The operands of a statement or a command: its remaining words, in the order of the file, each with the list that
/// directly follows it.
#[derive(Drop)]
pub struct Operands<'a> {
    pub(crate) words: Vec<Word<'a>>,
    /// Whether there is nothing besides words and their lists.
    pub(crate) only_words: bool,
}

impl<'a> Operands<'a> {
    // Adds the word, or notes that something else stands in its place.
    fn add(&mut self, found: Result<Word<'a>, NoWord>) -> Result<(), AllocError>
        ensures word { OnOk result (IfOk found.entry (λ w. (self.new.words.items ≡ self.old.words.items ++ w ∷ [])
            × (self.new.only_words ≡ self.old.only_words))) }
        ensures other { OnOk result (IfErr found.entry (λ _. (self.new.words.items ≡ self.old.words.items)
            × (self.new.only_words ≡ false))) }
    {
        let Ok(word) = found else {
            self.only_words = false;
            return Ok(());
        };
        self.words.push(word)?;
        Ok(())
    }

    /// Whether there is nothing at all.
    pub fn is_empty(&self) -> bool
        ensures { (pieces : List Piece) → IsRead pieces self.now → IsTrue result ↔ (pieces ≡ []) }
    {
        self.only_words && self.words.is_empty()
    }

    /// The words, if there is nothing else.
    pub fn only(&self) -> Option<&[Word<'a>]>
        ensures some { IfSome result (λ ws. (pieces : List Piece) → IsRead pieces self.now
            → HasWords pieces (words_of ws.now)) }
        ensures none { IfNone result ((pieces : List Piece) → IsRead pieces self.now → (ws : List grammar.Word)
            → HasWords pieces ws → ⊥) }
    {
        if !self.only_words {
            return None;
        }
        Some(self.words.as_slice())
    }

    /// The words, if they are operands of these names only, each at most once, and there is nothing else.
    pub fn words_named(&self, names: &[&[u8]]) -> Option<&[Word<'a>]>
        ensures words { IfSome result (λ ws. (pieces : List Piece) → IsRead pieces self.now
            → HasWords pieces (words_of ws.now)) }
        ensures operands { IfSome result (λ ws. AreOperands (map (λ name. name.now) names.now) (words_of ws.now)) }
        ensures none { IfNone result ((pieces : List Piece) → IsRead pieces self.now → (ws : List grammar.Word)
            → HasWords pieces ws → AreOperands (map (λ name. name.now) names.now) ws → ⊥) }
    {
        let words = self.only()?;
        if !are_operands(words, names) {
            return None;
        }
        Some(words)
    }

    /// Whether there is a word of that name, whatever else there is.
    pub fn has_word(&self, name: &[u8]) -> bool
        ensures { (pieces : List Piece) → IsRead pieces self.now → result ≡ is_often 1 (words_in pieces) name.now }
    {
        operand(self.words.as_slice(), name).is_some()
    }

    /// Whether one of the names occurs twice, whatever else there is.
    pub fn has_twice(&self, names: &[&[u8]]) -> bool
        ensures { (pieces : List Piece) → IsRead pieces self.now
            → result ≡ list_any (λ name. is_often 2 (words_in pieces) name.now) names.now }
    {
        any_twice(self.words.as_slice(), names)
    }

    /// The list that directly follows the first word of that name, whatever else there is.
    pub fn list_after(&self, name: &[u8]) -> Option<Text<'a>>
        ensures { (pieces : List Piece) → IsRead pieces self.now
            → option_map text_of result ≡ list_behind name.now pieces }
    {
        operand(self.words.as_slice(), name)?.list
    }
}

impl<'a> Words<'a> {
    /// The operands in the rest of a statement or a command.
    pub fn operands(&self, alloc: Global) -> Result<Operands<'a>, AllocError>
        ensures { (pieces : List Piece) → HasSolid (left_of self.now) pieces → IfOk result (IsRead pieces) }
    {
        let mut left = *self;
        let mut read = Operands {
            words: Vec::new(alloc),
            only_words: true,
        };
        while let Some(found) = left.next_operand() {
            read.add(found)?;
        }
        Ok(read)
    }
}
