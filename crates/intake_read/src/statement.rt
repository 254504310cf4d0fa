//! A statement as the file has it: its word, its name and its operands.
use crate::items::{OtherReason, WideOperand};
use crate::meaning::{WideWord, is_read_in_upper_case};
use intake_cards::{Card, CardPiece, CardPlace, CardScanner, Open, Token};
use std::alloc::{AllocError, Global};

/// A statement as the file has it.
#[derive(Drop)]
pub(crate) struct WideStatement {
    pub place: CardPlace,
    /// Without its `++`, in upper case.
    pub word: Vec<u8>,
    /// What stands in its parentheses, in upper case.
    pub name: Vec<u8>,
    pub operands: Vec<WideOperand>,
    /// Its first fault.
    pub fault: Option<OtherReason>,
    pub inline: Vec<Card>,
    /// Whether a word, or a value that is read in upper case, has a letter in lower case.
    pub has_lower: bool,
}

/// A statement that is begun, and the parts that it has already.
#[derive(Drop)]
struct BegunStatement {
    statement: WideStatement,
    has_word: bool,
    has_name: bool,
    is_ended: bool,
}

fn has_lower_case_letter(text: &[u8]) -> bool {
    text.iter().any(|byte| byte.is_ascii_lowercase())
}

impl WideStatement {
    /// The statement that was scanned, which begins at this place. Takes its pieces out of the scanner.
    pub(crate) fn take_scanned(
        alloc: Global,
        place: CardPlace,
        scanner: &mut CardScanner,
    ) -> Result<WideStatement, AllocError> {
        let is_open = matches!(scanner.open(), Open::Parenthesis(_));
        let mut begun = BegunStatement {
            statement: WideStatement {
                place,
                word: Vec::new(alloc),
                name: Vec::new(alloc),
                operands: Vec::new(alloc),
                fault: None,
                inline: Vec::new(alloc),
                has_lower: scanner.has_lower(),
            },
            has_word: false,
            has_name: false,
            is_ended: false,
        };
        for piece in scanner.take_pieces() {
            begun.add_piece(piece)?;
        }
        let is_ended = begun.is_ended;
        let mut statement = begun.statement;
        match (is_ended, is_open) {
            (true, true) => statement.note_fault(OtherReason::TextAfterPeriod),
            (false, true) => statement.note_fault(OtherReason::OpenParenthesis),
            (false, false) => statement.note_fault(OtherReason::NoPeriod),
            (true, false) => {}
        }
        if statement.name.is_empty() && WideWord::read(statement.word.as_slice()).needs_name() {
            statement.note_fault(OtherReason::NoName);
        }
        Ok(statement)
    }

    /// Notes a fault of the statement, unless one was noted before.
    pub(crate) fn note_fault(&mut self, fault: OtherReason) {
        if self.fault.is_none() {
            self.fault = Some(fault);
        }
    }
}

impl BegunStatement {
    // Adds the next piece: a word, a list or the period. Any other piece is a fault, and so is any after the period.
    fn add_piece(&mut self, piece: CardPiece) -> Result<(), AllocError> {
        let CardPiece { place, token } = piece;
        if self.is_ended {
            self.statement.note_fault(OtherReason::TextAfterPeriod);
            return Ok(());
        }
        match token {
            Token::Word(word) => self.add_word(place, word)?,
            Token::List(list) => self.add_list(list),
            Token::Period => self.is_ended = true,
            Token::Closing => self.statement.note_fault(OtherReason::StrayParenthesis),
            Token::Stray(_) => self.statement.note_fault(OtherReason::StrayCharacter),
        }
        Ok(())
    }

    // Adds the next word: the statement's own, or that of an operand.
    fn add_word(&mut self, place: CardPlace, word: Vec<u8>) -> Result<(), AllocError> {
        if !self.has_word {
            self.has_word = true;
            self.statement.word = word;
            return Ok(());
        }
        self.statement.operands.push(WideOperand {
            place,
            name: word,
            value: None,
        })?;
        Ok(())
    }

    // Adds a list: the value of the last operand, or the statement's name if there is no operand yet. A second list
    // after the same word is a fault.
    fn add_list(&mut self, list: Vec<u8>) {
        if let Some(operand) = self.statement.operands.last_mut() {
            if operand.value.is_none() {
                if is_read_in_upper_case(operand.name.as_slice())
                    && has_lower_case_letter(list.as_slice())
                {
                    self.statement.has_lower = true;
                }
                operand.value = Some(list);
                return;
            }
        } else if self.has_word && !self.has_name {
            self.set_name(list);
            return;
        }
        self.statement.note_fault(OtherReason::StrayParenthesis);
    }

    // Sets the name, which is the list after the statement's word, in upper case.
    fn set_name(&mut self, mut name: Vec<u8>) {
        if has_lower_case_letter(name.as_slice()) {
            self.statement.has_lower = true;
        }
        name.as_mut_slice().make_ascii_uppercase();
        self.has_name = true;
        self.statement.name = name;
    }
}
