//! The commands of a shop's command file, unchanged.
//! A command is a word, operands, and the first period outside comments and parentheses. Comments may stand anywhere,
//! in parentheses too; more than one command may stand on a card, and a command may run over cards.

use intake_read::{Card, CardPlace, WideOperand};
use std::alloc::{AllocError, Global};

/// How a command ends.
#[derive(Clone, Copy, Debug, PartialEq, Eq)]
pub enum CommandEnd {
    /// By its period.
    Period,
    /// The file ends before its period.
    NoPeriod,
    /// A parenthesis is open where the file ends.
    OpenParenthesis,
    /// A comment is open where the file ends. This is where it opens.
    OpenComment(CardPlace),
}

/// A command, unchanged but in upper case.
#[derive(Drop)]
pub struct WideCommand {
    pub place: CardPlace,
    /// Its word, and the list in parentheses directly after it. A command that begins with a list has an empty word.
    pub head: WideOperand,
    pub operands: Vec<WideOperand>,
    /// The members of its BYPASS operands, each with the list after it, all at the place of their BYPASS.
    pub bypassed: Vec<WideOperand>,
    pub end: CommandEnd,
    /// It has words in lower case.
    pub has_lower_case: bool,
    /// It begins on the card on which the command before it ends.
    pub shares_card: bool,
}

/// A comment that opens inside a command and goes on after its card. It may hide operands that were meant to be read.
#[derive(Drop)]
pub struct CommandComment {
    /// Where it opens.
    pub place: CardPlace,
    /// The word of the command.
    pub command: Vec<u8>,
    /// Its text on later cards, with a blank between the texts of two cards.
    pub text: Vec<u8>,
}

/// The commands of a file, and what may have changed their meaning unseen.
#[derive(Drop)]
pub struct WideCommands {
    pub commands: Vec<WideCommand>,
    /// The cards that are cut at column 80 outside comments.
    pub cut: Vec<CardPlace>,
    /// The comments that may hide operands.
    pub comments: Vec<CommandComment>,
}

/// What the next character belongs to.
#[derive(Clone, Copy, Debug, PartialEq, Eq)]
enum Within {
    Words,
    /// After a slash, which may begin a comment.
    Slash,
    Comment,
    /// After an asterisk in a comment, which may end it.
    Star,
}

/// What was read so far, and the command that is begun.
#[derive(Drop)]
struct CommandScanner {
    alloc: Global,
    commands: Vec<WideCommand>,
    words: Vec<WideOperand>,
    within: Within,
    /// Where the last comment opens.
    comment_place: CardPlace,
    /// What this comment has on later cards, if it is inside a command.
    swallowed: Vec<u8>,
    comments: Vec<CommandComment>,
    /// The cards that are cut outside comments.
    cut: Vec<CardPlace>,
    /// How many parentheses are open.
    depth: usize,
    /// The last word goes on with the next character.
    in_word: bool,
    has_lower_case: bool,
    /// The card on which the last command ended.
    last_end: Option<CardPlace>,
}

/// The commands of the cards. The last one may have no end, and their words need not be commands of SMP/E.
pub fn wide_commands(alloc: Global, cards: &[Card]) -> Result<WideCommands, AllocError> {
    let mut scanner = CommandScanner::new(alloc);
    for card in cards {
        scanner.read_card(card)?;
    }
    let mut wide = scanner.finish()?;
    for command in wide.commands.iter_mut() {
        command.bypassed = bypass_members(alloc, &command.operands)?;
    }
    Ok(wide)
}

// The members of all BYPASS operands.
fn bypass_members(alloc: Global, operands: &[WideOperand]) -> Result<Vec<WideOperand>, AllocError> {
    let mut members = Vec::new(alloc);
    for operand in operands {
        if operand.name.as_slice() == b"BYPASS".as_slice() {
            let mut words = read_bypass_list(alloc, operand)?;
            members.append(&mut words)?;
        }
    }
    Ok(members)
}

// The members of a BYPASS, each with the list after it, all at the place of the BYPASS. A period does not end its list,
// so it belongs to a word.
fn read_bypass_list(alloc: Global, bypass: &WideOperand) -> Result<Vec<WideOperand>, AllocError> {
    let place = bypass.place;
    let mut scanner = CommandScanner::new(alloc);
    for byte in bypass.text() {
        if *byte == b'.' && scanner.depth == 0 {
            scanner.add_to_word(*byte, place)?;
        } else {
            scanner.add_byte(*byte, place)?;
        }
    }
    Ok(scanner.words)
}

impl CommandScanner {
    // A scanner that has read no card.
    fn new(alloc: Global) -> CommandScanner {
        CommandScanner {
            alloc,
            commands: Vec::new(alloc),
            words: Vec::new(alloc),
            within: Within::Words,
            comment_place: CardPlace { file: 0, card: 1 },
            swallowed: Vec::new(alloc),
            comments: Vec::new(alloc),
            cut: Vec::new(alloc),
            depth: 0,
            in_word: false,
            has_lower_case: false,
            last_end: None,
        }
    }

    // Reads a card. Its end separates words, and ends a comment if the card says so.
    fn read_card(&mut self, card: &Card) -> Result<(), AllocError> {
        self.keep_comment_text(card.columns())?;
        for byte in card.columns() {
            self.read_byte(*byte, card.place)?;
        }
        self.read_byte(b' ', card.place)?;
        if !self.is_in_comment() {
            if card.is_cut {
                self.cut.push(card.place)?;
            }
        } else if card.ends_comment {
            self.close_comment()?;
        }
        Ok(())
    }

    // Whether a comment is open.
    fn is_in_comment(&self) -> bool {
        matches!(self.within, Within::Comment | Within::Star)
    }

    // Keeps what the next card has of a comment that opened inside a command on an earlier card.
    fn keep_comment_text(&mut self, text: &[u8]) -> Result<(), AllocError> {
        if !self.is_in_comment() || self.words.is_empty() {
            return Ok(());
        }
        let text = without_comment_end(text);
        if !self.swallowed.is_empty() && !text.is_empty() {
            self.swallowed.push(b' ')?;
        }
        self.swallowed.extend_from_slice(text)?;
        Ok(())
    }

    // Ends the comment. If it had text on later cards inside a command, the text is kept.
    fn close_comment(&mut self) -> Result<(), AllocError> {
        self.within = Within::Words;
        if self.swallowed.is_empty() {
            return Ok(());
        }
        let command = match self.words.first() {
            Some(word) => word.name.clone()?,
            None => Vec::new(self.alloc),
        };
        let text = std::mem::replace(&mut self.swallowed, Vec::new(self.alloc));
        self.comments.push(CommandComment {
            place: self.comment_place,
            command,
            text,
        })?;
        Ok(())
    }

    // Reads the next character of a card.
    fn read_byte(&mut self, byte: u8, place: CardPlace) -> Result<(), AllocError> {
        match self.within {
            Within::Star if byte == b'/' => self.close_comment()?,
            Within::Comment | Within::Star => self.within = after_comment_byte(byte),
            Within::Slash if byte == b'*' => {
                self.within = Within::Comment;
                self.comment_place = place;
                self.add_byte(b' ', place)?;
            }
            Within::Slash => {
                self.add_byte(b'/', place)?;
                self.read_outside_comment(byte, place)?;
            }
            Within::Words => self.read_outside_comment(byte, place)?,
        }
        Ok(())
    }

    // Reads a character outside comments. A slash is kept back, because it may begin a comment.
    fn read_outside_comment(&mut self, byte: u8, place: CardPlace) -> Result<(), AllocError> {
        if byte == b'/' {
            self.within = Within::Slash;
            return Ok(());
        }
        self.within = Within::Words;
        self.add_byte(byte, place)
    }

    // Adds a character that belongs to no comment to a word or a list, or ends the command with it. It is read in upper
    // case, and a tab as a blank.
    fn add_byte(&mut self, byte: u8, place: CardPlace) -> Result<(), AllocError> {
        if byte.is_ascii_lowercase() {
            self.has_lower_case = true;
        }
        let byte = if byte == b'\t' {
            b' '
        } else {
            byte.to_ascii_uppercase()
        };
        if self.depth > 0 {
            return self.add_to_list(byte);
        }
        match byte {
            b' ' | b',' => {
                self.in_word = false;
                Ok(())
            }
            b'(' => self.open_list(place),
            b'.' => self.end_command(place),
            _ => self.add_to_word(byte, place),
        }
    }

    // Adds a character to the word, or begins a word with it.
    fn add_to_word(&mut self, byte: u8, place: CardPlace) -> Result<(), AllocError> {
        if !self.in_word {
            self.begin_word(place)?;
        }
        self.in_word = true;
        if let Some(word) = self.words.last_mut() {
            word.name.push(byte)?;
        }
        Ok(())
    }

    // Begins a word at this place.
    fn begin_word(&mut self, place: CardPlace) -> Result<(), AllocError> {
        self.words.push(WideOperand {
            place,
            name: Vec::new(self.alloc),
            value: None,
        })?;
        Ok(())
    }

    // Begins a list. It belongs to the word before it, or to none if that word has a list.
    fn open_list(&mut self, place: CardPlace) -> Result<(), AllocError> {
        self.in_word = false;
        self.depth = 1;
        let is_free = self.words.last().is_some_and(|word| word.value.is_none());
        if !is_free {
            self.begin_word(place)?;
        }
        if let Some(word) = self.words.last_mut() {
            word.value = Some(Vec::new(self.alloc));
        }
        Ok(())
    }

    // Adds a character to the list. One blank stands for blanks side by side, and none for those at either end.
    fn add_to_list(&mut self, byte: u8) -> Result<(), AllocError> {
        match byte {
            b'(' => self.depth = self.depth.saturating_add(1),
            b')' => self.depth = self.depth.saturating_sub(1),
            _ => {}
        }
        let is_closed = self.depth == 0;
        let Some(word) = self.words.last_mut() else {
            return Ok(());
        };
        let Some(list) = &mut word.value else {
            return Ok(());
        };
        if is_closed {
            if list.last() == Some(&b' ') {
                let _ = list.pop();
            }
            return Ok(());
        }
        if byte == b' ' && (list.is_empty() || list.last() == Some(&b' ')) {
            return Ok(());
        }
        list.push(byte)?;
        Ok(())
    }

    // Ends the command by its period.
    fn end_command(&mut self, place: CardPlace) -> Result<(), AllocError> {
        self.in_word = false;
        self.end_begun_command(CommandEnd::Period)?;
        self.last_end = Some(place);
        Ok(())
    }

    // Makes a command of the words so far, with this end. Without words there is none: a period by itself is no
    // command.
    fn end_begun_command(&mut self, end: CommandEnd) -> Result<(), AllocError> {
        let words = std::mem::replace(&mut self.words, Vec::new(self.alloc));
        let mut words = words.into_iter();
        let Some(head) = words.next() else {
            return Ok(());
        };
        let place = head.place;
        let shares_card = self.last_end == Some(place);
        let mut operands = Vec::new(self.alloc);
        for word in words {
            operands.push(word)?;
        }
        let has_lower_case = self.has_lower_case;
        self.has_lower_case = false;
        self.commands.push(WideCommand {
            place,
            head,
            operands,
            bypassed: Vec::new(self.alloc),
            end,
            has_lower_case,
            shares_card,
        })?;
        Ok(())
    }

    // Ends the last command, and returns what was read. The members of BYPASS are not read yet.
    fn finish(mut self) -> Result<WideCommands, AllocError> {
        let end = match self.within {
            Within::Comment | Within::Star => CommandEnd::OpenComment(self.comment_place),
            _ if self.depth > 0 => CommandEnd::OpenParenthesis,
            _ => CommandEnd::NoPeriod,
        };
        if self.is_in_comment() && self.words.is_empty() {
            let place = self.comment_place;
            self.begin_word(place)?;
        }
        self.end_begun_command(end)?;
        Ok(WideCommands {
            commands: self.commands,
            cut: self.cut,
            comments: self.comments,
        })
    }
}

// The state after a character of a comment that does not end it.
fn after_comment_byte(byte: u8) -> Within {
    if byte == b'*' {
        Within::Star
    } else {
        Within::Comment
    }
}

// The text before the end of a comment, or the whole text if no comment ends in it, without blanks at either end.
fn without_comment_end(text: &[u8]) -> &[u8] {
    let end = text.windows(2).position(|pair| pair == b"*/".as_slice());
    match end.and_then(|end| text.split_at_checked(end)) {
        Some((front, _)) => front.trim_ascii(),
        None => text.trim_ascii(),
    }
}
