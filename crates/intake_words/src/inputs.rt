//! The files that are read, by their numbers.

use crate::fault::IntakeFault;
use crate::options::CardOptions;
use crate::shown::shown_name;
use intake_cards::{
    Card, CardNote, CardNoteReason, CardPlace, CardReader, Code, Layout, read_cards,
};
use std::alloc::{AllocError, Global};

/// A file that was read: its name as it is shown, and how it is laid out.
#[derive(Debug, Drop)]
struct InputFile {
    name: String,
    layout: Layout,
}

/// The files that were read so far. A `CardPlace` names its file by its number in this list.
#[derive(Debug, Drop)]
pub struct InputFiles {
    all: Vec<InputFile>,
    /// Lines that say how each file was read, the first ones of the file of remarks.
    reading_lines: Vec<u8>,
}

impl InputFiles {
    /// No files yet.
    pub fn new(alloc: Global) -> InputFiles {
        InputFiles {
            all: Vec::new(alloc),
            reading_lines: Vec::new(alloc),
        }
    }

    // Adds the next file, and a line that says how it is read.
    fn add(
        &mut self,
        alloc: Global,
        name: &str,
        layout: Layout,
        code: Code,
    ) -> Result<(), AllocError> {
        let name = shown_name(alloc, name)?;
        let layout_text = layout_words(layout);
        let code = code_words(code);
        let line = format!(in alloc; "{name}: read as {layout_text} in {code}\n")?;
        self.all.push(InputFile { name, layout })?;
        self.reading_lines.extend_from_slice(line.as_bytes())
    }

    /// Adds a line for each note on the cards of the last file.
    pub fn add_card_notes(&mut self, alloc: Global, notes: &[CardNote]) -> Result<(), AllocError> {
        let Some(file) = self.all.last() else {
            return Ok(());
        };
        let name = file.name.as_str();
        let unit = unit_of(file.layout);
        for note in notes {
            let first = note.first.card;
            let count = note.cards;
            let words = note_words(note.reason);
            let line = format!(in alloc; "{name} {unit} {first}: {words}: in {count} cards\n")?;
            self.reading_lines.extend_from_slice(line.as_bytes())?;
        }
        Ok(())
    }

    /// The lines that say how each file was read. Afterwards there are none.
    pub fn take_reading_lines(&mut self, alloc: Global) -> Vec<u8> {
        std::mem::replace(&mut self.reading_lines, Vec::new(alloc))
    }

    // The number of the file that is read next. No command line names as many files as there are numbers.
    fn next_number(&self) -> u32 {
        u32::try_from(self.all.len()).unwrap_or(u32::MAX)
    }

    // The name of the file of this number, or an empty text if there is none.
    pub(crate) fn name(&self, file: u32) -> &str {
        match self.all.get(file as usize) {
            Some(input) => input.name.as_str(),
            None => "",
        }
    }

    // What a card of the file of this number is called: "line" or "record".
    pub(crate) fn unit(&self, file: u32) -> &'static str {
        match self.all.get(file as usize) {
            Some(input) => unit_of(input.layout),
            None => unit_of(Layout::Records),
        }
    }

    /// The cards of the file of this name, which is added to the list. Returns `NoCards` if the bytes cannot be read as
    /// cards, `Memory` if memory runs out.
    pub fn read_cards(
        &mut self,
        alloc: Global,
        name: &str,
        bytes: &[u8],
        options: CardOptions,
    ) -> Result<Vec<Card>, IntakeFault> {
        let read = match read_cards(
            alloc,
            self.next_number(),
            bytes,
            options.layout,
            options.code,
        ) {
            Ok(read) => read,
            Err(error) => return Err(IntakeFault::of_cards(alloc, name, error)),
        };
        self.add(alloc, name, read.layout, read.code)?;
        self.add_card_notes(alloc, &read.notes)?;
        Ok(read.cards)
    }

    /// A reader of the cards of the file of this name, which is added to the list. The notes on its cards are known
    /// only after all cards are read. Returns `NoCards` if the bytes cannot be read as cards, `Memory` if memory runs
    /// out.
    pub fn open_cards<'a>(
        &mut self,
        alloc: Global,
        name: &str,
        bytes: &'a [u8],
        options: CardOptions,
    ) -> Result<CardReader<'a>, IntakeFault> {
        match CardReader::open(self.next_number(), bytes, options.layout, options.code) {
            Ok(cards) => {
                self.add(alloc, name, cards.layout, cards.code)?;
                Ok(cards)
            }
            Err(error) => Err(IntakeFault::of_cards(alloc, name, error)),
        }
    }

    // The place in words, with a colon after it.
    pub(crate) fn place_text(
        &self,
        alloc: Global,
        place: CardPlace,
    ) -> Result<Vec<u8>, AllocError> {
        let name = self.name(place.file);
        let unit = self.unit(place.file);
        let card = place.card;
        Ok(format!(in alloc; "{name} {unit} {card}: ")?.into_bytes())
    }
}

// What a card of a file with this layout is called.
fn unit_of(layout: Layout) -> &'static str {
    match layout {
        Layout::Text => "line",
        Layout::Records => "record",
    }
}

// The layout in words.
fn layout_words(layout: Layout) -> &'static str {
    match layout {
        Layout::Text => "lines",
        Layout::Records => "records of 80 bytes",
    }
}

// The code in words.
fn code_words(code: Code) -> &'static str {
    match code {
        Code::Ascii => "ASCII",
        Code::Ibm1047 => "IBM-1047",
        Code::Ibm037 => "IBM-037",
    }
}

// The reason of a note in words.
fn note_words(reason: CardNoteReason) -> &'static str {
    match reason {
        CardNoteReason::ByteOrderMark => "a byte order mark is passed over",
        CardNoteReason::BlanksAfter80 => "blanks after column 80 are passed over",
        CardNoteReason::LongLine => "more than 80 columns",
        CardNoteReason::Padding =>
            "NULs or the end of file of older systems at its end are passed over",
        CardNoteReason::Delimiter => "a delimiter of JCL at its end is passed over",
        CardNoteReason::Tab => "a tab counts as one column",
        CardNoteReason::NotPrintable => "characters that are no ASCII",
    }
}
