//! The text of what is read from a row.

use fields::{Id, IdList};
use itoa::Buffer;

/// How many bytes of a text are kept.
const MOST_BYTES: usize = 480;

/// What a row's text was read as, in words. It keeps the first `MOST_BYTES` bytes and drops the others.
#[derive(Clone, Copy)]
pub(crate) struct RowText {
    bytes: [u8; MOST_BYTES],
    /// How many of the bytes are the text.
    len: usize,
}

impl RowText {
    pub(crate) fn new() -> RowText {
        RowText {
            bytes: [0; MOST_BYTES],
            len: 0,
        }
    }

    pub(crate) fn print(&mut self, text: &[u8]) {
        for byte in text {
            if let Some(place) = self.bytes.get_mut(self.len) {
                *place = *byte;
                self.len = self.len.saturating_add(1);
            }
        }
    }

    /// Appends each word after a blank.
    pub(crate) fn print_words(&mut self, words: &[&[u8]]) {
        for word in words {
            self.print(b" ");
            self.print(word);
        }
    }

    pub(crate) fn print_number(&mut self, number: usize) {
        self.print(Buffer::new().format(number).as_bytes());
    }

    /// Appends `T` if the flag is set, and `F` if not.
    pub(crate) fn print_flag(&mut self, flag: bool) {
        self.print(if flag { b"T" } else { b"F" });
    }

    /// Appends the word if the condition holds.
    pub(crate) fn print_if(&mut self, condition: bool, word: &[u8]) {
        if condition {
            self.print(word);
        }
    }

    /// Appends each id after a blank.
    pub(crate) fn print_ids(&mut self, ids: &[Id]) {
        for id in ids {
            self.print_words(&[id.as_bytes()]);
        }
    }

    /// Appends the ids in parentheses after the name, if there are any.
    pub(crate) fn print_id_list(&mut self, name: &[u8], ids: &IdList) {
        if ids.is_empty() {
            return;
        }
        self.print(name);
        self.print(b"(");
        for id in ids.iter() {
            self.print(id.as_bytes());
            self.print(b" ");
        }
        self.print(b")");
    }

    pub(crate) fn text(&self) -> &str {
        // `len` is at most the length of the array, so `get` finds the text.
        let text = self.bytes.get(..self.len).unwrap_or(self.bytes.as_slice());
        std::str::from_utf8(text).unwrap_or("not UTF-8")
    }
}
