//! The text in parentheses, which may run over several records.
ghost use Rattle.std.specs.Prelude.{◌≡◌, ◌≤◌, [], ◌∷◌, ◌++◌, true, false, length, take, MatchOption};
ghost use Rattle.rec80.specs.Cursors.{text_of, line_of};

use crate::cursor::{Cursor, text_columns};
use crate::record_files::Record;

/// The text in a pair of parentheses. The records that it runs over are joined by one blank.
#[derive(Clone, Copy, Debug)]
pub struct Text<'a> {
    pub(crate) line: &'a [u8],
    pub(crate) later: &'a [Record],
    pub(crate) more: usize,
}

impl<'a> Text<'a> {
    /// The part in the first record.
    pub fn line(&self) -> &'a [u8]
        ensures { result.now ≡ line_of self.now }
    {
        self.line
    }

    /// The text from the next record on, if it continues there.
    pub fn next_line(&self) -> Option<Text<'a>>
        ensures { MatchOption result (text_of self.now ≡ line_of self.now)
            (λ next. text_of self.now ≡ line_of self.now ++ 32 ∷ text_of next) }
    {
        if self.more == 0 {
            return None;
        }
        let (card, later) = self.later.split_first()?;
        let next = Cursor {
            line: text_columns(card),
            later,
        };
        Some(next.text(self.more - 1))
    }

    /// The first byte, and the text after it.
    pub fn next_byte(&self) -> Option<(u8, Text<'a>)>
        ensures { MatchOption result (text_of self.now ≡ []) (λ x. text_of self.now ≡ x.0 ∷ text_of x.1) }
    {
        if let Some((byte, line)) = self.line.split_first() {
            return Some((
                *byte,
                Text {
                    line,
                    later: self.later,
                    more: self.more,
                },
            ));
        }
        let next = self.next_line()?;
        Some((b' ', next))
    }

    /// Whether it is empty.
    pub(crate) fn is_end(&self) -> bool
        ensures end { result ≡ true → text_of self.now ≡ [] }
        ensures more { result ≡ false → text_of self.now ≡ [] → ⊥ }
    {
        self.next_byte().is_none()
    }

    /// The first bytes, so many of them.
    pub(crate) fn front(&self, len: usize) -> Text<'a>
        requires { len ≤ length (text_of self.now) }
        ensures { text_of result ≡ take len (text_of self.now) }
    {
        if len <= self.line.len() {
            Text {
                line: &self.line[..len],
                later: self.later,
                more: 0,
            }
        } else {
            Text {
                line: self.line,
                later: self.later,
                more: len - self.line.len(),
            }
        }
    }
}
