//! A place in columns 1 to 72 of records.
ghost use Rattle.std.specs.Prelude.{◌≡◌, [], ◌∷◌, true, false, take, MatchOption, IfSome};
ghost use Rattle.terms.specs.Records.{front};
ghost use Rattle.rec80.specs.Cursors.{rest_of, IsAhead, text_of};

use crate::record_files::Record;
use crate::text::Text;

/// A place in columns 1 to 72 of records, which are joined by one blank: the rest of a line, and the later records.
#[derive(Clone, Copy, Debug)]
pub(crate) struct Cursor<'a> {
    pub line: &'a [u8],
    pub later: &'a [Record],
}

/// Columns 1 to 72, which hold the text of a record.
pub fn text_columns(card: &Record) -> &[u8]
    ensures { result.now ≡ front card.now }
{
    &card[..72]
}

impl<'a> Cursor<'a> {
    /// The next byte, and the place after it.
    pub fn next_byte(&self) -> Option<(u8, Cursor<'a>)>
        ensures text { MatchOption result (rest_of self.now ≡ []) (λ x. rest_of self.now ≡ x.0 ∷ rest_of x.1) }
        ensures ahead { IfSome result (λ x. IsAhead self.now x.1) }
    {
        if let Some((byte, line)) = self.line.split_first() {
            return Some((
                *byte,
                Cursor {
                    line,
                    later: self.later,
                },
            ));
        }
        let (card, later) = self.later.split_first()?;
        Some((
            b' ',
            Cursor {
                line: text_columns(card),
                later,
            },
        ))
    }

    /// Whether nothing follows.
    pub fn is_end(&self) -> bool
        ensures end { result ≡ true → rest_of self.now ≡ [] }
        ensures more { result ≡ false → rest_of self.now ≡ [] → ⊥ }
    {
        self.next_byte().is_none()
    }

    /// The text of so many bytes from here on, or of as many as there are.
    pub fn text(&self, len: usize) -> Text<'a>
        ensures { text_of result ≡ take len (rest_of self.now) }
    {
        if len <= self.line.len() {
            Text {
                line: &self.line[..len],
                later: self.later,
                more: 0,
            }
        } else {
            Text {
                line: self.line,
                later: self.later,
                more: len - self.line.len(),
            }
        }
    }
}
