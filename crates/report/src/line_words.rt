//! Words, and lines that consist of them, on a page or in a text.
ghost use Rattle.std.specs.Prelude.{◌≡◌, ◌<◌, ◌∷◌, ◌++◌, length, map, is_err, OnOk};
ghost use Rattle.machine.specs.Report.{words_line, list_text};
ghost use Rattle.report.specs.Paged.{Paged};
ghost use Rattle.report.specs.Sent.{Sent};
ghost use Rattle.report.specs.Views.{applied_word};
ghost use Rattle.report.specs.WordTexts.{word_text, applied_text};

use crate::page::Page;
use crate::sink::{Out, Sink, WriteFault};
use fields::{Id, Source};
use itoa::Buffer;
use std::alloc::AllocError;
use terms::ZoneKind;
use zones::Applied;

/// The width of the type of a SYSMOD in a line.
pub const TYPE_WIDTH: usize = 8;

/// The width of the kind of a hold in a line.
pub const HOLD_WIDTH: usize = 6;

/// The width of the type of an element in a line.
pub const ELEM_TYPE_WIDTH: usize = 5;

/// The width of the name of an element in a line.
pub const NAME_WIDTH: usize = 8;

/// A word of a line.
#[derive(Clone, Copy)]
pub enum LineWord<'a> {
    Text(&'a [u8]),
    /// Followed by a colon.
    WithColon(&'a [u8]),
    /// The word, or `-`.
    Optional(Option<&'a [u8]>),
    /// The first word if the condition holds, otherwise the second.
    If(bool, &'static [u8], &'static [u8]),
    /// Left-aligned, and padded with blanks to this many characters.
    Left(usize, &'a [u8]),
    Number(usize),
    /// Joined by commas, or `-`.
    Ids(&'a [Id]),
    /// Joined by commas, or `-`.
    Sources(&'a [Source]),
    /// APPLIED or ACCEPTED with the date, or `-`.
    Applied(ZoneKind, &'a Option<Applied>),
}

// Puts ids on the page, joined by commas, or `-` if there are none.
fn print_ids<W: Sink>(ids: &[Id], page: &mut Page<'_, W>)
    ensures { Paged W.Sink page.old page.new (list_text ids.now) }
{
    let Some((first, rest)) = ids.split_first() else {
        page.print(b"-");
        return;
    };
    page.print(first.as_bytes());
    for id in rest {
        page.print(b",");
        page.print(id.as_bytes());
    }
}

// Puts sources on the page, joined by commas, or `-` if there are none.
fn print_sources<W: Sink>(sources: &[Source], page: &mut Page<'_, W>)
    ensures { Paged W.Sink page.old page.new (list_text sources.now) }
{
    let Some((first, rest)) = sources.split_first() else {
        page.print(b"-");
        return;
    };
    page.print(first.as_bytes());
    for source in rest {
        page.print(b",");
        page.print(source.as_bytes());
    }
}

/// The word for an applied SYSMOD: in a distribution zone it is accepted.
pub fn applied_word(kind: ZoneKind) -> &'static [u8]
    ensures { result.now ≡ applied_word kind }
{
    match kind {
        ZoneKind::Target => b"APPLIED",
        ZoneKind::Distribution => b"ACCEPTED",
    }
}

// Puts the word and the date of an applied SYSMOD on the page, or `-`.
fn print_applied<W: Sink>(kind: ZoneKind, applied: &Option<Applied>, page: &mut Page<'_, W>)
    ensures { Paged W.Sink page.old page.new (applied_text kind applied.now) }
{
    match applied {
        Some(applied) => {
            page.print(applied_word(kind));
            page.print(b" ");
            page.print(applied.date.as_bytes());
        }
        None => page.print(b"-"),
    }
}

// Puts the text of a word on the page.
fn print_word<W: Sink>(word: LineWord<'_>, page: &mut Page<'_, W>)
    ensures { Paged W.Sink page.old page.new (word_text word.entry) }
{
    match word {
        LineWord::Text(text) | LineWord::Optional(Some(text)) => page.print(text),
        LineWord::WithColon(text) => {
            page.print(text);
            page.print(b":");
        }
        LineWord::Optional(None) => page.print(b"-"),
        LineWord::If(true, text, _) | LineWord::If(false, _, text) => page.print(text),
        LineWord::Left(places, text) => {
            page.print(text);
            for _place in 0..places.saturating_sub(text.len()) {
                page.print(b" ");
            }
        }
        LineWord::Number(number) => {
            let mut buffer = Buffer::new();
            page.print(buffer.format(number).as_bytes());
        }
        LineWord::Ids(ids) => print_ids(ids, page),
        LineWord::Sources(sources) => print_sources(sources, page),
        LineWord::Applied(kind, applied) => print_applied(kind, applied, page),
    }
}

/// Puts a line on the page: `start`, and each word after a blank. If `start` consists of blanks, the line is indented
/// by one more.
pub(crate) fn print_words<W: Sink>(start: &[u8], words: &[LineWord<'_>], page: &mut Page<'_, W>)
    ensures paged { Paged W.Sink page.old page.new (words_line (start.now ∷ map word_text words.now)) }
    ensures some { 0 < length page.new.waiting.items }
{
    page.print(start);
    for word in words {
        page.print(b" ");
        print_word(*word, page);
    }
    page.print(b"\n");
}

// Writes the line that `print_words` puts on a page. After an error a beginning of it has gone out.
fn write_words<W: Sink>(start: &[u8], words: &[LineWord<'_>], w: &mut W) -> Result<(), WriteFault>
    ensures sends { Sent W.Sink w.old w.new (words_line (start.now ∷ map word_text words.now)) }
    ensures fault { W.has_failed w.new ≡ is_err result }
{
    let mut page = Page::new(w);
    print_words(start, words, &mut page);
    page.flush()
}

/// Appends to a text the line that `print_words` puts on a page.
pub fn append_words(
    start: &[u8],
    words: &[LineWord<'_>],
    text: &mut Vec<u8>,
) -> Result<(), AllocError>
    ensures { OnOk result (text.new.items ≡ text.old.items ++ words_line (start.now ∷ map word_text words.now)) }
{
    let mut line = Out::new(Vec::new(*text.allocator()));
    if write_words(start, words, &mut line).is_err() {
        return Err(AllocError);
    }
    text.extend_from_slice(line.writer().as_slice())?;
    Ok(())
}
