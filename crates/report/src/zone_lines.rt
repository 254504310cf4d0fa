//! The lines of LIST of a target or distribution zone.
ghost use Rattle.std.specs.Prelude.{◌≡◌, ◌∷◌, codes, map};
ghost use Rattle.std.specs.List.{flat_map};
ghost use Rattle.machine.specs.Outcome.{element_lines, list_zone};
ghost use Rattle.machine.specs.Report.{words_line, entry_text, line_text};
ghost use Rattle.report.specs.Paged.{Paged};
ghost use Rattle.report.specs.WordTexts.{word_text};

use crate::line_words::{ELEM_TYPE_WIDTH, LineWord, NAME_WIDTH, print_words};
use crate::page::Page;
use crate::sink::Sink;
use fields::spelling::type_text;
use terms::ZoneKind;
use zones::{Element, Entry, Zone};

/// The words of LIST's line of an entry, after the first.
pub fn entry_words<'a>(kind: ZoneKind, entry: &'a Entry) -> [LineWord<'a>; 8]
    ensures { words_line (codes "ENTRY" ∷ map word_text result) ≡ entry_text kind entry.now }
{
    [
        LineWord::Text(entry.id.as_bytes()),
        LineWord::Applied(kind, &entry.applied),
        LineWord::Text(b"SUPBY"),
        LineWord::Ids(entry.supby.as_slice()),
        LineWord::Text(b"DELBY"),
        LineWord::Optional(entry.delby.as_ref().map(|id| id.as_bytes())),
        LineWord::Text(b"WAIVED"),
        LineWord::Ids(entry.waived.as_slice()),
    ]
}

// Puts the line of an element, and with TEXT its records.
fn print_element<W: Sink>(element: &Element, text: bool, page: &mut Page<'_, W>)
    ensures { Paged W.Sink page.old page.new (flat_map line_text (element_lines text element.now)) }
{
    let words = [
        LineWord::Left(ELEM_TYPE_WIDTH, type_text(element.elem_type)),
        LineWord::Left(NAME_WIDTH, element.name.as_bytes()),
        LineWord::Text(b"FMID"),
        LineWord::Text(element.fmid.as_bytes()),
        LineWord::Text(b"RMID"),
        LineWord::Text(element.rmid.as_bytes()),
        LineWord::Text(b"UMID"),
        LineWord::Ids(element.umids.as_slice()),
        LineWord::Text(b"DISTLIB"),
        LineWord::Text(element.distlib.as_bytes()),
        LineWord::Text(b"SYSLIB"),
        LineWord::Text(element.syslib.as_bytes()),
    ];
    print_words(b"ELEM", &words, page);
    if text {
        for record in element.text.as_slice() {
            print_words(b" ", &[LineWord::Text(record.bytes())], page);
        }
    }
}

/// Puts LIST's lines of a zone: its entries and its elements, and with TEXT their records.
pub(crate) fn print_zone<W: Sink>(zone: &Zone, text: bool, page: &mut Page<'_, W>)
    ensures { Paged W.Sink page.old page.new (flat_map line_text (list_zone text zone.now)) }
{
    for entry in zone.entries() {
        print_words(b"ENTRY", &entry_words(zone.kind(), entry), page);
    }
    for element in zone.elements() {
        print_element(element, text, page);
    }
}
