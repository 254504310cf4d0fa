//! The lines of LIST of the global zone.
ghost use Rattle.std.specs.List.{flat_map};
ghost use Rattle.machine.specs.Outcome.{list_global};
ghost use Rattle.machine.specs.Report.{line_text};
ghost use Rattle.report.specs.Paged.{Paged};

use crate::line_words::{HOLD_WIDTH, LineWord, TYPE_WIDTH, print_words};
use crate::page::Page;
use crate::sink::Sink;
use fields::spelling::{hold_text, kind_text};
use sysmods::GlobalZone;

/// Puts LIST's lines of a global zone: its SYSMODs and its holds.
pub(crate) fn print_global<W: Sink>(global: &GlobalZone, page: &mut Page<'_, W>)
    ensures { Paged W.Sink page.old page.new (flat_map line_text (list_global global.now)) }
{
    for sysmod in global.sysmods() {
        let words = [
            LineWord::Text(sysmod.id.as_bytes()),
            LineWord::Left(TYPE_WIDTH, kind_text(sysmod.kind)),
            LineWord::Text(b"SOURCEID"),
            LineWord::Sources(sysmod.sources.as_slice()),
        ];
        print_words(b"SYSMOD", &words, page);
    }
    for hold in global.holds() {
        let words = [
            LineWord::Text(hold.id.as_bytes()),
            LineWord::Left(HOLD_WIDTH, hold_text(hold.kind)),
            LineWord::Text(hold.reason.as_bytes()),
            LineWord::If(hold.internal, b"INTERNAL", b"EXTERNAL"),
        ];
        print_words(b"HOLD", &words, page);
    }
}
