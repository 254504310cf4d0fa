//! The text of lines.
ghost use Rattle.std.specs.Prelude.{◌≡◌, ◌∷◌, [], codes, decimal, option_map};
ghost use Rattle.std.specs.List.{flat_map};
ghost use Rattle.terms.specs.Spelling.{statement_code_text, test_text, need_text};
ghost use Rattle.machine.specs.Outcome.{ErrsysmodLine};
ghost use Rattle.machine.specs.Report.{words_line, detail_line, header_text, refused_text, place_text, status_word};
ghost use Rattle.machine.specs.Report.{status_detail, failure_text, line_text, left_in};
ghost use Rattle.terms.specs.Lookups.{at_most_one};
ghost use Rattle.judge_system.specs.TestSets.{tests_of};
ghost use Rattle.report.specs.Paged.{Paged};
ghost use Rattle.judge_system.specs.Views.{failure_view};
ghost use Rattle.report.specs.Views.{header_view, refusal_view, place_view, status_view, line_view};

use crate::line_words::{LineWord, TYPE_WIDTH, print_words};
use crate::outcome::{Header, Place, Refusal, ReportLine, Status};
use crate::page::Page;
use crate::sink::Sink;
use fields::spelling::{
    hold_text, kind_text, need_text, refusal_text, statement_code_text, test_text, word_text,
};
use fields::{Id, Reason};
use judge_system::{Failure, TestSet};
use terms::StatementCode;

/// Puts the first line of a report: the command's word, its boundary or `-`, and CHECK if it only checks.
pub(crate) fn print_header<W: Sink>(header: &Header, page: &mut Page<'_, W>)
    ensures { Paged W.Sink page.old page.new (header_text (header_view header.now)) }
{
    let word = word_text(header.word);
    let zone = LineWord::Optional(header.boundary.as_ref().map(|name| name.as_bytes()));
    if header.check {
        print_words(word, &[zone, LineWord::Text(b"CHECK")], page);
        return;
    }
    print_words(word, &[zone], page);
}

// Puts the line of a command that is refused because its file has a fault: the record of the fault, and its code.
fn print_fault<W: Sink>(word: &[u8], number: usize, code: StatementCode, page: &mut Page<'_, W>)
    ensures { Paged W.Sink page.old page.new
        (words_line (codes "REFUSED" ∷ word.now ∷ codes "RECORD" ∷ decimal number ∷ statement_code_text code ∷ [])) }
{
    let words = [
        LineWord::Text(word),
        LineWord::Text(b"RECORD"),
        LineWord::Number(number),
        LineWord::Text(statement_code_text(code)),
    ];
    print_words(b"REFUSED", &words, page);
}

/// Puts the one line of a refused command.
pub(crate) fn print_refusal<W: Sink>(refusal: &Refusal, page: &mut Page<'_, W>)
    ensures { Paged W.Sink page.old page.new (refused_text (refusal_view refusal.now)) }
{
    match refusal {
        Refusal::NoBoundary => page.print(b"REFUSED Cm1\n"),
        Refusal::NoZone => page.print(b"REFUSED Cm2\n"),
        Refusal::WrongKind => page.print(b"REFUSED Cm3\n"),
        Refusal::BadPtfin { number, code } => print_fault(b"Cm4", *number, *code, page),
        Refusal::BadHoldFile { number, code } => print_fault(b"Cm5", *number, *code, page),
    }
}

// The text that follows the id in a status line: a type, the kind of a hold, or `-`.
fn place_text(place: &Place) -> &[u8]
    ensures { result.now ≡ place_text (place_view place.now) }
{
    match place {
        Place::Kind(kind) => kind_text(*kind),
        Place::Hold(kind) => hold_text(*kind),
        Place::NotReceived => b"-",
    }
}

/// The word that says what became of an id.
pub fn status_word(status: &Status) -> &'static [u8]
    ensures { result.now ≡ status_word (status_view status.now) }
{
    match status {
        Status::Received => b"RECEIVED",
        Status::Already => b"ALREADY",
        Status::Refused(_) => b"REFUSED",
        Status::Assigned(_) => b"ASSIGNED",
        Status::Unknown => b"UNKNOWN",
        Status::Held(_) => b"HELD",
        Status::Replaced(_) => b"REPLACED",
        Status::Released(_) => b"RELEASED",
        Status::Rejected => b"REJECTED",
        Status::Applied => b"APPLIED",
        Status::Accepted => b"ACCEPTED",
        Status::Superseded => b"SUPERSEDED",
        Status::Failed(_) => b"FAILED",
        Status::Deleted => b"DELETED",
        Status::Missing => b"MISSING",
        Status::NoVer => b"NOVER",
        Status::Restored => b"RESTORED",
        Status::NotApplied => b"NOTAPPLIED",
    }
}

// What follows the status word, if anything: why the id was refused, the source, or the reason of the hold.
fn status_detail(status: &Status) -> Option<&[u8]>
    ensures { at_most_one (option_map (λ t. t.now) result) ≡ status_detail (status_view status.now) }
{
    match status {
        Status::Refused(why) => Some(refusal_text(*why)),
        Status::Assigned(source) => Some(source.as_bytes()),
        Status::Held(reason) => Some(reason.as_bytes()),
        Status::Replaced(reason) => Some(reason.as_bytes()),
        Status::Released(reason) => Some(reason.as_bytes()),
        _ => None,
    }
}

// Puts a line for each test that was failed.
fn print_tests<W: Sink>(tests: TestSet, page: &mut Page<'_, W>)
    ensures { Paged W.Sink page.old page.new
        (flat_map (λ t. detail_line (codes "TEST" ∷ test_text t ∷ [])) (tests_of tests)) }
{
    for test in tests.iter() {
        print_words(b"  TEST", &[LineWord::Text(test_text(test))], page);
    }
}

// Puts the lines after FAILED: the failed tests, the open needs and the causers.
fn print_failure<W: Sink>(failure: &Failure, page: &mut Page<'_, W>)
    ensures { Paged W.Sink page.old page.new (failure_text (failure_view failure.now)) }
{
    print_tests(failure.tests, page);
    for need in failure.needs.as_slice() {
        let words = [
            LineWord::Text(need_text(need.kind)),
            LineWord::Text(need.id.as_bytes()),
        ];
        print_words(b"  NEED", &words, page);
    }
    for causer in failure.causers.as_slice() {
        print_words(b"  CAUSER", &[LineWord::Text(causer.as_bytes())], page);
    }
}

// Puts a status line, without the lines that belong to it.
fn print_status<'a, W: Sink>(id: Id, place: &'a Place, status: &'a Status, page: &mut Page<'_, W>)
    ensures { Paged W.Sink page.old page.new (words_line (id ∷ left_in 8 (place_text (place_view place.now))
        ∷ status_word (status_view status.now) ∷ status_detail (status_view status.now))) }
{
    let place = LineWord::Left(TYPE_WIDTH, place_text(place));
    let word = LineWord::Text(status_word(status));
    match status_detail(status) {
        Some(detail) => print_words(id.as_bytes(), &[place, word, LineWord::Text(detail)], page),
        None => print_words(id.as_bytes(), &[place, word], page),
    }
}

// Puts the line of an ERROR hold on an applied SYSMOD, and a `RESOLVER` line for each SYSMOD that resolves its reason,
// or a single one with `-` if there is none.
fn print_errsysmod<'a, W: Sink>(
    id: &'a Id,
    reason: &'a Reason,
    resolvers: &[Id],
    page: &mut Page<'_, W>,
)
    ensures { Paged W.Sink page.old page.new (line_text (ErrsysmodLine id.now reason.now resolvers.now)) }
{
    let words = [
        LineWord::Text(id.as_bytes()),
        LineWord::Text(reason.as_bytes()),
    ];
    print_words(b"ERRSYSMOD", &words, page);
    if resolvers.is_empty() {
        print_words(b"  RESOLVER", &[LineWord::Text(b"-")], page);
        return;
    }
    for resolver in resolvers {
        print_words(b"  RESOLVER", &[LineWord::Text(resolver.as_bytes())], page);
    }
}

/// Puts a line, with the lines that belong to it.
pub(crate) fn print_line<W: Sink>(line: &ReportLine, page: &mut Page<'_, W>)
    ensures { Paged W.Sink page.old page.new (line_text (line_view line.now)) }
{
    match line {
        ReportLine::Status { id, place, status } => {
            print_status(*id, place, status, page);
            if let Status::Failed(failure) = status {
                print_failure(failure, page);
            }
        }
        ReportLine::Nothing => page.print(b"NOTHING\n"),
        ReportLine::Errsysmod {
            id,
            reason,
            resolvers,
        } => print_errsysmod(id, reason, resolvers, page),
    }
}
