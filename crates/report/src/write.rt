//! The text of an outcome.
ghost use Rattle.std.specs.Prelude.{◌≡◌, ◌<◌, ◌≤◌, map, length, is_err, IfOk};
ghost use Rattle.std.specs.List.{flat_map};
ghost use Rattle.machine.specs.Outcome.{line_code, lines_code, outcome_code, Control};
ghost use Rattle.machine.specs.Report.{line_text, code_text, text};
ghost use Rattle.report.specs.Paged.{Paged};
ghost use Rattle.report.specs.Sent.{Sent};
ghost use Rattle.report.specs.Views.{line_view, outcome_view};

use crate::global_lines::print_global;
use crate::line_words::{LineWord, print_words};
use crate::lines::{print_header, print_line, print_refusal};
use crate::outcome::{Outcome, ReportLine, Status};
use crate::page::Page;
use crate::sink::{Sink, WriteFault};
use crate::zone_lines::print_zone;
use fields::spelling::command_code_text;
use terms::IdRefusal;

// The return code of a line for what was done, and of a LIST.
const DONE_CODE: u8 = 0;

// The return code of a line that warns.
const WARNING_CODE: u8 = 4;

// The return code of a line for what could not be done.
const FAILED_CODE: u8 = 8;

// The return code of a refused command or command file.
const REFUSED_CODE: u8 = 12;

/// The return code of a line: 0, 4 if it warns, or 8 if it tells of a failure.
pub fn line_code(line: &ReportLine) -> u8
    ensures code { result ≡ line_code (line_view line.now) }
    ensures most { result ≤ 12 }
{
    match line {
        ReportLine::Nothing | ReportLine::Errsysmod { .. } => WARNING_CODE,
        ReportLine::Status { status, .. } => match status {
            Status::Already
            | Status::Unknown
            | Status::Refused(IdRefusal::NoHold | IdRefusal::Internal) => WARNING_CODE,
            Status::Refused(_)
            | Status::Failed(_)
            | Status::Deleted
            | Status::Missing
            | Status::NoVer
            | Status::NotApplied => FAILED_CODE,
            _ => DONE_CODE,
        },
    }
}

// Puts lines on the page, and returns the greatest of their codes, or 0 if there are none.
fn print_lines<W: Sink>(lines: &[ReportLine], page: &mut Page<'_, W>) -> u8
    ensures paged { Paged W.Sink page.old page.new (flat_map line_text (map line_view lines.now)) }
    ensures code { result ≡ lines_code (map line_view lines.now) }
    ensures most { result ≤ 12 }
{
    let mut code: u8 = 0;
    for line in lines {
        print_line(line, page);
        code = code.max(line_code(line));
    }
    code
}

// Puts the last line of a report on the page: `RC` and the return code in two digits.
fn print_code<W: Sink>(code: u8, page: &mut Page<'_, W>)
    requires { code ≤ 12 }
    ensures paged { Paged W.Sink page.old page.new (code_text code) }
    ensures some { 0 < length page.new.waiting.items }
{
    page.print(&[b'R', b'C', b' ', b'0' + code / 10, b'0' + code % 10, b'\n']);
}

// Puts the text of an outcome on the page, and returns its return code.
fn print_outcome<W: Sink>(outcome: &Outcome<'_>, page: &mut Page<'_, W>) -> u8
    ensures paged { Paged W.Sink page.old page.new (text (outcome_view outcome.now)) }
    ensures some { 0 < length page.new.waiting.items }
    ensures code { result ≡ outcome_code (outcome_view outcome.now) }
{
    match outcome {
        Outcome::Ran { header, lines } => {
            print_header(header, page);
            let code = print_lines(lines, page);
            print_code(code, page);
            code
        }
        Outcome::ListedGlobal { header, global } => {
            print_header(header, page);
            print_global(global, page);
            print_code(DONE_CODE, page);
            DONE_CODE
        }
        Outcome::Listed { header, zone, text } => {
            print_header(header, page);
            print_zone(zone, *text, page);
            print_code(DONE_CODE, page);
            DONE_CODE
        }
        Outcome::Refused { header, refusal } => {
            print_header(header, page);
            print_refusal(refusal, page);
            print_code(REFUSED_CODE, page);
            REFUSED_CODE
        }
        Outcome::Control { number, code } => {
            let words = [
                LineWord::Text(b"RECORD"),
                LineWord::Number(*number),
                LineWord::Text(command_code_text(*code)),
            ];
            print_words(b"CONTROL", &words, page);
            REFUSED_CODE
        }
    }
}

/// Writes the text of an outcome and returns its return code. After an error a beginning of the text has gone out.
pub fn write_report<W: Sink>(outcome: &Outcome<'_>, w: &mut W) -> Result<u8, WriteFault>
    ensures sends { Sent W.Sink w.old w.new (text (outcome_view outcome.now)) }
    ensures fault { W.has_failed w.new ≡ is_err result }
    ensures code { IfOk result (λ code. code ≡ outcome_code (outcome_view outcome.now)) }
{
    let mut page = Page::new(w);
    let code = print_outcome(outcome, &mut page);
    page.flush().map(|()| code)
}
