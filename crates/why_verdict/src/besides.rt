//! The lines of a candidate's requisites and holds: which other candidates supply them, and which ones BYPASS covers.
ghost use Rattle.std.specs.Prelude.{◌≡◌, ◌++◌, ◌∷◌, [], map, option_map, OnOk};
ghost use Rattle.std.specs.List.{flat_map};
ghost use Rattle.std.specs.String.{string_bytes};
ghost use Rattle.machine.specs.Report.{optional_text};
ghost use Rattle.report.specs.Views.{line_view, status_view};
ghost use Rattle.report.specs.Facts.{RequisiteFact, HoldFact};
ghost use Rattle.report.specs.FactViews.{resolution_view, fact_view};
ghost use Rattle.why_verdict.specs.Verdict.{is_candidate, supply_by, supply_of, supply_told, is_lacking};
ghost use Rattle.why_verdict.specs.Verdict.{bypassed_told, besides_told};
ghost use Rattle.why_verdict.specs.VerdictFacts.{basis_of};

use crate::indent::INDENT;
use crate::verdict::verdict_word;
use crate::verdict_facts::VerdictFacts;
use fields::spelling::{hold_text, need_text};
use fields::{Bypass, Id};
use report::{
    Fact, LineWord, ReportLine, Requisite, Resolution, Status, append_words, class_or_dash,
    date_or_dash,
};
use std::alloc::AllocError;
use sysmods_values::Hold;
use terms::NeedKind;
use zones::is_bypassed_hold;

// Whether the status is that of a candidate of APPLY or ACCEPT: installed, superseded or failed.
fn is_candidate(status: &Status) -> bool
    ensures { result ≡ is_candidate (status_view status.now) }
{
    matches!(
        status,
        Status::Applied | Status::Accepted | Status::Superseded | Status::Failed(_)
    )
}

// Appends what would become of the SYSMOD `by`, which would supply the requisite, if this is the line of `by` and `by`
// is a candidate.
fn append_supplier_line<'a>(
    kind: NeedKind,
    id: &'a [u8],
    by: &'a Id,
    line: &ReportLine,
    text: &mut Vec<u8>,
) -> Result<(), AllocError>
    ensures { OnOk result (text.new.items ≡ text.old.items ++ supply_by kind id.now by.now (line_view line.now)) }
{
    match line {
        ReportLine::Status {
            id: line_id,
            status,
            ..
        } => {
            let is_of_supplier = *by == *line_id && is_candidate(status);
            if !is_of_supplier {
                return Ok(());
            }
            let supply = LineWord::Text(b"SUPPLY");
            let kind = LineWord::Text(need_text(kind));
            let id = LineWord::WithColon(id);
            let by = LineWord::Text(by.as_bytes());
            let verdict = LineWord::Text(verdict_word(status));
            append_words(INDENT, &[supply, kind, id, by, verdict], text)
        }
        ReportLine::Nothing | ReportLine::Errsysmod { .. } => Ok(()),
    }
}

// Appends what would become of the SYSMOD `by`, which would supply the requisite, by each line of `by`.
fn append_supplier<'a>(
    kind: NeedKind,
    id: &'a [u8],
    by: &'a Id,
    lines: &[ReportLine],
    text: &mut Vec<u8>,
) -> Result<(), AllocError>
    ensures { OnOk result (text.new.items
        ≡ text.old.items ++ flat_map (supply_by kind id.now by.now) (map line_view lines.now)) }
{
    for line in lines {
        append_supplier_line(kind, id, by, line, text)?;
    }
    Ok(())
}

// Appends what would become of the SYSMODs that would supply the requisite.
fn append_suppliers<'a>(
    kind: NeedKind,
    id: &'a [u8],
    ids: &'a [Id],
    lines: &[ReportLine],
    text: &mut Vec<u8>,
) -> Result<(), AllocError>
    ensures { OnOk result (text.new.items ≡ text.old.items
        ++ flat_map (λ y. flat_map (supply_by kind id.now y) (map line_view lines.now)) ids.now) }
{
    for by in ids {
        append_supplier(kind, id, by, lines, text)?;
    }
    Ok(())
}

// Appends what would become of the SYSMODs that would supply the requisite, if it is open.
fn append_suppliers_if_open<'a>(
    kind: NeedKind,
    id: &'a [u8],
    resolution: &'a Resolution,
    lines: &[ReportLine],
    text: &mut Vec<u8>,
) -> Result<(), AllocError>
    ensures { OnOk result (text.new.items ≡ text.old.items
        ++ supply_of (map line_view lines.now) kind id.now (resolution_view resolution.now)) }
{
    match resolution {
        Resolution::Open(ids) => append_suppliers(kind, id, ids.as_slice(), lines, text),
        _ => Ok(()),
    }
}

// Appends what would become of the SYSMODs that would supply the requisite, or resolve the ERROR hold, of this fact.
fn append_suppliers_of_fact(
    fact: &Fact<'_>,
    lines: &[ReportLine],
    text: &mut Vec<u8>,
) -> Result<(), AllocError>
    ensures { OnOk result (text.new.items
        ≡ text.old.items ++ supply_told (map line_view lines.now) (fact_view fact.now)) }
{
    match fact {
        Fact::Requisite {
            requisite,
            resolution,
        } => append_suppliers_if_open(
            requisite.kind,
            requisite.id.as_bytes(),
            resolution,
            lines,
            text,
        ),
        Fact::Hold { hold, resolution } => match resolution {
            Some(resolution) => append_suppliers_if_open(
                NeedKind::HoldError,
                hold.reason.as_bytes(),
                resolution,
                lines,
                text,
            ),
            None => Ok(()),
        },
        _ => Ok(()),
    }
}

// Whether no applied SYSMOD supplies the requisite.
fn is_unsupplied(resolution: &Resolution) -> bool
    ensures { result ≡ is_lacking (resolution_view resolution.now) }
{
    match resolution {
        Resolution::Supplied(_) => false,
        _ => true,
    }
}

// Appends the line of a requisite that BYPASS covers, if no applied SYSMOD supplies it.
fn append_bypassed_requisite(
    bypass: &Bypass,
    requisite: &Requisite,
    resolution: &Resolution,
    text: &mut Vec<u8>,
) -> Result<(), AllocError>
    ensures { OnOk result (text.new.items ≡ text.old.items
        ++ bypassed_told bypass.now (RequisiteFact requisite.now (resolution_view resolution.now))) }
{
    let is_bypassed = bypass.covers(requisite.kind) && is_unsupplied(resolution);
    if !is_bypassed {
        return Ok(());
    }
    let bypassed = LineWord::Text(b"BYPASSED");
    let kind = LineWord::Text(need_text(requisite.kind));
    let id = LineWord::Text(requisite.id.as_bytes());
    append_words(INDENT, &[bypassed, kind, id], text)
}

// The comment of a hold, or `-`.
fn comment_or_dash(comment: &Option<String>) -> &[u8]
    ensures { result.now ≡ optional_text (option_map string_bytes comment.now) }
{
    match comment {
        Some(comment) => comment.as_bytes(),
        None => b"-",
    }
}

// Appends the line of a hold, if BYPASS covers the hold.
fn append_bypassed_hold(
    bypass: &Bypass,
    hold: &Hold,
    resolution: &Option<Resolution>,
    text: &mut Vec<u8>,
) -> Result<(), AllocError>
    ensures { OnOk result (text.new.items ≡ text.old.items
        ++ bypassed_told bypass.now (HoldFact hold.now (option_map resolution_view resolution.now))) }
{
    if !is_bypassed_hold(bypass, hold) {
        return Ok(());
    }
    let bypassed = LineWord::Text(b"BYPASSED");
    let kind = LineWord::Text(hold_text(hold.kind));
    let hold_word = LineWord::Text(b"hold");
    let reason = LineWord::Text(hold.reason.as_bytes());
    let (class_word, date_word) = (LineWord::Text(b"CLASS"), LineWord::Text(b"DATE"));
    let class = LineWord::Text(class_or_dash(&hold.class));
    let date = LineWord::Text(date_or_dash(&hold.date));
    let comment_word = LineWord::Text(b"COMMENT");
    let comment = LineWord::Text(comment_or_dash(&hold.comment));
    let words = [
        bypassed,
        kind,
        hold_word,
        reason,
        class_word,
        class,
        date_word,
        date,
        comment_word,
        comment,
    ];
    append_words(INDENT, &words, text)
}

// Appends the line of this fact, if it is a requisite or a hold that BYPASS covers.
fn append_bypassed_fact(
    bypass: &Bypass,
    fact: &Fact<'_>,
    text: &mut Vec<u8>,
) -> Result<(), AllocError>
    ensures { OnOk result (text.new.items ≡ text.old.items ++ bypassed_told bypass.now (fact_view fact.now)) }
{
    match fact {
        Fact::Requisite {
            requisite,
            resolution,
        } => append_bypassed_requisite(bypass, requisite, resolution, text),
        Fact::Hold { hold, resolution } => append_bypassed_hold(bypass, hold, resolution, text),
        _ => Ok(()),
    }
}

// Appends what would become of the SYSMODs that would supply the requisites, or resolve the ERROR holds, of these
// facts.
fn append_suppliers_of_facts(
    facts: &[Fact<'_>],
    lines: &[ReportLine],
    text: &mut Vec<u8>,
) -> Result<(), AllocError>
    ensures { OnOk result (text.new.items ≡ text.old.items
        ++ flat_map (supply_told (map line_view lines.now)) (map fact_view facts.now)) }
{
    for fact in facts {
        append_suppliers_of_fact(fact, lines, text)?;
    }
    Ok(())
}

// Appends the lines of the requisites and the holds that BYPASS covers.
fn append_bypassed_facts(
    bypass: &Bypass,
    facts: &[Fact<'_>],
    text: &mut Vec<u8>,
) -> Result<(), AllocError>
    ensures { OnOk result (text.new.items
        ≡ text.old.items ++ flat_map (bypassed_told bypass.now) (map fact_view facts.now)) }
{
    for fact in facts {
        append_bypassed_fact(bypass, fact, text)?;
    }
    Ok(())
}

/// Appends which other candidates would supply the requisites of a candidate, and what BYPASS covers.
pub(crate) fn append_suppliers_and_bypassed(
    verdict_facts: &VerdictFacts<'_, '_>,
    status: &Status,
    text: &mut Vec<u8>,
) -> Result<(), AllocError>
    ensures { OnOk result (text.new.items
        ≡ text.old.items ++ besides_told (basis_of verdict_facts.now) (status_view status.now)) }
{
    if !is_candidate(status) {
        return Ok(());
    }
    append_suppliers_of_facts(verdict_facts.facts, verdict_facts.lines, text)?;
    append_bypassed_facts(verdict_facts.bypass, verdict_facts.facts, text)
}
