//! The summary of a run, which is printed.

use crate::options::IntakeOptions;
use crate::shown::append_shown;
use crate::summary_json::json_summary;
use intake_cards::{Deed, Remark, RemarkList, RemarkReason};
use intake_carry::{Narrowed, Tally, Unsure};
use std::alloc::{AllocError, Global};

/// At most so many SYSMODs that are left out have lines of their own.
const MOST_LEFT_OUT_LINES: usize = 20;

/// At most so many SYSMODs of which it is not sure that they can be installed have lines of their own.
const MOST_UNSURE_LINES: usize = 20;

/// How many remarks have a deed and a reason.
#[derive(Drop)]
pub(crate) struct RemarkCount {
    pub(crate) deed: Deed,
    pub(crate) reason: RemarkReason,
    pub(crate) count: usize,
}

/// How many remarks have each deed and reason, in the order in which these first occur.
pub(crate) fn remark_counts(
    alloc: Global,
    remarks: &RemarkList,
) -> Result<Vec<RemarkCount>, AllocError> {
    let mut all: Vec<RemarkCount> = Vec::new(alloc);
    for place in 0..remarks.len() {
        if let Some(remark) = remarks.get(place) {
            count_remark(&mut all, &remark)?;
        }
    }
    Ok(all)
}

// Appends a line for each deed and reason, with the number of remarks that have them.
fn append_remark_counts(
    alloc: Global,
    remarks: &RemarkList,
    lines: &mut Vec<u8>,
) -> Result<(), AllocError> {
    for entry in &remark_counts(alloc, remarks)? {
        let count = entry.count;
        let deed = entry.deed.words();
        let reason = entry.reason.words();
        let line = format!(in alloc; "REMARK  {count:>7} {deed}: {reason}\n")?;
        lines.extend_from_slice(line.as_bytes())?;
    }
    Ok(())
}

// Counts the remark among those of its deed and reason.
fn count_remark(all: &mut Vec<RemarkCount>, remark: &Remark<'_>) -> Result<(), AllocError> {
    for entry in all.iter_mut() {
        if entry.deed == remark.deed && entry.reason == remark.reason {
            entry.count = entry.count.saturating_add(1);
            return Ok(());
        }
    }
    all.push(RemarkCount {
        deed: remark.deed,
        reason: remark.reason,
        count: 1,
    })?;
    Ok(())
}

/// Whether the remark says that its SYSMOD is left out.
pub(crate) fn is_of_left_out_sysmod(remark: &Remark<'_>) -> bool {
    matches!(
        remark.reason,
        RemarkReason::WholeSysmod | RemarkReason::OtherCopy
    )
}

/// The remark that says why a SYSMOD is left out. `header`, which is at this place, is on the whole SYSMOD. The cause
/// is the first remark that leaves one of its statements out, or else `header` itself.
pub(crate) fn cause_of<'a>(
    remarks: &'a RemarkList,
    place: usize,
    header: Remark<'a>,
) -> Remark<'a> {
    if header.reason != RemarkReason::WholeSysmod {
        return header;
    }
    let mut cause = header;
    for before in (0..place).rev() {
        let Some(remark) = remarks.get(before) else {
            return cause;
        };
        if remark.place.file != header.place.file || remark.place.card < header.place.card {
            return cause;
        }
        if remark.reason == RemarkReason::StatementInComment {
            return cause;
        }
        if remark.deed == Deed::LeftOut && remark.reason != RemarkReason::Fixcat {
            cause = remark;
        }
    }
    cause
}

/// The cause in words: its statement, its reason and its text.
pub(crate) fn cause_text(alloc: Global, cause: &Remark<'_>) -> Result<Vec<u8>, AllocError> {
    let mut text = cause.subject_text(alloc)?;
    if !text.is_empty() {
        text.extend_from_slice(b": ")?;
    }
    text.extend_from_slice(cause.reason.words().as_bytes())?;
    if !cause.text.is_empty() {
        text.extend_from_slice(b": ")?;
        text.extend_from_slice(cause.text)?;
    }
    Ok(text)
}

// Appends a line for each SYSMOD that is left out, with its first cause, and after `MOST_LEFT_OUT_LINES` one for all
// others.
fn append_left_out_lines(
    alloc: Global,
    remarks: &RemarkList,
    lines: &mut Vec<u8>,
) -> Result<(), AllocError> {
    let mut count = 0usize;
    for place in 0..remarks.len() {
        let Some(remark) = remarks.get(place) else {
            continue;
        };
        if !is_of_left_out_sysmod(&remark) {
            continue;
        }
        count = count.saturating_add(1);
        if count <= MOST_LEFT_OUT_LINES {
            let cause = cause_of(remarks, place, remark);
            append_left_out_line(alloc, &remark, &cause, lines)?;
        }
    }
    if count > MOST_LEFT_OUT_LINES {
        let more = count.saturating_sub(MOST_LEFT_OUT_LINES);
        let line = format!(in alloc; "LEFTOUT {more:>7} more, of which the remarks tell\n")?;
        lines.extend_from_slice(line.as_bytes())?;
    }
    Ok(())
}

// Appends the line for a SYSMOD that is left out.
fn append_left_out_line(
    alloc: Global,
    remark: &Remark<'_>,
    cause: &Remark<'_>,
    lines: &mut Vec<u8>,
) -> Result<(), AllocError> {
    lines.extend_from_slice(b"LEFTOUT ")?;
    if cause.statement != remark.statement || cause.id != remark.id {
        append_shown(lines, &remark.subject_text(alloc)?)?;
        lines.extend_from_slice(b": ")?;
    }
    append_shown(lines, cause_text(alloc, cause)?.trim_ascii_end())?;
    lines.push(b'\n')?;
    Ok(())
}

/// How many remarks have the reason.
pub(crate) fn count_with_reason(remarks: &RemarkList, reason: RemarkReason) -> usize {
    (0..remarks.len())
        .filter_map(|place| remarks.get(place))
        .filter(|remark| remark.reason == reason)
        .count()
}

// Appends a line with its label, the count and the text, unless the count is 0.
fn append_warning(
    alloc: Global,
    label: &str,
    count: usize,
    text: &str,
    lines: &mut Vec<u8>,
) -> Result<(), AllocError> {
    if count > 0 {
        let line = format!(in alloc; "{label:<7} {count:>7} {text}\n")?;
        lines.extend_from_slice(line.as_bytes())?;
    }
    Ok(())
}

/// The summary of a run over files, in lines or, for programs, in JSON.
pub fn service_summary(
    alloc: Global,
    asked: &IntakeOptions,
    narrowed: &Narrowed,
) -> Result<Vec<u8>, AllocError> {
    if asked.json {
        json_summary(alloc, narrowed)
    } else {
        text_summary(alloc, asked, narrowed)
    }
}

/// The summary of a run that writes a command file: how many commands are carried, and how many are not.
pub fn command_summary(
    alloc: Global,
    carried: usize,
    not_carried: usize,
    remarks: &RemarkList,
) -> Result<Vec<u8>, AllocError> {
    let line = format!(in alloc; "COMMAND {carried:>7} carried {not_carried:>7} not\n")?;
    let mut lines = line.into_bytes();
    append_remark_counts(alloc, remarks, &mut lines)?;
    Ok(lines)
}

/// The summary of a run that writes no command file because words of the shop's commands are refused.
pub fn refused_command_summary(alloc: Global, remarks: &RemarkList) -> Result<Vec<u8>, AllocError> {
    let mut lines = Vec::from_slice(
        alloc,
        b"COMMAND none is written: standard error says what is refused\n",
    )?;
    append_remark_counts(alloc, remarks, &mut lines)?;
    Ok(lines)
}

// The summary in lines: what is left out and why, what else matters, and then how much there is of each.
fn text_summary(
    alloc: Global,
    asked: &IntakeOptions,
    narrowed: &Narrowed,
) -> Result<Vec<u8>, AllocError> {
    let remarks = &narrowed.remarks;
    let mut lines = Vec::new(alloc);
    append_left_out_lines(alloc, remarks, &mut lines)?;
    append_unsure_lines(alloc, &narrowed.unsure, &mut lines)?;
    append_warnings(alloc, narrowed, &mut lines)?;
    if asked.decide {
        append_check_line(alloc, narrowed, &mut lines)?;
    }
    append_tally(alloc, "SYSMOD", narrowed.sysmods, &mut lines)?;
    append_tally(alloc, "HOLD", narrowed.holds, &mut lines)?;
    append_tally(alloc, "RELEASE", narrowed.releases, &mut lines)?;
    append_tally(alloc, "ASSIGN", narrowed.assigns, &mut lines)?;
    append_remark_counts(alloc, remarks, &mut lines)?;
    Ok(lines)
}

// Appends a line for each SYSMOD of which it is not sure that it can be installed, and after `MOST_UNSURE_LINES` one
// for all others.
fn append_unsure_lines(
    alloc: Global,
    unsure: &[Unsure],
    lines: &mut Vec<u8>,
) -> Result<(), AllocError> {
    for sysmod in unsure.iter().take(MOST_UNSURE_LINES) {
        lines.extend_from_slice(b"UNSURE ")?;
        lines.extend_from_slice(sysmod.id.as_bytes())?;
        lines.extend_from_slice(b": ")?;
        append_shown(lines, sysmod.reason.as_slice())?;
        lines.push(b'\n')?;
    }
    if unsure.len() > MOST_UNSURE_LINES {
        let more = unsure.len().saturating_sub(MOST_UNSURE_LINES);
        let line = format!(in alloc; "UNSURE  {more:>7} more\n")?;
        lines.extend_from_slice(line.as_bytes())?;
    }
    Ok(())
}

// Appends warnings about holds that moved, about statements in comments, and about SYSMODs that are left out and would
// forbid others.
fn append_warnings(
    alloc: Global,
    narrowed: &Narrowed,
    lines: &mut Vec<u8>,
) -> Result<(), AllocError> {
    let remarks = &narrowed.remarks;
    let outside = count_with_reason(remarks, RemarkReason::HeldOutside);
    let held =
        "of SYSMODs stand in the hold file: they are on others, or the SYSMOD is not carried";
    append_warning(alloc, "HELD", outside, held, lines)?;
    let swallowed = count_with_reason(remarks, RemarkReason::StatementInComment);
    let commented = "statements stand in a comment: is it closed where it should be?";
    append_warning(alloc, "COMMENT", swallowed, commented, lines)?;
    let forbids = "left out have elements, NPRE or DELETE, which nothing asks for now";
    append_warning(alloc, "FORBIDS", narrowed.forbidding, forbids, lines)
}

// Appends how many SYSMODs have stand-ins, and that the files are only for CHECK. If elements are passed over, CHECK
// must have all of the files together.
fn append_check_line(
    alloc: Global,
    narrowed: &Narrowed,
    lines: &mut Vec<u8>,
) -> Result<(), AllocError> {
    let stand_ins = narrowed.stand_ins;
    let passed_over = count_with_reason(&narrowed.remarks, RemarkReason::PassedOver);
    let text = if passed_over > 0 {
        "these files are for CHECK, all of them together"
    } else {
        "these files are for CHECK"
    };
    let line = format!(in alloc; "CHECK   {stand_ins:>7} have stand-ins: {text}\n")?;
    lines.extend_from_slice(line.as_bytes())
}

// Appends a line with its label and how many statements were carried and left out.
fn append_tally(
    alloc: Global,
    label: &str,
    tally: Tally,
    lines: &mut Vec<u8>,
) -> Result<(), AllocError> {
    let carried = tally.carried;
    let left_out = tally.left_out;
    let line = format!(in alloc; "{label:<7} {carried:>7} carried {left_out:>7} left out\n")?;
    lines.extend_from_slice(line.as_bytes())
}
