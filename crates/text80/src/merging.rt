//! A numbered text after an update.
ghost use Rattle.std.specs.Prelude.{◌<◌, List, IfOk, IfSome, IfNone, All, slice_get};
ghost use Rattle.terms.specs.Texts.{IsMerge, IsNumberedLine};
ghost use Rattle.text80.specs.declared.control.Range.{Range as DeletedRange};
ghost use Rattle.text80.specs.Merging.{IsSplitBelow, StandsFirst, StandsNowhere, IsSwept};

use crate::control::Range;
use crate::line::Line;
use crate::numbered::Numbered;
use crate::update::Update;
use std::alloc::{AllocError, Global};

/// The text after the update. At each number that the update gives it has the update's record, at the other numbers
/// that the update deletes it has none, and elsewhere it has the old record.
pub fn merge(alloc: Global, old: &Numbered, update: &Update) -> Result<Numbered, AllocError>
    ensures { IfOk result (IsMerge old.now update.now) }
{
    let mut merged = Vec::new(alloc);
    let all_given = update.given_records(alloc)?;
    let mut given = all_given.lines();
    let mut ranges = update.ranges();
    let mut reach = 0;
    for line in old.lines() {
        let number = line.known_number();
        let (below, rest) = split_below(given, number);
        merged.extend_from_slice(below)?;
        let swept = sweep(ranges, reach, number);
        ranges = swept.0;
        reach = swept.1;
        let (same, more) = split_number(rest, number);
        given = more;
        match same {
            Some(first) => merged.push(*first)?,
            None if u64::from(number) < reach => {}
            None => merged.push(*line)?,
        }
    }
    merged.extend_from_slice(given)?;
    Ok(Numbered { lines: merged })
}

// The records below the number, and the rest.
fn split_below(lines: &[Line], number: u32) -> (&[Line], &[Line])
    requires { All IsNumberedLine lines.now }
    ensures { IsSplitBelow number lines.now result.0.now result.1.now }
{
    for (i, line) in lines.iter().enumerate() {
        if line.known_number() >= number {
            return lines.split_at(i);
        }
    }
    (lines, &[])
}

// The record of the number, if it comes first, and the remaining records.
fn split_number(lines: &[Line], number: u32) -> (Option<&Line>, &[Line])
    requires { All IsNumberedLine lines.now }
    ensures some { IfSome result.0 (λ line. StandsFirst number lines.now line.now result.1.now) }
    ensures none { IfNone result.0 (StandsNowhere number lines.now result.1.now) }
{
    match lines.split_first() {
        Some((first, more)) if first.known_number() == number => (Some(first), more),
        _ => (None, lines),
    }
}

// Passes the ranges that begin at or below the number. Returns the ranges that are left, and the new reach: the end of
// all ranges passed so far. The update deletes this or a later number if it is below the reach or in a range that is
// left.
fn sweep(ranges: &[Range], reach: u64, number: u32) -> (&[Range], u64)
    ensures swept { (all : List DeletedRange) → IsSwept all number ranges.now reach
        → IsSwept all number result.0.now result.1 }
    ensures above { IfSome (slice_get result.0.now 0) (λ range. number < range.low) }
{
    let mut end = reach;
    for (i, range) in ranges.iter().enumerate() {
        if range.low > number {
            let (_, left) = ranges.split_at(i);
            return (left, end);
        }
        end = end.max(u64::from(range.high) + 1);
    }
    (&[], end)
}
