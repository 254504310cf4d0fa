//! Updates of numbered texts.
ghost use Rattle.std.specs.Prelude.{◌≡◌, ℕ, List, IfOk, IfErr};
ghost use Rattle.std.specs.List.Sorted.{IsNonDecreasingBy};
ghost use Rattle.terms.specs.Texts.{given as given_of, IsUpdate, IsUpdateFault};
ghost use Rattle.text80.specs.Ranges.{AreRangesOf};
ghost use Rattle.text80.specs.Updates.{AreGood, IsUpdateError, IsRestError, StandsBefore};

use crate::control::{Range, changed_name, deleted_range};
use crate::error::TextError;
use crate::line::Line;
use crate::numbered::{Numbered, rising_number};
use std::alloc::{AllocError, Global};
use std::marker::Model;
use terms::{TextCode, TextFault};

/// An update of a numbered text: all its records in their order, and what they delete.
#[derive(Debug, Drop)]
pub struct Update {
    records: Vec<Line>,
    ranges: Vec<Range>,
}

impl Model for Update {
    ghost use Rattle.std.specs.Prelude.{List, ℕ};
    ghost use Rattle.text80.specs.Updates.{IsSound};

    ghost Value = { List (List ℕ) };

    ghost view = { λ u. u.records.items };

    ghost invariant = { λ u. IsSound u.records.items u.ranges.items };
}

impl Update {
    /// The records, with CHANGE, as an update of the element of this name. Returns `Memory` if memory runs out. `Fault`
    /// names the first bad record, counted from 1. It is `NoChangeRecord` if the first record is not a CHANGE or there
    /// are no records, and `OtherElement` if the first record names another element. After that it is `NoNumber` if a
    /// record has no number, `BadDelete` if a `./` record is not a DELETE, and `UpdateOutOfOrder` if a number does not
    /// rise.
    pub fn read(alloc: Global, records: Vec<Line>, name: &[u8]) -> Result<Update, TextError>
        ensures update { IfOk result (λ update. (update ≡ records.items) × IsUpdate name.now records.items) }
        ensures fault { IfErr result (IsUpdateError name.now records.items) }
    {
        let rest = records_after_change(&records, name)?;
        let ranges = ranges_of(alloc, rest)?;
        Ok(Update { records, ranges })
    }

    /// All records, from CHANGE on.
    pub fn records(&self) -> &[Line]
        ensures records { result.now ≡ self.now }
        ensures update { (name : List ℕ) × IsUpdate name self.now }
    {
        &self.records
    }

    /// A copy of the records that the update gives.
    pub fn given_records(&self, alloc: Global) -> Result<Numbered, AllocError>
        ensures { IfOk result (λ given. given ≡ given_of self.now) }
    {
        let mut given = Vec::new(alloc);
        for line in self.records.iter() {
            if !line.is_control() {
                given.push(*line)?;
            }
        }
        Ok(Numbered { lines: given })
    }

    /// The ranges that the update deletes, by their lower numbers. They may overlap.
    pub fn ranges(&self) -> &[Range]
        ensures rising { IsNonDecreasingBy (λ r. r.low) result.now }
        ensures ranges { AreRangesOf self.now result.now }
    {
        &self.ranges
    }
}

impl Clone for Update {
    ghost is_clone = { λ update copy. copy ≡ update };

    fn clone(&self) -> Result<Update, AllocError> {
        let records = self.records.clone()?;
        let ranges = self.ranges.clone()?;
        Ok(Update { records, ranges })
    }
}

// The records after the first, which must be a CHANGE record of this name.
fn records_after_change<'a>(records: &'a [Line], name: &[u8]) -> Result<&'a [Line], TextFault>
    ensures rest { IfOk result (λ rest. StandsBefore name.now records.now rest.now) }
    ensures fault { IfErr result (IsUpdateFault name.now records.now) }
{
    let code = match records.split_first() {
        None => TextCode::NoChangeRecord,
        Some((first, rest)) => match changed_name(first) {
            None => TextCode::NoChangeRecord,
            Some(found) if found != name => TextCode::OtherElement,
            Some(_) => return Ok(rest),
        },
    };
    Err(TextFault { number: 1, code })
}

// The ranges that the records after the CHANGE record delete. These records count from 2.
fn ranges_of(alloc: Global, lines: &[Line]) -> Result<Vec<Range>, TextError>
    ensures good { IfOk result (λ ranges. AreGood lines.now ranges.items) }
    ensures fault { IfErr result (IsRestError lines.now) }
{
    let mut ranges = Vec::new(alloc);
    let mut least = 0;
    for (i, line) in lines.iter().enumerate() {
        let number = i + 2;
        if line.is_control() {
            match deleted_range(line) {
                Some(range) => ranges.push(range)?,
                None => {
                    let code = TextCode::BadDelete;
                    return Err(TextError::Fault(TextFault { number, code }));
                }
            }
        } else {
            match rising_number(line, least, TextCode::UpdateOutOfOrder) {
                Ok(found) => least = found + 1,
                Err(code) => return Err(TextError::Fault(TextFault { number, code })),
            }
        }
    }
    ranges.sort_unstable_by_key(|range| range.low);
    Ok(ranges)
}
