//! The statements of a PTFIN or hold file, each with its records.
ghost use Rattle.std.specs.Prelude.{◌≡◌, ◌<◌, ◌+◌, ◌^◌, not, false, [], ◌++◌, length, IfOk, IfSome, IfNone, IsErr};
ghost use Rattle.std.specs.Prelude.{IsTrue, ◌↔◌};
ghost use Rattle.std.specs.List.{prefix_len};
ghost use Rattle.terms.specs.Groups.{begins_statement, starts_outside, IsGroup, TakesGroup};

use crate::record_files::{Record, Records};
use thiserror::Error;

/// The first record of a file does not begin a statement.
#[derive(Clone, Copy, Debug, PartialEq, Eq, Error)]
#[error("the first record begins no statement")]
pub struct StartsOutside;

/// The records of one statement: the one that begins it, and those before the next statement. Its number counts from 1
/// in the file.
#[derive(Clone, Copy, Debug)]
pub struct Group<'a> {
    pub number: usize,
    pub records: &'a [Record],
}

/// The remaining statements, the first of which begins at record `number`.
#[derive(Clone, Copy, Debug)]
pub struct Groups<'a> {
    pub number: usize,
    pub rest: &'a [Record],
    ghost starts: { starts_outside rest.now ≡ false },
    ghost room: { number + length rest.now < 2 ^ 64 },
}

// Whether the record is the first of a statement, which begins with `++`.
fn begins_statement(card: &Record) -> bool
    ensures { result ≡ begins_statement card.now }
{
    card[0] == b'+' && card[1] == b'+'
}

// How many records come before the next statement.
fn continuing_len(records: &[Record]) -> usize
    ensures { result ≡ prefix_len (λ r. not (begins_statement r)) records.now }
{
    records
        .iter()
        .take_while(|card| !begins_statement(card))
        .count()
}

// The records of the first statement, and the rest.
fn split_group(records: &[Record]) -> (&[Record], &[Record])
    requires starts { starts_outside records.now ≡ false }
    requires some { 0 < length records.now }
    ensures cut { records.now ≡ result.0.now ++ result.1.now }
    ensures group { IsGroup result.0.now }
    ensures rest { starts_outside result.1.now ≡ false }
{
    records.split_at(1 + continuing_len(&records[1..]))
}

impl<'a> Records<'a> {
    /// Walks the statements of a PTFIN or hold file. Returns an error if the first record does not begin one.
    pub fn groups(&self) -> Result<Groups<'a>, StartsOutside>
        ensures ok { IfOk result (λ groups. (groups.number ≡ 1) × (groups.rest.now ≡ self.now.all.now)) }
        ensures outside { IsErr result ↔ IsTrue (starts_outside self.now.all.now) }
    {
        if let Some(card) = self.all.first()
            && !begins_statement(card)
        {
            return Err(StartsOutside);
        }
        Ok(Groups {
            number: 1,
            rest: self.all,
        })
    }
}

impl<'a> Groups<'a> {
    ghost use Rattle.rec80.specs.Views.{group_of};

    /// Takes the next statement, if there is one.
    pub fn next_group(&mut self) -> Option<Group<'a>>
        ensures group { IfSome result (λ g. TakesGroup self.old.number self.old.rest.now
            (group_of g) self.new.number self.new.rest.now) }
        ensures end { IfNone result (self.old.rest.now ≡ []) }
    {
        if self.rest.is_empty() {
            return None;
        }
        let (records, rest) = split_group(self.rest);
        let group = Group {
            number: self.number,
            records,
        };
        self.number += records.len();
        self.rest = rest;
        Some(group)
    }
}
