//! The candidates of a command, judged and numbered.
ghost use Rattle.std.specs.Prelude.{◌≡◌, All, Contains, IfOk, length};
ghost use Rattle.judge_system.specs.Judged.{HasParts, IsNumberedAs};

use crate::numbered::{eligible_flags, number_ids, numbered_system};
use crate::stated::{Assessment, RequisiteOf};
use crate::test_set::TestSet;
use fields::{Id, IdList};
use indexmap::IndexSet;
use solve::System;
use std::alloc::{AllocError, Global};
use sysmods::{KnownOvers, VerChoice};

/// The candidates of an APPLY, ACCEPT or RESTORE, judged. They are numbered in the order in which they are first seen.
/// A number is a place in each list that has an item for each candidate.
#[derive(Drop)]
pub struct Judged<'a> {
    /// Which candidates are eligible, and what each one needs, by their numbers.
    pub system: System,
    /// The id of each number.
    pub ids: IndexSet<Id>,
    /// The tests that each candidate fails.
    pub tests: Vec<TestSet>,
    /// Each need of the system by its ids, in the same order.
    pub needs: Vec<RequisiteOf>,
    /// The candidates with each of their requisites that BYPASS covers.
    pub bypassed: Vec<(Id, Id)>,
    /// The `++VER`s that count.
    pub vers: VerChoice<'a>,
    /// The pairs of ids that are known to be over each other.
    pub overs: KnownOvers,
}

impl<'a> Judged<'a> {
    /// Numbers the candidates and their assessment. It also returns an error if a `u32` cannot count the candidates.
    pub fn new(
        alloc: Global,
        ids: &IdList,
        assessment: Assessment,
        vers: VerChoice<'a>,
        overs: KnownOvers,
    ) -> Result<Self, AllocError>
        requires rows { length assessment.tests.items ≡ length ids.now }
        requires of { All (λ w. Contains ids.now w.of) assessment.needs.items }
        requires by { All (λ p. Contains ids.now p.0) assessment.superseded.items }
        ensures numbered { IfOk result (λ j. IsNumberedAs ids.now assessment j) }
        ensures parts { IfOk result (λ j. HasParts j) }
        ensures vers { IfOk result (λ j. j.vers ≡ vers.entry) }
        ensures overs { IfOk result (λ j. j.overs ≡ overs) }
    {
        let eligible = eligible_flags(alloc, assessment.tests.as_slice())?;
        let ids = number_ids(alloc, ids)?;
        let system = numbered_system(
            alloc,
            &ids,
            assessment.superseded.as_slice(),
            assessment.needs.as_slice(),
            eligible,
        )?;
        Ok(Judged {
            system,
            ids,
            tests: assessment.tests,
            needs: assessment.needs,
            bypassed: assessment.bypassed,
            vers,
            overs,
        })
    }
}
