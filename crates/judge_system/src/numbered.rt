//! The numbered system: which candidates are eligible, and what each one needs.
ghost use Rattle.std.specs.Prelude.{◌≡◌, ◌<◌, ◌^◌, length, map, All, Contains, OnOk, IfOk};
ghost use Rattle.terms.specs.Lookups.{IsRising, is_nil};
ghost use Rattle.judge_system.specs.Numbered.{AddsNeed, HasSystem};
ghost use Rattle.judge_system.specs.TestSets.{tests_of};

use crate::items::item_at;
use crate::serving::{own_place, served_pairs, serving_places};
use crate::stated::RequisiteOf;
use crate::test_set::TestSet;
use fields::{Id, IdList};
use indexmap::IndexSet;
use solve::{Need, System};
use std::alloc::{AllocError, Global};
use std::collections::BTreeSet;

/// The greatest number of candidates whose count fits into 32 bits.
const MOST_CANDIDATES: usize = u32::MAX as usize;

/// The ids, numbered in their order. It returns an error if a `u32` cannot count them.
pub(crate) fn number_ids(alloc: Global, ids: &IdList) -> Result<IndexSet<Id>, AllocError>
    ensures ids { IfOk result (λ numbered. numbered.keys ≡ ids.now) }
    ensures rising { IfOk result (λ numbered. IsRising numbered.keys) }
    ensures few { IfOk result (λ numbered. length numbered.keys < 2 ^ 32) }
{
    if ids.len() > MOST_CANDIDATES {
        return Err(AllocError);
    }
    let mut numbered = IndexSet::new(alloc);
    for id in ids.as_slice() {
        numbered.insert(*id)?;
    }
    Ok(numbered)
}

/// For each candidate, whether it fails no test.
pub(crate) fn eligible_flags(alloc: Global, tests: &[TestSet]) -> Result<Vec<bool>, AllocError>
    ensures { IfOk result (λ flags. flags.items ≡ map (λ set. is_nil (tests_of set)) tests.now) }
{
    tests.iter().map(|set| set.is_empty()).collect(alloc)
}

// Adds one need to the system, by the numbers of its candidate and of those that serve it.
fn add_numbered_need(
    alloc: Global,
    ids: &IndexSet<Id>,
    served: &BTreeSet<(Id, u32)>,
    need: RequisiteOf,
    system: &mut System,
) -> Result<(), AllocError>
    requires few { length ids.now.keys < 2 ^ 32 }
    requires rising { IsRising ids.now.keys }
    requires size { system.old.size ≡ length ids.now.keys }
    requires of { Contains ids.now.keys need.of }
    ensures { OnOk result (AddsNeed ids.now.keys served.now.keys need system.old system.new) }
{
    let any = serving_places(alloc, ids, served, need.kind, need.id)?;
    let of = own_place(ids, need.of);
    system.add_need(Need { of, any })?;
    Ok(())
}

/// The system of candidates, which are eligible by these flags, and of these needs. `superseded` has the candidates
/// with the ids that they supersede, because they may serve needs for these.
pub(crate) fn numbered_system(
    alloc: Global,
    ids: &IndexSet<Id>,
    superseded: &[(Id, Id)],
    stated: &[RequisiteOf],
    eligible: Vec<bool>,
) -> Result<System, AllocError>
    requires few { length ids.now.keys < 2 ^ 32 }
    requires rising { IsRising ids.now.keys }
    requires by { All (λ p. Contains ids.now.keys p.0) superseded.now }
    requires within { All (λ w. Contains ids.now.keys w.of) stated.now }
    requires flags { length eligible.items ≡ length ids.now.keys }
    ensures { IfOk result (λ system. HasSystem ids.now.keys superseded.now eligible.items stated.now system) }
{
    let served = served_pairs(alloc, ids, superseded)?;
    let mut system = System::new(alloc, eligible)?;
    for i in 0..stated.len() {
        let need = item_at(stated, i);
        add_numbered_need(alloc, ids, &served, need, &mut system)?;
    }
    Ok(system)
}
