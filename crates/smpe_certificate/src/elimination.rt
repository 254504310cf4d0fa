//! What is left of the eligible candidates, and in which order the others were dropped.
ghost use Rattle.std.specs.Prelude.{◌≡◌, ◌<◌, ◌≤◌, All, IfOk, OnOk, ℕ, length};
ghost use Rattle.std.specs.Prelude.{slice_index_or};
ghost use Rattle.smpe_certificate.specs.Drops.{IsElimination, candidates_of};
ghost use Rattle.smpe_certificate.specs.Search.{Settles, IsStart, HasDue, Follows};

use crate::serving::{contains_any, row_of, served_needs};
use solve::System;
use std::alloc::{AllocError, Global};

/// A candidate that is dropped, and the place of one of its needs among those of the system. When it is dropped, no
/// candidate that is left serves this need.
#[derive(Clone, Copy, Debug)]
pub(crate) struct Dropped {
    pub(crate) candidate: u32,
    pub(crate) need: usize,
}

/// The kept candidates, by a flag for each number, and the other eligible ones in the order in which they are dropped.
#[derive(Drop)]
pub(crate) struct Elimination {
    pub(crate) kept: Vec<bool>,
    pub(crate) dropped: Vec<Dropped>,
}

// The dropped candidate at a place.
fn candidate_at(dropped: &[Dropped], place: usize) -> u32
    requires { place < length dropped.now }
    ensures { result ≡ slice_index_or (candidates_of dropped.now) place 0 }
{
    dropped[place].candidate
}

// Drops the candidate that has the need at this place, if it stands and no standing candidate serves the need.
fn settle(
    system: &System,
    place: usize,
    standing: &mut [bool],
    dropped: &mut Vec<Dropped>,
) -> Result<(), AllocError>
    requires place { place < length system.now.needs }
    requires size { length standing.old ≡ system.now.size }
    ensures { OnOk result (Settles system.now place standing.old dropped.old.items standing.new dropped.new.items) }
{
    let need = &system.needs()[place];
    if standing[need.of as usize] && !contains_any(standing, &need.any) {
        dropped.push(Dropped {
            candidate: need.of,
            need: place,
        })?;
        standing[need.of as usize] = false;
    }
    Ok(())
}

// Drops each candidate with a need that no candidate that stands serves when its turn comes.
fn settle_all(
    system: &System,
    standing: &mut [bool],
    dropped: &mut Vec<Dropped>,
) -> Result<(), AllocError>
    requires { IsStart system.now standing.old dropped.old.items }
    ensures { OnOk result (Follows system.now 0 standing.new dropped.new.items) }
{
    let needs = system.needs();
    for place in 0..needs.len() {
        settle(system, place, standing, dropped)?;
    }
    Ok(())
}

// Drops each candidate with a need of the row that no standing candidate serves when its turn comes.
fn settle_row(
    system: &System,
    row: &[usize],
    standing: &mut [bool],
    dropped: &mut Vec<Dropped>,
) -> Result<(), AllocError>
    requires size { length standing.old ≡ system.now.size }
    requires row { All (λ k. k < length system.now.needs) row.now }
    ensures settled { OnOk result ((followed : ℕ) → HasDue system.now row.now followed standing.old dropped.old.items
        → Follows system.now followed standing.new dropped.new.items) }
    ensures size { length standing.new ≡ system.now.size }
{
    for place in row {
        settle(system, *place, standing, dropped)?;
    }
    Ok(())
}

// Follows each drop to the needs that the candidate served, until there is none that was not followed.
fn follow_drops(
    alloc: Global,
    system: &System,
    standing: &mut [bool],
    dropped: &mut Vec<Dropped>,
) -> Result<(), AllocError>
    requires { Follows system.now 0 standing.old dropped.old.items }
    ensures { OnOk result (IsElimination system.now standing.new dropped.new.items) }
{
    let served = served_needs(alloc, system)?;
    let mut followed = 0;
    while followed < dropped.len() {
        let candidate = candidate_at(dropped, followed);
        followed += 1;
        settle_row(system, row_of(&served, candidate), standing, dropped)?;
    }
    Ok(())
}

/// Drops, one after the other, each eligible candidate with a need that no candidate that is left serves.
pub(crate) fn eliminate(alloc: Global, system: &System) -> Result<Elimination, AllocError>
    ensures { IfOk result (λ e. IsElimination system.now e.kept.items e.dropped.items) }
{
    let mut standing = system.eligible().to_vec(alloc)?;
    let mut dropped = Vec::new(alloc);
    settle_all(system, &mut standing, &mut dropped)?;
    follow_drops(alloc, system, &mut standing, &mut dropped)?;
    Ok(Elimination {
        kept: standing,
        dropped,
    })
}
