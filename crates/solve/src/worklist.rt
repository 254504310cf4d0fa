//! The kept set, found by following each candidate that is dropped, with a count of the work.
ghost use Rattle.std.specs.Prelude.{◌≡◌, ◌<◌, ◌≤◌, ◌+◌, ◌^◌, ◌++◌, ◌∷◌, [], ℕ, List, IfOk, OnOk, length, All};
ghost use Rattle.std.specs.Prelude.{count_by, replicate};
ghost use Rattle.solve.specs.System.{AreKept, holds, pairs_of, strikes_of, most_turns};
ghost use Rattle.solve.specs.Board.{AreServed, AtRest, SettledBelow, IsDrop, open_in};
ghost use Rattle.solve.specs.Rows.{row_at, times};

use crate::sets::Kept;
use crate::solver::Solver;
use crate::system::System;
use std::alloc::{AllocError, Global};

/// How much work a search did.
#[derive(Clone, Copy, Debug, PartialEq, Eq)]
pub struct Count {
    /// How often the count of a need's living members was lowered.
    pub strikes: u128,
    /// How often a loop went through its body, including the loops that index the needs.
    pub turns: u128,
}

/// Counts the living members of each need, and follows each drop to the needs that it strikes.
#[derive(Clone, Copy, Debug)]
pub struct Worklist;

/// The state of a search. A strike lowers the count of a need after a member of it was dropped.
#[derive(Drop)]
struct Board {
    // For each candidate, whether it is still in the set.
    standing: Vec<bool>,
    // For each need, how many of its members are in the set or have strikes that are still due.
    living: Vec<usize>,
    // The candidates that left the set and whose strikes are still due.
    dropped: Vec<u32>,
    // The work so far.
    count: Count,
}

impl Board {
    // Drops a candidate, if it is still in the set. There is room for all that may be dropped.
    fn drop_candidate(&mut self, x: u32)
        requires x { x < length self.old.standing.items }
        requires room { open_in self.old ≤ self.old.dropped.cap }
        ensures drop { IsDrop x self.old.standing.items self.old.dropped.items self.new.standing.items
            self.new.dropped.items }
        ensures room { self.new.dropped.cap ≡ self.old.dropped.cap }
        ensures living { self.new.living ≡ self.old.living }
        ensures count { self.new.count ≡ self.old.count }
    {
        if self.standing[x as usize] {
            self.standing[x as usize] = false;
            self.dropped.push_reserved(x);
        }
    }

    // Takes a member from a need, and drops the need's candidate when the last one is gone.
    fn strike(&mut self, system: &System, need: usize)
        requires need { need < length system.now.needs }
        requires due { (rest : List ℕ) × AtRest system.now (need ∷ rest) self.old }
        requires strikes { self.old.count.strikes + 1 < 2 ^ 128 }
        ensures board { (rest : List ℕ) → AtRest system.now (need ∷ rest) self.old → AtRest system.now rest self.new }
        ensures open { open_in self.new ≡ open_in self.old }
        ensures strikes { self.new.count.strikes ≡ self.old.count.strikes + 1 }
        ensures turns { self.new.count.turns ≡ self.old.count.turns }
    {
        let left = self.living[need] - 1;
        self.living[need] = left;
        self.count.strikes += 1;
        if left == 0 {
            self.drop_candidate(system.needs()[need].of);
        }
    }

    // Makes the strikes of one dropped candidate; `row` lists the needs that it serves.
    fn strike_row(&mut self, system: &System, row: &[usize])
        requires row { All (λ k. k < length system.now.needs) row.now }
        requires board { AtRest system.now row.now self.old }
        requires few { pairs_of system.now.needs < 2 ^ 123 }
        requires turns { self.old.count.turns + length row.now < 2 ^ 128 }
        ensures board { AtRest system.now [] self.new }
        ensures open { open_in self.new ≡ open_in self.old }
        ensures strikes { self.new.count.strikes ≡ self.old.count.strikes + length row.now }
        ensures turns { self.new.count.turns ≡ self.old.count.turns + length row.now }
    {
        for need in row {
            self.count.turns += 1;
            self.strike(system, *need);
        }
    }

    // Drops the candidates with a need that no eligible candidate serves.
    fn drop_unserved(&mut self, system: &System)
        requires board { SettledBelow system.now 0 self.old }
        requires turns { self.old.count.turns + length system.now.needs < 2 ^ 128 }
        ensures board { AtRest system.now [] self.new }
        ensures open { open_in self.new ≡ open_in self.old }
        ensures strikes { self.new.count.strikes ≡ self.old.count.strikes }
        ensures turns { self.new.count.turns ≡ self.old.count.turns + length system.now.needs }
    {
        for (k, need) in system.needs().iter().enumerate() {
            self.count.turns += 1;
            if self.living[k] == 0 {
                self.drop_candidate(need.of);
            }
        }
    }

    // Makes the strikes of all dropped candidates, and of those that are dropped in turn.
    fn follow_drops(&mut self, system: &System, served: &[Vec<usize>])
        requires served { AreServed system.now.needs served.now }
        requires size { length served.now ≡ system.now.size }
        requires board { AtRest system.now [] self.old }
        requires few { pairs_of system.now.needs < 2 ^ 123 }
        requires turns { self.old.count.turns + system.now.size < 2 ^ 127 }
        ensures board { AtRest system.now [] self.new }
        ensures done { self.new.dropped.items ≡ [] }
        ensures turns { self.new.count.turns + open_in self.new + self.old.count.strikes
            ≡ self.old.count.turns + open_in self.old + self.new.count.strikes }
    {
        while let Some(x) = self.dropped.pop() {
            self.count.turns += 1;
            self.strike_row(system, &served[x as usize]);
        }
    }
}

// Adds a need to the row of each candidate that serves it, and returns how many of these are eligible.
fn index_need(
    eligible: &[bool],
    any: &[u32],
    need: usize,
    served: &mut [Vec<usize>],
    turns: &mut u128,
) -> Result<usize, AllocError>
    requires any { All (λ y. y < length eligible.now) any.now }
    requires rows { length served.old ≡ length eligible.now }
    requires room { turns.old + length any.now < 2 ^ 128 }
    ensures rows { OnOk result ((x : ℕ) → row_at served.new x ≡ row_at served.old x
        ++ replicate (times x any.now) need) }
    ensures living { IfOk result (λ living. living ≡ count_by (holds eligible.now) any.now) }
    ensures turns { OnOk result (turns.new ≡ turns.old + length any.now) }
{
    let mut living = 0;
    for y in any {
        *turns += 1;
        served[*y as usize].push(need)?;
        living += usize::from(eligible[*y as usize]);
    }
    Ok(living)
}

// The board at the start, and for each candidate the needs that it serves.
fn prepare_board(alloc: Global, system: &System) -> Result<(Board, Vec<Vec<usize>>), AllocError>
    ensures board { IfOk result (λ r. SettledBelow system.now 0 r.0) }
    ensures strikes { IfOk result (λ r. r.0.count.strikes ≡ 0) }
    ensures turns { IfOk result
        (λ r. r.0.count.turns ≡ system.now.size + length system.now.needs + pairs_of system.now.needs) }
    ensures served { IfOk result (λ r. AreServed system.now.needs r.1.items) }
    ensures size { IfOk result (λ r. length r.1.items ≡ system.now.size) }
    ensures few { IfOk result (λ r. pairs_of system.now.needs < 2 ^ 123) }
    ensures needs { IfOk result (λ r. length system.now.needs < 2 ^ 64) }
{
    let size = system.size();
    let needs = system.needs();
    let standing = system.eligible().to_vec(alloc)?;
    let mut turns = 0;
    let mut served = Vec::new(alloc);
    for _candidate in 0..size {
        turns += 1;
        served.push(Vec::new(alloc))?;
    }
    let mut living = Vec::with_capacity(alloc, needs.len())?;
    for (k, need) in needs.iter().enumerate() {
        turns += 1;
        let alive = index_need(system.eligible(), &need.any, k, &mut served, &mut turns)?;
        living.push(alive)?;
    }
    let board = Board {
        standing,
        living,
        dropped: Vec::with_capacity(alloc, size as usize)?,
        count: Count { strikes: 0, turns },
    };
    Ok((board, served))
}

impl Worklist {
    /// The kept set, and how much work it took.
    pub fn count(alloc: Global, system: &System) -> Result<(Kept, Count), AllocError>
        ensures kept { IfOk result (λ r. AreKept system.now r.0) }
        ensures strikes { IfOk result (λ r. r.1.strikes ≡ strikes_of system.now r.0) }
        ensures turns { IfOk result (λ r. r.1.turns ≤ most_turns system.now) }

        // Each strike is made in a turn of its own.
        ensures made { IfOk result (λ r. r.1.strikes ≤ r.1.turns) }
    {
        let (mut board, served) = prepare_board(alloc, system)?;
        board.drop_unserved(system);
        board.follow_drops(system, &served);
        Ok((Kept::new(system.size(), board.standing), board.count))
    }
}

impl Solver for Worklist {
    fn greatest(&self, alloc: Global, system: &System) -> Result<Kept, AllocError> {
        let (kept, _count) = Worklist::count(alloc, system)?;
        Ok(kept)
    }
}
