//! The causers of each candidate that failed.
ghost use Rattle.std.specs.Prelude.{◌≡◌, ◌≢◌, ◌<◌, ◌↔◌, ◌≤◌, ◌&&◌, ℕ, List, [], Bool, false, not, IfOk, OnOk, IsTrue};
ghost use Rattle.std.specs.Prelude.{All, AllPairs, Contains, length};
ghost use Rattle.solve.specs.System.{System as ASystem, AreKept, holds};
ghost use Rattle.solve.specs.Causes.{HasFailed, HasBareNeed, IsRoot, IsCauser, LeadsOn};
ghost use Rattle.solve.specs.Rows.{row_at, times};
ghost use Rattle.solve.specs.Marks.{AreLeads, AreClear, IsMarked, is_in};

use crate::rows::{add_to_rows, empty_rows};
use crate::sets::{Kept, contains_any};
use crate::system::System;
use std::alloc::{AllocError, Global};

// For each candidate, whether it has a need that no candidate serves.
fn candidates_with_bare_need(alloc: Global, system: &System) -> Result<Vec<bool>, AllocError>
    ensures size { IfOk result (λ bare. length bare.items ≡ system.now.size) }
    ensures exact { IfOk result (λ bare. (x : ℕ) → IsTrue (holds bare.items x) ↔ HasBareNeed system.now x) }
{
    let mut bare = vec![in alloc; false; system.size() as usize]?;
    for need in system.needs() {
        if need.any.is_empty() {
            bare[need.of as usize] = true;
        }
    }
    Ok(bare)
}

// Whether a candidate has failed for a reason of its own: it is not eligible, or no candidate serves one of its needs.
fn is_root(system: &System, kept: &[bool], bare: &[bool], candidate: u32) -> bool
    requires candidate { candidate < system.now.size }
    requires kept { length kept.now ≡ system.now.size }
    requires bare { length bare.now ≡ system.now.size }
    requires exact { (y : ℕ) → IsTrue (holds bare.now y) ↔ HasBareNeed system.now y }
    ensures { IsTrue result ↔ IsRoot system.now kept.now candidate }
{
    let place = candidate as usize;
    !kept[place] && (!system.eligible()[place] || bare[place])
}

// For each candidate, those from which a step leads to it: they failed, and it would serve a need of theirs that stays
// open.
fn predecessors(alloc: Global, system: &System, kept: &[bool]) -> Result<Vec<Vec<u32>>, AllocError>
    requires { length kept.now ≡ system.now.size }
    ensures { IfOk result (λ leads. AreLeads system.now kept.now leads.items) }
{
    let mut leads = empty_rows(alloc, system.size())?;
    for need in system.needs() {
        if !kept[need.of as usize] && !contains_any(kept, &need.any) {
            add_to_rows(&mut leads, &need.any, need.of)?;
        }
    }
    Ok(leads)
}

// Marks the members of a row, and adds to `found` those that were not marked before.
fn mark_row(row: &[u32], marks: &mut [bool], found: &mut Vec<u32>) -> Result<(), AllocError>
    requires { All (λ x. x < length marks.old) row.now }
    ensures { OnOk result (IsMarked row.now marks.old marks.new found.old.items found.new.items) }
{
    for x in row {
        if !marks[*x as usize] {
            marks[*x as usize] = true;
            found.push(*x)?;
        }
    }
    Ok(())
}

// Removes the marks of a list.
fn clear_marks(marks: &mut [bool], list: &[u32])
    requires { All (λ x. x < length marks.old) list.now }
    ensures { (x : ℕ) → holds marks.new x ≡ (holds marks.old x && not (is_in list.now x)) }
{
    for x in list {
        marks[*x as usize] = false;
    }
}

// The candidates from which steps lead to the target, each once: a search backwards from it. No mark is set before and
// after the search.
fn search_backwards(
    alloc: Global,
    leads: &[Vec<u32>],
    target: u32,
    marks: &mut [bool],
) -> Result<Vec<u32>, AllocError>
    requires target { target < length leads.now }
    requires marks { length marks.old ≡ length leads.now }
    requires clear { AreClear marks.old }
    requires rows { (z : ℕ) → All (λ x. x < length leads.now) (row_at leads.now z) }
    ensures once { IfOk result (λ found. (x : ℕ) → times x found.items ≤ 1) }
    ensures exact { IfOk result (λ found. (p : ASystem) (kept : List Bool) → AreLeads p kept leads.now →
        (x : ℕ) → Contains found.items x ↔ LeadsOn p kept x target) }
    ensures within { IfOk result (λ found. All (λ x. x < length leads.now) found.items) }
    ensures clear { OnOk result (AreClear marks.new) }
{
    let mut found = Vec::new(alloc);
    found.push(target)?;
    marks[target as usize] = true;
    let mut searched = 0;
    while searched < found.len() {
        let reached = found[searched];
        searched += 1;
        mark_row(&leads[reached as usize], marks, &mut found)?;
    }
    clear_marks(marks, &found);
    Ok(found)
}

/// For each candidate its causers, rising: the roots to which steps lead from it. A kept candidate has none. No
/// candidate has any if the set is that of a system of another size.
pub fn causers(alloc: Global, system: &System, kept: &Kept) -> Result<Vec<Vec<u32>>, AllocError>
    ensures size { IfOk result (λ rows. length rows.items ≡ system.now.size) }
    ensures exact { IfOk result (λ rows. length kept.now ≡ system.now.size → (x y : ℕ) →
        Contains (row_at rows.items x) y ↔ IsCauser system.now kept.now x y) }
    ensures other { IfOk result (λ rows. length kept.now ≢ system.now.size → (x : ℕ) → row_at rows.items x ≡ []) }
    ensures rising { IfOk result (λ rows. (x : ℕ) → AllPairs (λ a b. a < b) (row_at rows.items x)) }

    // If the set is the greatest, each failure has a cause.
    ensures some { IfOk result (λ rows. AreKept system.now kept.now →
        (x : ℕ) → HasFailed system.now kept.now x → (y : ℕ) × IsCauser system.now kept.now x y) }
{
    let mut rows = empty_rows(alloc, system.size())?;
    if kept.size() != system.size() {
        return Ok(rows);
    }
    let flags = kept.flags();
    let bare = candidates_with_bare_need(alloc, system)?;
    let leads = predecessors(alloc, system, flags)?;
    let mut marks = vec![in alloc; false; system.size() as usize]?;
    for candidate in 0..system.size() {
        if is_root(system, flags, &bare, candidate) {
            let affected = search_backwards(alloc, &leads, candidate, &mut marks)?;
            add_to_rows(&mut rows, &affected, candidate)?;
        }
    }
    Ok(rows)
}
