//! The zone's change and the lines of a RESTORE.
ghost use Rattle.std.specs.Prelude.{◌≡◌, ◌↔◌, ◌++◌, [], List, Contains, IfOk, map};
ghost use Rattle.std.specs.Ordering.{nat_cmp};
ghost use Rattle.std.specs.Cmp.Lexicographic.{slice_cmp};
ghost use Rattle.terms.specs.Lookups.{IsRising};
ghost use Rattle.terms.specs.Rising.{Rises};
ghost use Rattle.terms.specs.Types.{Id as AnId, Zone as AZone};
ghost use Rattle.terms.specs.Restore.{restore_candidates};
ghost use Rattle.zones_maps.specs.Delta.{IsChanged, KnowsStood};
ghost use Rattle.machine.specs.Restoring.{RestoresListed};
ghost use Rattle.fields.specs.Choices.{restore_list_of};
ghost use Rattle.report.specs.Views.{line_view};
ghost use Rattle.undo.specs.Scopes.{restoring_from};
ghost use Rattle.smpe_service.specs.Lines.{AreListedLines};
ghost use Rattle.smpe_service.specs.RestoreDecided.{IsRestoreDecided};

use crate::restored_lines::restore_lines;
use crate::solving::decide;
use fields::{Attest, IdList, RestoreList};
use judge_system::Decided;
use report::ReportLine;
use std::alloc::{AllocError, Global};
use sysmods::GlobalZone;
use undo::{restore_candidates, restore_system, takes_all};
use zones::{Candidates, Zone, ZoneDelta};

/// What a RESTORE changes, and its lines by id.
#[derive(Drop)]
pub struct Restored {
    pub delta: ZoneDelta,
    pub lines: Vec<ReportLine>,
}

/// Takes SYSMODs of the list off the target zone, back to the level of its distribution zone. The caller decides
/// whether the command only checks.
pub fn restore(
    alloc: Global,
    global: &GlobalZone,
    zone: &Zone,
    accepted: &Zone,
    list: &RestoreList,
) -> Result<Restored, AllocError>
    ensures restores { IfOk result (λ r. (new : AZone) → IsChanged r.delta zone.now new
        → RestoresListed global.now zone.now accepted.now (restore_list_of list.now) new
        (map line_view r.lines.items)) }
    ensures knows { IfOk result (λ r. KnowsStood zone.now r.delta) }
{
    let candidates = restore_candidates(alloc, global, zone, accepted, list)?;
    let decided = decide_candidates(alloc, global, zone, accepted, &candidates)?;
    let delta = change::restore(alloc, global, zone, accepted, &decided.kept)?;
    let lines = listed_lines(alloc, global, &candidates, &decided)?;
    Ok(Restored { delta, lines })
}

// Decides which candidates of a RESTORE are kept, and why each of the others is not.
fn decide_candidates(
    alloc: Global,
    global: &GlobalZone,
    zone: &Zone,
    accepted: &Zone,
    candidates: &Candidates,
) -> Result<Decided, AllocError>
    requires { (list : List AnId)
        × (candidates.now.ids ≡ restore_candidates (restoring_from global.now zone.now accepted.now) list) }
    ensures { IfOk result (λ d. (list : List AnId)
        → candidates.now.ids ≡ restore_candidates (restoring_from global.now zone.now accepted.now) list
        → IsRestoreDecided (restoring_from global.now zone.now accepted.now) list candidates.now.ids d.kept
        d.failed.items) }
{
    if takes_all(alloc, global, zone, accepted, candidates)? {
        return keep_all(alloc, candidates);
    }
    let judged = restore_system(alloc, global, zone, accepted, candidates)?;
    decide(alloc, &judged)
}

// The decision that keeps all candidates.
fn keep_all(alloc: Global, candidates: &Candidates) -> Result<Decided, AllocError>
    ensures all { IfOk result (λ d. (d.kept ≡ candidates.now.ids) × (d.failed.items ≡ [])) }
    ensures rising { IsRising candidates.now.ids }
{
    candidates.ids.attest();
    Ok(Decided {
        kept: candidates.ids.try_clone(alloc)?,
        failed: Vec::new(alloc),
    })
}

// The lines of the ids of the list, by id.
fn listed_lines(
    alloc: Global,
    global: &GlobalZone,
    candidates: &Candidates,
    decided: &Decided,
) -> Result<Vec<ReportLine>, AllocError>
    requires { Rises (slice_cmp nat_cmp) (λ f. f.0) decided.now.failed.items }
    ensures { IfOk result (λ lines. AreListedLines global.now candidates.now decided.now.kept decided.now.failed.items
        (map line_view lines.items)) }
{
    let ids = listed_ids(alloc, candidates)?;
    restore_lines(
        alloc,
        global,
        ids.as_slice(),
        &decided.kept,
        decided.failed.as_slice(),
    )
}

// The ids of the list: the candidates and those that are left out.
fn listed_ids(alloc: Global, candidates: &Candidates) -> Result<IdList, AllocError>
    ensures { IfOk result (λ ids. (x : AnId) → Contains ids x
        ↔ Contains (candidates.now.ids ++ map (λ p. p.0) candidates.now.left_out.items) x) }
{
    let mut ids = Vec::from_slice(alloc, candidates.ids.as_slice())?;
    for (id, _) in candidates.left_out.as_slice() {
        ids.push(*id)?;
    }
    Ok(IdList::from_vec(ids))
}
