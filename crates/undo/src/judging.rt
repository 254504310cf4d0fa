//! The numbered system of a RESTORE.
ghost use Rattle.std.specs.Prelude.{◌≡◌, ◌+◌, List, [], All, IsTrue, IfOk};
ghost use Rattle.terms.specs.Types.{Id as AnId};
ghost use Rattle.terms.specs.Choice.{place, counting};
ghost use Rattle.terms.specs.Lookups.{is_applied};
ghost use Rattle.terms.specs.Restore.{restore_candidates};
ghost use Rattle.sysmods.specs.Choices.{choice, number_in};
ghost use Rattle.sysmods.specs.Overs.{AreOver};
ghost use Rattle.judge_system.specs.Judged.{HasParts};
ghost use Rattle.undo.specs.Assessed.{IsRestoreJudged};
ghost use Rattle.undo.specs.Scopes.{restoring_from};

use crate::assessing::assess;
use fields::IdList;
use judge_system::Judged;
use std::alloc::{AllocError, Global};
use sysmods::{GlobalZone, Overs};
use zones::{Candidates, Zone, counting_vers};

/// Judges the candidates of a RESTORE of this target zone from its distribution zone. The command takes off the
/// candidates that a `Solver` keeps of the system. They may be the candidates of any list.
pub fn restore_system<'a>(
    alloc: Global,
    global: &'a GlobalZone,
    zone: &Zone,
    accepted: &Zone,
    candidates: &Candidates,
) -> Result<Judged<'a>, AllocError>
    requires { All (λ x. IsTrue (is_applied zone.now x)) candidates.now.ids }
    ensures judged { IfOk result (λ j. (list : List AnId)
        → candidates.now.ids ≡ restore_candidates (restoring_from global.now zone.now accepted.now) list
        → IsRestoreJudged (restoring_from global.now zone.now accepted.now) list candidates.now.ids j) }
    ensures global { IfOk result (λ j. j.vers.global.now ≡ global.now) }
    ensures counting { IfOk result (λ j. choice j.vers ≡ counting global.now zone.now []) }
    ensures numbers { IfOk result (λ j. number_in j.vers ≡ (λ x. place global.now zone.now [] x + 1)) }
    ensures overs { IfOk result (λ j. AreOver (choice j.vers) j.overs) }
    ensures bypassed { IfOk result (λ j. j.bypassed.items ≡ []) }
    ensures parts { IfOk result (λ j. HasParts j) }
{
    let ids = &candidates.ids;
    let none = IdList::new(alloc);
    let vers = counting_vers(alloc, global, zone, &none)?;
    let assessment = assess(alloc, &vers, zone, accepted, ids)?;
    let overs = Overs::new(alloc, &vers).into_known();
    let judged = Judged::new(alloc, ids, assessment, vers, overs)?;
    Ok(judged)
}
