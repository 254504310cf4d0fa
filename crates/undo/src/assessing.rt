//! The assessment of the candidates of a RESTORE, by their ids.
ghost use Rattle.std.specs.Prelude.{◌≡◌, List, [], All, IsTrue, IfOk};
ghost use Rattle.terms.specs.Types.{Id as AnId};
ghost use Rattle.terms.specs.Lookups.{IsRising, is_applied};
ghost use Rattle.terms.specs.Restore.{restore_candidates};
ghost use Rattle.undo.specs.Assessed.{IsRestoreAssessed};
ghost use Rattle.undo.specs.Scopes.{restoring};

use crate::needed::needs_in_restore;
use crate::scope::{RestoreScope, applied_ids};
use crate::tests::all_failed_tests;
use fields::IdList;
use judge_system::Assessment;
use std::alloc::{AllocError, Global};
use sysmods::VerChoice;
use zones::Zone;

/// Tests these applied SYSMODs by the `++VER`s that count, and finds what they need. No SYSMOD supersedes what a
/// RESTORE needs, and BYPASS covers none of it. They may be the candidates of any list.
pub(crate) fn assess(
    alloc: Global,
    vers: &VerChoice<'_>,
    zone: &Zone,
    accepted: &Zone,
    ids: &IdList,
) -> Result<Assessment, AllocError>
    requires { All (λ x. IsTrue (is_applied zone.now x)) ids.now }
    ensures assessed { IfOk result (λ assessment. (list : List AnId)
        → ids.now ≡ restore_candidates (restoring vers.now zone.now accepted.now) list
        → IsRestoreAssessed (restoring vers.now zone.now accepted.now) list ids.now assessment) }
    ensures bypassed { IfOk result (λ assessment. assessment.bypassed.items ≡ []) }
    ensures rising { IfOk result (λ assessment. IsRising ids.now) }
{
    let applied = applied_ids(alloc, zone)?;
    let scope = RestoreScope {
        vers,
        zone,
        accepted,
        applied: applied.as_slice(),
    };
    let candidates = ids.as_slice();
    Ok(Assessment {
        tests: all_failed_tests(alloc, &scope, candidates)?,
        needs: needs_in_restore(alloc, &scope, ids)?,
        superseded: Vec::new(alloc),
        bypassed: Vec::new(alloc),
    })
}
