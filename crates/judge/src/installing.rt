//! The numbered system of an APPLY or ACCEPT.
ghost use Rattle.std.specs.Prelude.{◌≡◌, ◌+◌, All, IfOk, IsTrue, option_copied};
ghost use Rattle.terms.specs.Candidates.{is_installable};
ghost use Rattle.terms.specs.Choice.{place, counting};
ghost use Rattle.terms.specs.Judged.{setting};
ghost use Rattle.sysmods.specs.Choices.{choice, number_in};
ghost use Rattle.sysmods.specs.Overs.{AreOver};
ghost use Rattle.judge_system.specs.Judged.{HasParts};
ghost use Rattle.judge.specs.Installs.{IsInstallJudged, KeepsTogether};

use crate::assessing::{Assessed, assess};
use fields::{Attest, Bypass};
use judge_system::Judged;
use std::alloc::{AllocError, Global};
use sysmods::GlobalZone;
use zones::{Candidates, Scope, Zone, counting_vers, deletions};

/// Judges the candidates of an APPLY or ACCEPT in the zone, for ACCEPT with the related target zone, except for what
/// BYPASS leaves out. The command installs the candidates that a `Solver` keeps of the system.
pub fn install_system<'a>(
    alloc: Global,
    global: &'a GlobalZone,
    zone: &Zone,
    related: Option<&Zone>,
    candidates: &Candidates,
    bypass: &Bypass,
) -> Result<Judged<'a>, AllocError>
    ensures judged { IfOk result (λ j. IsInstallJudged (setting global.now zone.now (option_copied related.entry)
        candidates.now.ids bypass.now) j) }
    ensures global { IfOk result (λ j. j.vers.global.now ≡ global.now) }
    ensures counting { IfOk result (λ j. choice j.vers ≡ counting global.now zone.now candidates.now.ids) }
    ensures numbers { IfOk result (λ j. number_in j.vers
        ≡ (λ x. place global.now zone.now candidates.now.ids x + 1)) }
    ensures overs { IfOk result (λ j. AreOver (choice j.vers) j.overs) }

    // This is what `Judged::decided` asks for, and then `change::install_judged`.
    ensures parts { IfOk result (λ j. HasParts j) }
    ensures together { IfOk result (λ j. All (λ x. IsTrue (is_installable global.now zone.now x)) candidates.now.ids
        → KeepsTogether j zone.now) }
{
    // (for the clause `together`: the global zone and the zone have their forms)
    global.attest();
    zone.attest();
    let ids = &candidates.ids;
    let vers = counting_vers(alloc, global, zone, ids)?;
    let dels = deletions(alloc, &vers, ids.as_slice())?;
    let scope = Scope {
        vers: &vers,
        zone,
        ids,
        dels: dels.as_slice(),
        bypass,
    };
    let Assessed { assessment, overs } = assess(alloc, &scope, related)?;
    let judged = Judged::new(alloc, ids, assessment, vers, overs)?;
    Ok(judged)
}
