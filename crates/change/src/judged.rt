//! What becomes of a zone when the kept ones of judged candidates are installed.
ghost use Rattle.std.specs.Prelude.{◌≢◌, ◌↔◌, ◌⊎◌, Contains, IfOk};
ghost use Rattle.terms.specs.Types.{Id as AnId, Zone as AZone};
ghost use Rattle.terms.specs.Install.{HasInstalled, TakesEffect};
ghost use Rattle.terms.specs.Over.{IsOver};
ghost use Rattle.terms.specs.Tests.{ShareElement};
ghost use Rattle.sysmods.specs.Choices.{choice};
ghost use Rattle.sysmods.specs.Overs.{AreOver};
ghost use Rattle.change.specs.Elements.{HasBases};
ghost use Rattle.change.specs.Together.{MayBeInstalled, install_by, install_of};
ghost use Rattle.zones_maps.specs.Delta.{IsChanged, KnowsStood};

use crate::installing::{Installed, Installing, install};
use crate::pairs::pairs_with_first_in;
use fields::{Id, IdList, YyDdd};
use judge_system::Judged;
use std::alloc::{AllocError, Global};
use sysmods::{KnownOvers, Overs, VerChoice};
use zones::Zone;

/// Installs the kept ones of judged candidates into the zone. Each waives those of its requisites that BYPASS covers
/// and nothing supplies.
pub fn install_judged(
    alloc: Global,
    judged: Judged<'_>,
    zone: &Zone,
    kept: &IdList,
    date: YyDdd,
) -> Result<Installed, AllocError>
    requires { MayBeInstalled judged zone.now kept.now }
    ensures installs { IfOk result (λ i. (new : AZone) → IsChanged i.delta zone.now new
        → HasInstalled (install_of judged.entry zone.now kept.now date) new) }
    ensures knows { IfOk result (λ i. KnowsStood zone.now i.delta) }
    ensures effective { IfOk result (λ i. (x : AnId) → Contains i.effective x
        ↔ TakesEffect (install_of judged.entry zone.now kept.now date) x) }
{
    let Judged {
        bypassed,
        vers,
        overs,
        ..
    } = judged;
    let bypassed = pairs_with_first_in(alloc, kept, bypassed.as_slice())?;
    install_kept(alloc, &vers, overs, zone, kept, bypassed.as_slice(), date)
}

// Installs the kept SYSMODs by these `++VER`s. `overs` has the pairs of ids that were found to be over each other when
// the candidates were tested, so that no pair is searched for again. This is a function of its own because `Installing`
// owns these pairs and refers to `vers` and `bypassed`, which must belong to the caller.
fn install_kept(
    alloc: Global,
    vers: &VerChoice<'_>,
    overs: KnownOvers,
    zone: &Zone,
    kept: &IdList,
    bypassed: &[(Id, Id)],
    date: YyDdd,
) -> Result<Installed, AllocError>
    requires known { AreOver (choice vers.now) overs }
    requires order { (x y : AnId) → Contains kept.now x → Contains kept.now y → x ≢ y
        → ShareElement vers.now.global.now x y → IsOver (choice vers.now) x y ⊎ IsOver (choice vers.now) y x }
    requires base { HasBases (install_by vers.now zone.now kept.now bypassed.now date) }
    ensures installs { IfOk result (λ i. (new : AZone) → IsChanged i.delta zone.now new
        → HasInstalled (install_by vers.now zone.now kept.now bypassed.now date) new) }
    ensures knows { IfOk result (λ i. KnowsStood zone.now i.delta) }
    ensures effective { IfOk result (λ i. (x : AnId) → Contains i.effective x
        ↔ TakesEffect (install_by vers.now zone.now kept.now bypassed.now date) x) }
{
    let installing = Installing {
        overs: Overs::resume(vers, overs),
        zone,
        kept,
        bypassed,
        date,
    };
    install(alloc, installing)
}
