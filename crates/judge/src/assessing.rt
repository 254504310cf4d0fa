//! The assessment of the candidates of an APPLY or ACCEPT, by their ids.
ghost use Rattle.std.specs.Prelude.{IfOk, option_copied};
ghost use Rattle.sysmods.specs.Overs.{AreOver};
ghost use Rattle.zones.specs.Scopes.{choice_of, setting_with};
ghost use Rattle.judge.specs.Installs.{IsInstallAssessed};

use crate::surviving::survivors;
use judge_faults::{Tested, test_all};
use judge_needs::{Conditions, bypassed_pairs, needs_of, superseded_pairs};
use judge_system::Assessment;
use std::alloc::{AllocError, Global};
use sysmods::KnownOvers;
use zones::{Scope, Zone};

/// The assessment of the candidates, and the pairs of ids that the tests found to be over each other.
#[derive(Drop)]
pub(crate) struct Assessed {
    pub(crate) assessment: Assessment,
    pub(crate) overs: KnownOvers,
}

/// Tests the candidates of an APPLY or ACCEPT by the `++VER`s that count, for ACCEPT with the related target zone, and
/// finds what they need, which ids they supersede, and which requisites BYPASS covers.
pub(crate) fn assess(
    alloc: Global,
    scope: &Scope<'_, '_>,
    related: Option<&Zone>,
) -> Result<Assessed, AllocError>
    ensures assessment { IfOk result (λ a. IsInstallAssessed (setting_with scope.now (option_copied related.entry))
        a.assessment) }
    ensures overs { IfOk result (λ a. AreOver (choice_of scope.now) a.overs) }
{
    let Tested { tests, overs } = test_all(alloc, scope, related)?;
    let survivors = survivors(alloc, scope.ids, tests.as_slice())?;
    let conditions = Conditions::new(alloc, scope)?;
    let needs = needs_of(alloc, &conditions, &survivors)?;
    let superseded = superseded_pairs(alloc, scope.vers, scope.ids, needs.as_slice())?;
    let bypassed = bypassed_pairs(alloc, &conditions)?;
    Ok(Assessed {
        assessment: Assessment {
            tests,
            needs,
            superseded,
            bypassed,
        },
        overs: overs.into_known(),
    })
}
