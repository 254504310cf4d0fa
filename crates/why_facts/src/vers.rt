//! The `++VER`s of an id for the zone's SREL.
ghost use Rattle.std.specs.Prelude.{◌≡◌, ◌==◌, ◌++◌, [], ◌∷◌, filter, map, IfOk, OnOk, List};
ghost use Rattle.std.specs.Str.{bytes_eq};
ghost use Rattle.terms.specs.Types.{Ver as AVer};
ghost use Rattle.terms.specs.Lookups.{is_in};
ghost use Rattle.terms.specs.Choice.{vers_of, fits};
ghost use Rattle.report.specs.Facts.{VerFact};
ghost use Rattle.sysmods.specs.Choices.{number_in};
ghost use Rattle.zones.specs.Scopes.{global_of};
ghost use Rattle.why_facts.specs.Numbered.{numbered};
ghost use Rattle.report.specs.FactViews.{fact_view};

use fields::Id;
use report::{Fact, NumberedVer};
use std::alloc::{AllocError, Global};
use sysmods_values::Ver;
use zones::{Scope, fits};

// The fact of the `++VER` of this number: whether it fits the zone, and whether it is the one that counts.
fn ver_fact(scope: &Scope<'_, '_>, id: Id, ver: &Ver, number: usize) -> Fact<'static>
    ensures { fact_view result ≡ VerFact number ver.now.fmid
        (fits scope.now.zone.now (is_in scope.now.ids.now) ver.now) (number == number_in scope.now.vers.now id) }
{
    Fact::Ver(NumberedVer {
        number,
        fmid: ver.fmid,
        fits: fits(scope.zone, scope.ids, ver),
        counts: number == scope.vers.number(id).get(),
    })
}

// Adds the fact of the `++VER`, if the `++VER` is for the zone's SREL. `facts` has a fact for each earlier `++VER` of
// this SREL, so the number is one more than there are facts.
fn push_ver_fact(
    scope: &Scope<'_, '_>,
    id: Id,
    ver: &Ver,
    facts: &mut Vec<Fact<'_>>,
) -> Result<(), AllocError>
    ensures { OnOk result ((vs : List AVer) → map fact_view facts.old.items ≡ numbered scope.now id vs
        → map fact_view facts.new.items
        ≡ numbered scope.now id (vs ++ filter (λ v. bytes_eq v.srel scope.now.zone.now.srel) (ver.now ∷ []))) }
{
    if ver.srel == scope.zone.srel() {
        let number = facts.len() + 1;
        facts.push(ver_fact(scope, id, ver, number))?;
    }
    Ok(())
}

/// The `++VER`s of the id for the zone's SREL.
pub(crate) fn ver_facts(
    alloc: Global,
    scope: &Scope<'_, '_>,
    id: Id,
) -> Result<Vec<Fact<'static>>, AllocError>
    ensures { IfOk result (λ facts. map fact_view facts.items
        ≡ numbered scope.now id (vers_of (global_of scope.now) scope.now.zone.now.srel id)) }
{
    let mut facts = Vec::new(alloc);
    for ver in scope.global().vers_of(id) {
        push_ver_fact(scope, id, ver, &mut facts)?;
    }
    Ok(facts)
}
