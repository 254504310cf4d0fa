//! The holds on an id.
ghost use Rattle.std.specs.Prelude.{◌≡◌, None, option_map, IfOk};
ghost use Rattle.terms.specs.Beside.{Beside};
ghost use Rattle.terms.specs.declared.kinds.HoldKind.TheVariants.{Error};
ghost use Rattle.terms.specs.Lookups.{holds_of};
ghost use Rattle.zones.specs.Scopes.{global_of};
ghost use Rattle.report.specs.Facts.{holds_on, HasResolution, IsHoldFact};
ghost use Rattle.why_facts.specs.Asking.{setting_in};
ghost use Rattle.report.specs.FactViews.{resolution_view, fact_view};

use crate::answers::resolve_requisite;
use crate::asking::Asking;
use crate::joining::join_facts;
use fields::Id;
use report::{Fact, Requisite, Resolution};
use std::alloc::{AllocError, Global};
use sysmods_values::Hold;
use terms::{HoldKind, NeedKind};

// How the reason ID of an ERROR hold is resolved. The reason ID of each ERROR hold is the id of a SYSMOD, so the result
// is never `None`.
fn error_hold_resolution(
    alloc: Global,
    asking: &Asking<'_, '_>,
    hold: &Hold,
) -> Result<Option<Resolution>, AllocError>
    requires { hold.now.kind ≡ Error }
    ensures { IfOk result (λ a. HasResolution (setting_in asking.now) asking.now.id hold.now Error
        (option_map resolution_view a)) }
{
    match hold.reason.as_id() {
        Some(reason) => {
            let requisite = Requisite {
                kind: NeedKind::HoldError,
                by: asking.id,
                function: None,
                id: reason,
            };
            Ok(Some(resolve_requisite(alloc, asking, requisite)?))
        }
        None => Ok(None),
    }
}

// How the reason ID of the hold is resolved, if it is an ERROR hold.
fn hold_resolution(
    alloc: Global,
    asking: &Asking<'_, '_>,
    hold: &Hold,
) -> Result<Option<Resolution>, AllocError>
    ensures { IfOk result (λ a. HasResolution (setting_in asking.now) asking.now.id hold.now hold.now.kind
        (option_map resolution_view a)) }
{
    match hold.kind {
        HoldKind::Error => error_hold_resolution(alloc, asking, hold),
        _ => Ok(None),
    }
}

// The holds of one kind on the id.
fn hold_facts_of_kind<'a>(
    alloc: Global,
    asking: &Asking<'_, 'a>,
    kind: HoldKind,
) -> Result<Vec<Fact<'a>>, AllocError>
    ensures { IfOk result (λ facts. Beside (λ n h fact. IsHoldFact (setting_in asking.now) asking.now.id h
        (fact_view fact)) (holds_of (global_of asking.now.scope) kind asking.now.id) facts.items) }
{
    let mut facts = Vec::new(alloc);
    for hold in asking.scope.global().holds_of(kind, asking.id) {
        let resolution = hold_resolution(alloc, asking, hold)?;
        facts.push(Fact::Hold { hold, resolution })?;
    }
    Ok(facts)
}

/// The holds on the id: ERROR, then SYSTEM, then USER.
pub(crate) fn hold_facts<'a>(
    alloc: Global,
    asking: &Asking<'_, 'a>,
) -> Result<Vec<Fact<'a>>, AllocError>
    ensures { IfOk result (λ facts. Beside (λ n h fact. IsHoldFact (setting_in asking.now) asking.now.id h
        (fact_view fact)) (holds_on (global_of asking.now.scope) asking.now.id) facts.items) }
{
    let errors = hold_facts_of_kind(alloc, asking, HoldKind::Error)?;
    let systems = hold_facts_of_kind(alloc, asking, HoldKind::System)?;
    let facts = join_facts(errors, systems)?;
    let users = hold_facts_of_kind(alloc, asking, HoldKind::User)?;
    join_facts(facts, users)
}
