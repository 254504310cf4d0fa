//! The reasons of the ERROR holds on a candidate.
ghost use Rattle.std.specs.Prelude.{◌↔◌, [], Contains, IfOk};
ghost use Rattle.terms.specs.declared.codes.NeedKind.TheVariants.{HoldError};
ghost use Rattle.terms.specs.Types.{Id as AnId};
ghost use Rattle.terms.specs.Needs.{asked};
ghost use Rattle.zones.specs.Scopes.{setting_of};

use fields::{Id, IdList};
use std::alloc::{AllocError, Global};
use terms::HoldKind;
use zones::{Scope, is_bypassed_hold};

/// The reasons, which are ids, of the ERROR holds on a candidate that BYPASS does not cover.
pub(crate) fn open_reasons(
    alloc: Global,
    scope: &Scope<'_, '_>,
    id: Id,
) -> Result<IdList, AllocError>
    ensures { IfOk result (λ ids. (z : AnId) → Contains ids z
        ↔ Contains (asked (setting_of scope.now) [] id HoldError) z) }
{
    let mut found = Vec::new(alloc);
    for hold in scope.global().holds_of(HoldKind::Error, id) {
        if is_bypassed_hold(scope.bypass, hold) {
            continue;
        }
        let Some(reason) = hold.reason.as_id() else {
            continue;
        };
        found.push(reason)?;
    }
    Ok(IdList::from_vec(found))
}
