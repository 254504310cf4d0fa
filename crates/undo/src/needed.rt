//! What each candidate of a RESTORE needs.
ghost use Rattle.std.specs.Prelude.{◌≡◌, ◌++◌, map, All, IsTrue, IfOk, OnOk};
ghost use Rattle.terms.specs.Lookups.{is_applied};
ghost use Rattle.undo.specs.Scopes.{restoring_of};
ghost use Rattle.undo.specs.Needed.{pair_need, AreNeeds};

use crate::dependences::dependence_pairs;
use crate::element_changers::element_pairs;
use crate::pairs::member_pairs;
use crate::scope::RestoreScope;
use fields::{Id, IdList};
use judge_system::RequisiteOf;
use std::alloc::{AllocError, Global};
use terms::NeedKind;

// Adds a need of this kind for each pair: the first id needs the second.
fn add_needs(
    needs: &mut Vec<RequisiteOf>,
    kind: NeedKind,
    pairs: &[(Id, Id)],
) -> Result<(), AllocError>
    ensures { OnOk result (needs.new.items ≡ needs.old.items ++ map (pair_need kind) pairs.now) }
{
    for pair in pairs {
        needs.push(RequisiteOf {
            of: pair.0,
            kind,
            id: pair.1,
        })?;
    }
    Ok(())
}

/// What these applied SYSMODs need in a RESTORE whose candidates they are.
pub(crate) fn needs_in_restore(
    alloc: Global,
    scope: &RestoreScope<'_, '_>,
    ids: &IdList,
) -> Result<Vec<RequisiteOf>, AllocError>
    requires { All (λ x. IsTrue (is_applied scope.now.zone.now x)) ids.now }
    ensures { IfOk result (λ needs. AreNeeds (restoring_of scope.now) ids.now needs.items) }
{
    let elem = member_pairs(ids, element_pairs(alloc, scope, ids)?);
    let dep = member_pairs(ids, dependence_pairs(alloc, scope, ids)?);
    let mut needs = Vec::new(alloc);
    add_needs(&mut needs, NeedKind::Elem, elem.as_slice())?;
    add_needs(&mut needs, NeedKind::Dep, dep.as_slice())?;
    Ok(needs)
}
