//! The elements changed by candidates that pass the tests of their own.
ghost use Rattle.std.specs.Prelude.{◌≡◌, ◌↔◌, length, IsTrue, IfOk};
ghost use Rattle.judge_faults.specs.Claims.{AreClaims, AreGrouped};

use crate::own::OwnFaults;
use fields::{Id, Name};
use judge_system::item_at;
use std::alloc::{AllocError, Global};
use sysmods::GlobalZone;
use terms::ElemType;

/// A candidate, and an element that it changes. `place` is where the candidate stands in the list of candidates.
#[derive(Clone, Copy)]
pub(crate) struct Claim {
    pub(crate) element: (ElemType, Name),
    pub(crate) id: Id,
    pub(crate) place: usize,
}

impl Claim {
    /// Whether both claims are on one element.
    pub(crate) fn is_on_same_element(&self, other: &Claim) -> bool
        ensures { IsTrue result ↔ (self.now.element ≡ other.now.element) }
    {
        self.element == other.element
    }
}

/// The claims of the candidates that pass the tests of their own, those on one element side by side and in their order.
pub(crate) fn claims_of(
    alloc: Global,
    global: &GlobalZone,
    ids: &[Id],
    faults: &[OwnFaults],
) -> Result<Vec<Claim>, AllocError>
    requires { length faults.now ≡ length ids.now }
    ensures are { IfOk result (λ claims. AreClaims global.now ids.now faults.now (length ids.now) claims.items) }
    ensures grouped { IfOk result (λ claims. AreGrouped claims.items) }
{
    let mut claims = Vec::new(alloc);
    for i in 0..ids.len() {
        if !item_at(faults, i).passes() {
            continue;
        }
        let id = ids[i];
        let changes = global.changes_of(id);
        for change in changes {
            claims.push(Claim {
                element: (change.elem_type, change.name),
                id,
                place: i,
            })?;
        }
    }
    claims.sort_by_key(|claim| claim.element)?;
    Ok(claims)
}
