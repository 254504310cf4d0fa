//! The needs of the kept candidates.
ghost use Rattle.std.specs.Prelude.{◌≡◌, ◌<◌, false, All, Contains, IfOk, IfSome, IfNone, IsTrue, length};
ghost use Rattle.solve.specs.System.{holds};
ghost use Rattle.judge_system.specs.Judged.{HasParts};
ghost use Rattle.smpe_certificate.specs.ByNumber.{IsServedAt, HasNoServer, AreServedFacts};

use crate::facts::ServedFact;
use judge_system::{Judged, item_at};
use std::alloc::{AllocError, Global};

// The first of the numbers that is kept.
fn first_kept(kept: &[bool], any: &[u32]) -> Option<u32>
    requires { All (λ y. y < length kept.now) any.now }
    ensures some { IfSome result (λ y. Contains any.now y × IsTrue (holds kept.now y)) }
    ensures none { IfNone result (All (λ y. holds kept.now y ≡ false) any.now) }
{
    for y in any {
        if kept[*y as usize] {
            return Some(*y);
        }
    }
    None
}

// The fact of the need at a place, if its candidate is kept and one that is kept serves it.
fn served_fact(judged: &Judged<'_>, kept: &[bool], place: usize) -> Option<ServedFact>
    requires parts { HasParts judged.now }
    requires kept { length kept.now ≡ judged.now.system.size }
    requires place { place < length judged.now.system.needs }
    ensures some { IfSome result (λ f. IsServedAt judged.now kept.now place f) }
    ensures none { IfNone result (HasNoServer judged.now kept.now place) }
{
    let need = &judged.system.needs()[place];
    if !kept[need.of as usize] {
        return None;
    }
    let by = first_kept(kept, &need.any)?;
    let stated = item_at(judged.needs.as_slice(), place);
    let ids = judged.ids.as_slice();
    Some(ServedFact {
        id: ids[need.of as usize],
        kind: stated.kind,
        needed: stated.id,
        by: ids[by as usize],
    })
}

/// Each need of a kept candidate, with the first kept candidate that serves it.
pub(crate) fn served_facts(
    alloc: Global,
    judged: &Judged<'_>,
    kept: &[bool],
) -> Result<Vec<ServedFact>, AllocError>
    requires parts { HasParts judged.now }
    requires kept { length kept.now ≡ judged.now.system.size }
    ensures { IfOk result (λ facts. AreServedFacts judged.now kept.now (length judged.now.system.needs) facts.items) }
{
    let mut facts = Vec::new(alloc);
    for place in 0..judged.needs.len() {
        let Some(fact) = served_fact(judged, kept, place) else {
            continue;
        };
        facts.push(fact)?;
    }
    Ok(facts)
}
