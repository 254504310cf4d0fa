//! The candidates that are dropped.
ghost use Rattle.std.specs.Prelude.{◌≡◌, ◌<◌, [], All, IfOk, length, map, slice_index_or};
ghost use Rattle.terms.specs.Beside.{Beside};
ghost use Rattle.smpe_certificate.specs.Views.{dropped_view};
ghost use Rattle.judge_system.specs.Judged.{HasParts};
ghost use Rattle.smpe_certificate.specs.ByNumber.{AreServers, IsFactOf};

use crate::elimination::Dropped;
use crate::facts::DroppedFact;
use fields::Id;
use judge_system::{Judged, item_at};
use std::alloc::{AllocError, Global};

// The ids at the places, in their order.
fn ids_at(alloc: Global, ids: &[Id], places: &[u32]) -> Result<Vec<Id>, AllocError>
    requires { All (λ m. m < length ids.now) places.now }
    ensures { IfOk result (λ found. found.items ≡ map (λ m. slice_index_or ids.now m []) places.now) }
{
    let mut found = Vec::new(alloc);
    for place in places {
        found.push(ids[*place as usize])?;
    }
    Ok(found)
}

// The candidates that could serve the need at a place.
fn servers_at(alloc: Global, judged: &Judged<'_>, place: usize) -> Result<Vec<Id>, AllocError>
    requires parts { HasParts judged.now }
    requires place { place < length judged.now.system.needs }
    ensures { IfOk result (λ servers. AreServers judged.now place servers.items) }
{
    let need = &judged.system.needs()[place];
    ids_at(alloc, judged.ids.as_slice(), &need.any)
}

// The fact of one candidate that is dropped.
fn dropped_fact(
    alloc: Global,
    judged: &Judged<'_>,
    dropped: Dropped,
) -> Result<DroppedFact, AllocError>
    requires parts { HasParts judged.now }
    requires candidate { dropped.candidate < judged.now.system.size }
    requires need { dropped.need < length judged.now.system.needs }
    ensures { IfOk result (λ f. IsFactOf judged.now dropped (dropped_view f)) }
{
    let servers = servers_at(alloc, judged, dropped.need)?;
    let stated = item_at(judged.needs.as_slice(), dropped.need);
    let id = item_at(judged.ids.as_slice(), dropped.candidate as usize);
    Ok(DroppedFact {
        id,
        kind: stated.kind,
        needed: stated.id,
        servers,
    })
}

/// The facts of the candidates that are dropped, in their order.
pub(crate) fn dropped_facts(
    alloc: Global,
    judged: &Judged<'_>,
    dropped: &[Dropped],
) -> Result<Vec<DroppedFact>, AllocError>
    requires parts { HasParts judged.now }
    requires within { All (λ d. (d.candidate < judged.now.system.size)
        × (d.need < length judged.now.system.needs)) dropped.now }
    ensures { IfOk result (λ facts. Beside (λ n d f. IsFactOf judged.now d f) dropped.now
        (map dropped_view facts.items)) }
{
    let mut facts = Vec::new(alloc);
    for i in 0..dropped.len() {
        facts.push(dropped_fact(alloc, judged, item_at(dropped, i))?)?;
    }
    Ok(facts)
}
