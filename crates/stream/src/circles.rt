//! SYSMODs that go on only together: by PRE and REQ each of them requires each other one, directly or through others. A
//! requisite that a SYSMOD of the stream supersedes does not count, because that SYSMOD serves it too.
use crate::first_vers::is_in_stream;
use fields::{Id, IdList};
use indexmap::{IndexMap, IndexSet};
use std::alloc::{AllocError, Global};
use sysmods::VerChoice;

/// For each id the ids to which its edges lead.
type Ends = IndexMap<Id, Vec<Id>>;

/// Which SYSMOD requires which, and the other way round.
#[derive(Drop)]
struct Needs {
    of: Ends,
    by: Ends,
}

// The ids that SYSMODs of the stream name in SUP.
fn superseded_ids(
    alloc: Global,
    vers: &VerChoice<'_>,
    ids: &[Id],
) -> Result<IndexSet<Id>, AllocError> {
    let mut superseded = IndexSet::new(alloc);
    for id in ids {
        for other in vers.sup(*id) {
            superseded.insert(*other)?;
        }
    }
    Ok(superseded)
}

// Adds an edge.
fn add_end(alloc: Global, ends: &mut Ends, from: Id, to: Id) -> Result<(), AllocError> {
    match ends.get_mut(&from) {
        Some(list) => list.push(to)?,
        None => {
            ends.insert(from, vec![in alloc; to]?)?;
        }
    }
    Ok(())
}

// Adds the edges of these requisites of the SYSMOD, as far as they are in the stream and nothing supersedes them.
fn add_needs(
    alloc: Global,
    vers: &VerChoice<'_>,
    superseded: &IndexSet<Id>,
    id: Id,
    requisites: &[Id],
    needs: &mut Needs,
) -> Result<(), AllocError> {
    for other in requisites {
        if *other != id && is_in_stream(vers, *other) && !superseded.contains(other) {
            add_end(alloc, &mut needs.of, id, *other)?;
            add_end(alloc, &mut needs.by, *other, id)?;
        }
    }
    Ok(())
}

// Adds the edges of what the SYSMOD names in PRE and REQ.
fn add_needs_of(
    alloc: Global,
    vers: &VerChoice<'_>,
    superseded: &IndexSet<Id>,
    id: Id,
    needs: &mut Needs,
) -> Result<(), AllocError> {
    if let Some(ver) = vers.ver(id) {
        add_needs(alloc, vers, superseded, id, ver.pre.as_slice(), needs)?;
        add_needs(alloc, vers, superseded, id, ver.req.as_slice(), needs)?;
    }
    Ok(())
}

// What each SYSMOD of the stream requires that only one SYSMOD serves.
fn all_needs(alloc: Global, vers: &VerChoice<'_>, ids: &[Id]) -> Result<Needs, AllocError> {
    let superseded = superseded_ids(alloc, vers, ids)?;
    let mut needs = Needs {
        of: IndexMap::new(alloc),
        by: IndexMap::new(alloc),
    };
    for id in ids {
        add_needs_of(alloc, vers, &superseded, *id, &mut needs)?;
    }
    Ok(needs)
}

// The ends of the edges of the id.
fn ends_of<'a>(ends: &'a Ends, id: &Id) -> &'a [Id] {
    match ends.get(id) {
        Some(list) => list.as_slice(),
        None => &[],
    }
}

// For each id of the set, how many of its edges lead into the set.
fn counts_of(
    alloc: Global,
    ends: &Ends,
    among: &IndexSet<Id>,
) -> Result<IndexMap<Id, usize>, AllocError> {
    let mut counts = IndexMap::new(alloc);
    for id in among.as_slice() {
        let count = ends_of(ends, id)
            .iter()
            .filter(|end| among.contains(*end))
            .count();
        counts.insert(*id, count)?;
    }
    Ok(counts)
}

// Takes one from each of these counts. Ids that have none left are to be looked at.
fn count_down(
    ids: &[Id],
    counts: &mut IndexMap<Id, usize>,
    open: &mut Vec<Id>,
) -> Result<(), AllocError> {
    for id in ids {
        let Some(count) = counts.get_mut(id) else {
            continue;
        };
        if *count == 1 {
            open.push(*id)?;
        }
        *count = count.saturating_sub(1);
    }
    Ok(())
}

// The ids that have no edges left.
fn ended_ids(alloc: Global, counts: &IndexMap<Id, usize>) -> Result<Vec<Id>, AllocError> {
    let mut ended = Vec::new(alloc);
    for (id, count) in counts.iter() {
        if *count == 0 {
            ended.push(*id)?;
        }
    }
    Ok(ended)
}

// The ids that have edges left.
fn going_ids(alloc: Global, counts: &IndexMap<Id, usize>) -> Result<IndexSet<Id>, AllocError> {
    let mut going = IndexSet::new(alloc);
    for (id, count) in counts.iter() {
        if *count > 0 {
            going.insert(*id)?;
        }
    }
    Ok(going)
}

// Takes away the edges to each id that has none left, until all that are left lead on.
fn take_ended(
    alloc: Global,
    back: &Ends,
    counts: &mut IndexMap<Id, usize>,
) -> Result<(), AllocError> {
    let mut ended = ended_ids(alloc, counts)?;
    for _turn in 0..counts.len() {
        let Some(id) = ended.pop() else {
            break;
        };
        count_down(ends_of(back, &id), counts, &mut ended)?;
    }
    Ok(())
}

// Those ids of the set from which one can go on along the edges without end. `back` has the edges turned round.
fn without_end(
    alloc: Global,
    ends: &Ends,
    back: &Ends,
    among: &IndexSet<Id>,
) -> Result<IndexSet<Id>, AllocError> {
    let mut counts = counts_of(alloc, ends, among)?;
    take_ended(alloc, back, &mut counts)?;
    going_ids(alloc, &counts)
}

// Adds the ends of the id's edges that are in the set.
fn add_ends(
    ends: &Ends,
    among: &IndexSet<Id>,
    id: &Id,
    seen: &mut IndexSet<Id>,
) -> Result<(), AllocError> {
    for end in ends_of(ends, id) {
        if among.contains(end) {
            seen.insert(*end)?;
        }
    }
    Ok(())
}

// The ids of the set to which the id leads.
fn reached(
    alloc: Global,
    ends: &Ends,
    among: &IndexSet<Id>,
    id: &Id,
) -> Result<IndexSet<Id>, AllocError> {
    let mut seen = IndexSet::new(alloc);
    add_ends(ends, among, id, &mut seen)?;
    for place in 0..among.len() {
        let Some(next) = seen.get_index(place).copied() else {
            break;
        };
        add_ends(ends, among, &next, &mut seen)?;
    }
    Ok(seen)
}

// The circle of the id: the ids to which it leads and that lead to it.
fn circle_of(
    alloc: Global,
    needs: &Needs,
    among: &IndexSet<Id>,
    id: &Id,
) -> Result<Vec<Id>, AllocError> {
    let ahead = reached(alloc, &needs.of, among, id)?;
    let behind = reached(alloc, &needs.by, among, id)?;
    ahead
        .iter()
        .filter(|other| behind.contains(*other))
        .copied()
        .collect(alloc)
}

// Adds the ids to the set.
fn add_all(ids: &[Id], set: &mut IndexSet<Id>) -> Result<(), AllocError> {
    for id in ids {
        set.insert(*id)?;
    }
    Ok(())
}

// Those of the ids that are in circles, or lie between two of them.
fn among_circles(alloc: Global, needs: &Needs, ids: &[Id]) -> Result<IndexSet<Id>, AllocError> {
    let mut all = IndexSet::new(alloc);
    add_all(ids, &mut all)?;
    let ahead = without_end(alloc, &needs.of, &needs.by, &all)?;
    without_end(alloc, &needs.by, &needs.of, &ahead)
}

// The circles in this set, each once.
fn circles_among(
    alloc: Global,
    needs: &Needs,
    among: &IndexSet<Id>,
) -> Result<Vec<IdList>, AllocError> {
    let mut told = IndexSet::new(alloc);
    let mut circles = Vec::new(alloc);
    for id in among.as_slice() {
        if told.contains(id) {
            continue;
        }
        let circle = circle_of(alloc, needs, among, id)?;
        add_all(circle.as_slice(), &mut told)?;
        if !circle.is_empty() {
            circles.push(IdList::from_vec(circle))?;
        }
    }
    Ok(circles)
}

/// The circles of SYSMODs of the stream that go on only together, each once.
pub(crate) fn all_circles(
    alloc: Global,
    vers: &VerChoice<'_>,
    ids: &[Id],
) -> Result<Vec<IdList>, AllocError> {
    let needs = all_needs(alloc, vers, ids)?;
    let among = among_circles(alloc, &needs, ids)?;
    circles_among(alloc, &needs, &among)
}
