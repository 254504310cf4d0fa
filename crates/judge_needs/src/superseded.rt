//! The ids that each candidate supersedes, among those with a need that a superseder serves. Usually these are only few
//! of the ids that the candidate supersedes. The candidates are gone through by rising ids, and usually supersede lower
//! ones. What the lower ones supersede is then known already, and is not searched for again.
ghost use Rattle.std.specs.Prelude.{◌≡◌, ◌↔◌, ◌∷◌, [], All, Contains, IfOk, OnOk, map, filter};
ghost use Rattle.terms.specs.Types.{Id as AnId};
ghost use Rattle.terms.specs.Lookups.{is_in};
ghost use Rattle.terms.specs.Needs.{takes_superseder};
ghost use Rattle.judge_system.specs.declared.stated.RequisiteOf.{RequisiteOf as ANeed};
ghost use Rattle.sysmods.specs.Choices.{choice};
ghost use Rattle.judge_needs.specs.Closures.{AddsBelow, AreEnough, IsClosure, SupersedesOne};
ghost use Rattle.judge_needs.specs.Pairs.{AreSuperseded};

use crate::bypassed::add_pairs;
use fields::{Id, IdList};
use judge_system::RequisiteOf;
use sorted::{Keyed, Table};
use std::alloc::{AllocError, Global};
use sysmods::VerChoice;

/// The needed ids that a SYSMOD supersedes.
#[derive(Drop)]
pub(crate) struct Closure {
    pub(crate) id: Id,
    pub(crate) ids: IdList,
}

impl Keyed for Closure {
    type Key = Id;

    ghost key_of = { λ closure. closure.id };

    fn key(&self) -> Id {
        self.id
    }
}

// The ids with a need that a superseder serves.
fn needed_ids(alloc: Global, needs: &[RequisiteOf]) -> Result<Vec<Id>, AllocError>
    ensures { IfOk result (λ ids. ids.items
        ≡ map (λ (w : ANeed). w.id) (filter (λ (w : ANeed). takes_superseder w.kind) needs.now)) }
{
    needs
        .iter()
        .filter(|need| need.kind.takes_superseder())
        .map(|need| need.id)
        .collect(alloc)
}

// Those of the ids that are needed.
fn needed_among(alloc: Global, needed: &IdList, ids: &[Id]) -> Result<Vec<Id>, AllocError>
    ensures { IfOk result (λ found. found.items ≡ filter (is_in needed.now) ids.now) }
{
    ids.iter()
        .filter(|id| needed.contains(**id))
        .copied()
        .collect(alloc)
}

// The highest of the named ids, and those that it does not name in SUP itself. Together they supersede all that any
// named id supersedes. In cumulative service the highest id names all others, so only one id is left.
fn sufficient_ids(alloc: Global, vers: &VerChoice<'_>, named: &[Id]) -> Result<Vec<Id>, AllocError>
    ensures { IfOk result (λ some. AreEnough (choice vers.now) named.now some.items) }
{
    let Some(highest) = named.last() else {
        return Ok(Vec::new(alloc));
    };
    let Some(ver) = vers.ver(*highest) else {
        return Vec::from_slice(alloc, named);
    };
    named
        .iter()
        .filter(|id| **id == *highest || !ver.sup.contains(**id))
        .copied()
        .collect(alloc)
}

// Appends the needed ids that this SYSMOD supersedes. They are searched for only if `known` does not have them.
fn append_needed_superseded(
    alloc: Global,
    vers: &VerChoice<'_>,
    needed: &IdList,
    known: &Table<Closure>,
    id: Id,
    found: &mut Vec<Id>,
) -> Result<(), AllocError>
    requires { All (IsClosure (choice vers.now) needed.now) known.now }
    ensures { OnOk result (AddsBelow (choice vers.now) needed.now id found.old.items found.new.items) }
{
    match known.get(id) {
        Some(closure) => found.extend_from_slice(closure.ids.as_slice()),
        None => {
            let all = vers.sup_all(alloc, id)?;
            let asked = needed_among(alloc, needed, all.as_slice())?;
            found.extend_from_slice(asked.as_slice())
        }
    }
}

// The needed ids that a SYSMOD supersedes: those that it names in SUP, and those that these supersede.
fn needed_superseded(
    alloc: Global,
    vers: &VerChoice<'_>,
    needed: &IdList,
    known: &Table<Closure>,
    id: Id,
) -> Result<IdList, AllocError>
    requires { All (IsClosure (choice vers.now) needed.now) known.now }
    ensures { IfOk result (λ ids. (z : AnId) → Contains ids z ↔ SupersedesOne (choice vers.now) needed.now id z) }
{
    let named = vers.sup(id);
    let mut found = needed_among(alloc, needed, named)?;
    let enough = sufficient_ids(alloc, vers, named)?;
    for other in enough.as_slice() {
        append_needed_superseded(alloc, vers, needed, known, *other, &mut found)?;
    }
    Ok(IdList::from_vec(found))
}

/// Each candidate with each id that it supersedes, directly or through others, among those with a need that a
/// superseder serves.
pub fn superseded_pairs(
    alloc: Global,
    vers: &VerChoice<'_>,
    ids: &IdList,
    needs: &[RequisiteOf],
) -> Result<Vec<(Id, Id)>, AllocError>
    ensures { IfOk result (λ pairs. AreSuperseded (choice vers.now) needs.now ids.now pairs.items) }
{
    let needed = IdList::from_vec(needed_ids(alloc, needs)?);
    if needed.is_empty() {
        return Ok(Vec::new(alloc));
    }
    let mut known = Table::new(alloc);
    let mut pairs = Vec::new(alloc);
    for id in ids.as_slice() {
        let superseded = needed_superseded(alloc, vers, &needed, &known, *id)?;
        add_pairs(&mut pairs, *id, superseded.as_slice())?;
        known.push_last(Closure {
            id: *id,
            ids: superseded,
        })?;
    }
    Ok(pairs)
}
