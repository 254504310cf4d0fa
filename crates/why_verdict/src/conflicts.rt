//! The conflicts of a candidate with the others of a report.
ghost use Rattle.std.specs.Prelude.{◌≡◌, ◌↔◌, ◌⊎◌, ◌++◌, [], ◌∷◌, map, IsTrue, IfOk, OnOk, if◌then◌else◌};
ghost use Rattle.std.specs.List.{flat_map};
ghost use Rattle.terms.specs.Beside.{Beside};
ghost use Rattle.terms.specs.Lookups.{is_in, changes_of};
ghost use Rattle.terms.specs.Choice.{npre_of};
ghost use Rattle.terms.specs.Over.{IsOver, owner, chain};
ghost use Rattle.sysmods.specs.Choices.{choice};
ghost use Rattle.zones.specs.Scopes.{setting_of};
ghost use Rattle.report.specs.Views.{line_view};
ghost use Rattle.why_verdict.specs.Conflicts.{clashing, deletion_of, deletions_by, IsApart, IsPartner, share_of};
ghost use Rattle.why_verdict.specs.Conflicts.{shares, clashes_with, AreConflicts};
ghost use Rattle.why_verdict.specs.declared.conflict.Conflict.TheVariants.{Forbids, ForbiddenBy};

use crate::conflict::{Apart, Conflict, Partner, SharedElement};
use crate::statuses::{clashing_ids, deleters};
use fields::Id;
use report::ReportLine;
use std::alloc::{AllocError, Global};
use sysmods::{GlobalZone, VerChoice};
use sysmods_values::ElemChange;
use zones::Scope;

// Whether the chain of FMIDs from the SYSMOD `id` contains `other`.
fn chain_contains(vers: &VerChoice<'_>, id: Id, other: Id) -> bool
    ensures { result ≡ is_in (chain vers.now.global.now (choice vers.now) id) other }
{
    vers.chain_contains_any(id, &[other])
}

// Whether the NPRE of the SYSMOD `id` names `other`.
fn forbids(vers: &VerChoice<'_>, id: Id, other: Id) -> bool
    ensures { result ≡ is_in (npre_of (choice vers.now) id) other }
{
    vers.npre(id).contains(&other)
}

// Adds the conflict if the condition holds.
fn push_conflict_if(
    condition: bool,
    conflict: Conflict,
    found: &mut Vec<Conflict>,
) -> Result<(), AllocError>
    ensures { OnOk result (found.new.items ≡ found.old.items ++ (if condition then conflict ∷ [] else [])) }
{
    if condition {
        found.push(conflict)?;
    }
    Ok(())
}

// Adds the conflict that the candidate `by` has `del` in DELETE, if the chain of the id contains `del`.
fn push_deletion(
    scope: &Scope<'_, '_>,
    id: Id,
    by: Id,
    del: Id,
    found: &mut Vec<Conflict>,
) -> Result<(), AllocError>
    ensures { OnOk result (found.new.items ≡ found.old.items ++ deletion_of (setting_of scope.now) id by del) }
{
    if chain_contains(scope.vers, id, del) {
        found.push(Conflict::Deletes { by, id: del })?;
    }
    Ok(())
}

// Adds a conflict for each id of the chain that the candidate `by` has in DELETE.
fn push_deletions(
    scope: &Scope<'_, '_>,
    id: Id,
    by: Id,
    found: &mut Vec<Conflict>,
) -> Result<(), AllocError>
    ensures { OnOk result (found.new.items ≡ found.old.items ++ deletions_by (setting_of scope.now) id by) }
{
    for del in scope.vers.del(by) {
        push_deletion(scope, id, by, *del, found)?;
    }
    Ok(())
}

// Whether one function owns the elements of both SYSMODs.
fn have_one_owner(vers: &VerChoice<'_>, x: Id, y: Id) -> bool
    ensures { IsTrue result ↔ (owner vers.now.global.now (choice vers.now) x
        ≡ owner vers.now.global.now (choice vers.now) y) }
{
    vers.owner(x) == vers.owner(y)
}

// Whether one of the two SYSMODs is over the other.
fn are_ordered(alloc: Global, vers: &VerChoice<'_>, x: Id, y: Id) -> Result<bool, AllocError>
    ensures { IfOk result (λ are. IsTrue are ↔ (IsOver (choice vers.now) x y ⊎ IsOver (choice vers.now) y x)) }
{
    if vers.over(alloc, x, y)? {
        return Ok(true);
    }
    vers.over(alloc, y, x)
}

// Why the two SYSMODs may not change the same element, or `None` if they may: one function owns the elements of both,
// and one of the two is over the other.
fn why_apart(
    alloc: Global,
    scope: &Scope<'_, '_>,
    x: Id,
    y: Id,
) -> Result<Option<Apart>, AllocError>
    ensures { IfOk result (λ apart. IsApart (setting_of scope.now) x y apart) }
{
    if !have_one_owner(scope.vers, x, y) {
        return Ok(Some(Apart::OtherOwner));
    }
    if are_ordered(alloc, scope.vers, x, y)? {
        return Ok(None);
    }
    Ok(Some(Apart::Unordered))
}

// The candidates with which the id clashes, each with the reason why the two may not change the same element, if there
// is one.
fn partners(
    alloc: Global,
    scope: &Scope<'_, '_>,
    lines: &[ReportLine],
    id: Id,
) -> Result<Vec<Partner>, AllocError>
    ensures { IfOk result (λ partners. Beside (λ n y p. IsPartner (setting_of scope.now) id y p)
        (clashing (map line_view lines.now) id) partners.items) }
{
    let others = clashing_ids(alloc, lines, id)?;
    let mut partners = Vec::new(alloc);
    for other in others.as_slice() {
        let apart = why_apart(alloc, scope, id, *other)?;
        partners.push(Partner { id: *other, apart })?;
    }
    Ok(partners)
}

// Adds the conflict about the element that the statement changes, if the candidate `with` changes that element too.
fn push_shared_element(
    global: &GlobalZone,
    with: Id,
    apart: Apart,
    change: &ElemChange,
    found: &mut Vec<Conflict>,
) -> Result<(), AllocError>
    ensures { OnOk result (found.new.items ≡ found.old.items ++ share_of global.now with apart change.now) }
{
    let elem_type = change.elem_type;
    let name = change.name;
    if global.has_change(with, elem_type, name) {
        found.push(Conflict::Shares(SharedElement {
            with,
            elem_type,
            name,
            apart,
        }))?;
    }
    Ok(())
}

// Adds a conflict for each element that the id and the candidate `with` both change.
fn push_shared_elements(
    scope: &Scope<'_, '_>,
    id: Id,
    with: Id,
    apart: Apart,
    found: &mut Vec<Conflict>,
) -> Result<(), AllocError>
    ensures { OnOk result (found.new.items ≡ found.old.items
        ++ flat_map (share_of scope.now.vers.now.global.now with apart) (changes_of scope.now.vers.now.global.now id)) }
{
    let global = scope.global();
    let changes = global.changes_of(id);
    for change in changes {
        push_shared_element(global, with, apart, change, found)?;
    }
    Ok(())
}

// Adds a conflict for each element that the id and its partner both change, if the two may not change the same element.
fn push_partner_elements(
    scope: &Scope<'_, '_>,
    id: Id,
    partner: &Partner,
    found: &mut Vec<Conflict>,
) -> Result<(), AllocError>
    ensures { OnOk result (found.new.items
        ≡ found.old.items ++ shares (setting_of scope.now) id partner.now.id partner.now.apart) }
{
    match partner.apart {
        Some(apart) => push_shared_elements(scope, id, partner.id, apart, found),
        None => Ok(()),
    }
}

// Adds the conflicts with a partner: by NPRE of either one, and by elements that both change.
fn push_clashes(
    scope: &Scope<'_, '_>,
    id: Id,
    partner: &Partner,
    found: &mut Vec<Conflict>,
) -> Result<(), AllocError>
    ensures { OnOk result (found.new.items ≡ found.old.items ++ clashes_with (setting_of scope.now) id partner.now) }
{
    let with = partner.id;
    push_conflict_if(
        forbids(scope.vers, id, with),
        Conflict::Forbids(with),
        found,
    )?;
    push_conflict_if(
        forbids(scope.vers, with, id),
        Conflict::ForbiddenBy(with),
        found,
    )?;
    push_partner_elements(scope, id, partner, found)
}

/// The conflicts of the id with the other candidates of a report with these lines, because of which the id fails J8 (a
/// DELETE takes out its chain) or J9 (it clashes with another candidate).
pub fn conflicts_of(
    alloc: Global,
    scope: &Scope<'_, '_>,
    lines: &[ReportLine],
    id: Id,
) -> Result<Vec<Conflict>, AllocError>
    ensures { IfOk result (λ found. AreConflicts (setting_of scope.now) (map line_view lines.now) id found.items) }
{
    let deleters = deleters(alloc, lines, id)?;
    let partners = partners(alloc, scope, lines, id)?;
    let mut found = Vec::new(alloc);
    for by in deleters.as_slice() {
        push_deletions(scope, id, *by, &mut found)?;
    }
    for partner in partners.as_slice() {
        push_clashes(scope, id, partner, &mut found)?;
    }
    Ok(found)
}
