//! The ids that SELECT, GROUP, EXCLUDE and GROUPEXTEND of a command name.
ghost use Rattle.std.specs.Prelude.{◌≡◌, [], IfOk, map, filter, not, if◌then◌else◌};
ghost use Rattle.terms.specs.Lookups.{is_in};
ghost use Rattle.intake_asked.specs.Words.{selected, grouped, excluded, kept_out, is_kept_out, listed, stands_alone};
ghost use Rattle.intake_asked.specs.Words.{select_names, group_names, groupextend_names};

use crate::known::KnownSysmod;
use crate::operands::{has_operand_without_list, members_of_operands};
use intake_read::WideOperand;
use rec80::is_among;
use std::alloc::{AllocError, Global};
use terms::Kind;

/// SELECT and its abbreviation.
pub(crate) fn select_names() -> &'static [&'static [u8]]
    ensures { map (λ name. name.now) result.now ≡ select_names }
{
    &[b"SELECT", b"S"]
}

// GROUP and its abbreviation.
fn group_names() -> &'static [&'static [u8]]
    ensures { map (λ name. name.now) result.now ≡ group_names }
{
    &[b"GROUP", b"G"]
}

/// GROUPEXTEND and its abbreviation.
pub(crate) fn groupextend_names() -> &'static [&'static [u8]]
    ensures { map (λ name. name.now) result.now ≡ groupextend_names }
{
    &[b"GROUPEXTEND", b"GEXT"]
}

/// The ids of SELECT, or none if a GROUP without a list takes them.
pub(crate) fn selected_ids(
    alloc: Global,
    operands: &[WideOperand],
) -> Result<Vec<&[u8]>, AllocError>
    ensures { IfOk result (λ ids. map (λ id. id.now) ids.items ≡ selected operands.now) }
{
    if has_operand_without_list(group_names(), operands) {
        return Ok(Vec::new(alloc));
    }
    members_of_operands(alloc, select_names(), operands)
}

// The ids of SELECT if a GROUP without a list takes them, or none.
fn ids_of_grouped_select(alloc: Global, operands: &[WideOperand]) -> Result<Vec<&[u8]>, AllocError>
    ensures { IfOk result (λ ids. map (λ id. id.now) ids.items
        ≡ (if stands_alone group_names operands.now then listed select_names operands.now else [])) }
{
    if !has_operand_without_list(group_names(), operands) {
        return Ok(Vec::new(alloc));
    }
    members_of_operands(alloc, select_names(), operands)
}

/// The ids of GROUP, with those that it takes from SELECT if it has no list.
pub(crate) fn grouped_ids(alloc: Global, operands: &[WideOperand]) -> Result<Vec<&[u8]>, AllocError>
    ensures { IfOk result (λ ids. map (λ id. id.now) ids.items ≡ grouped operands.now) }
{
    let mut ids = members_of_operands(alloc, group_names(), operands)?;
    let mut more = ids_of_grouped_select(alloc, operands)?;
    ids.append(&mut more)?;
    Ok(ids)
}

// Whether GROUPEXTEND with these members keeps SYSMODs of the kind out: NOAPARS and NOUSERMODS do.
fn is_kind_kept_out(members: &[&[u8]], kind: Kind) -> bool
    ensures { result ≡ is_kept_out (map (λ member. member.now) members.now) kind }
{
    match kind {
        Kind::Apar => is_among(members, b"NOAPARS"),
        Kind::Usermod => is_among(members, b"NOUSERMODS"),
        Kind::Function | Kind::Ptf => false,
    }
}

// The ids of the known SYSMODs of those kinds that GROUPEXTEND with these members keeps out.
fn ids_of_kept_out_kinds<'a>(
    alloc: Global,
    known: &'a [KnownSysmod],
    members: &[&[u8]],
) -> Result<Vec<&'a [u8]>, AllocError>
    ensures { IfOk result (λ ids. map (λ id. id.now) ids.items ≡ map (λ k. k.id)
        (filter (λ k. is_kept_out (map (λ member. member.now) members.now) k.kind) known.now)) }
{
    let mut ids = Vec::new(alloc);
    for sysmod in known {
        if !is_kind_kept_out(members, sysmod.kind) {
            continue;
        }
        ids.push(sysmod.id.as_bytes())?;
    }
    Ok(ids)
}

// The ids without those that are named.
fn without_named<'a>(
    alloc: Global,
    ids: &[&'a [u8]],
    named: &[&[u8]],
) -> Result<Vec<&'a [u8]>, AllocError>
    ensures { IfOk result (λ left. map (λ id. id.now) left.items
        ≡ filter (λ x. not (is_in (map (λ id. id.now) named.now) x)) (map (λ id. id.now) ids.now)) }
{
    let mut left = Vec::new(alloc);
    for id in ids {
        if is_among(named, *id) {
            continue;
        }
        left.push(*id)?;
    }
    Ok(left)
}

// The ids of the known SYSMODs that GROUPEXTEND keeps out: those of the kinds that its members name, except those that
// SELECT or GROUP names.
fn kept_out_ids<'a>(
    alloc: Global,
    known: &'a [KnownSysmod],
    operands: &[WideOperand],
) -> Result<Vec<&'a [u8]>, AllocError>
    ensures { IfOk result (λ ids. map (λ id. id.now) ids.items ≡ kept_out known.now operands.now) }
{
    let members = members_of_operands(alloc, groupextend_names(), operands)?;
    let ids = ids_of_kept_out_kinds(alloc, known, &members)?;
    let mut named = members_of_operands(alloc, select_names(), operands)?;
    let mut grouped = members_of_operands(alloc, group_names(), operands)?;
    named.append(&mut grouped)?;
    without_named(alloc, &ids, &named)
}

/// The ids that are excluded: those of EXCLUDE, and those that GROUPEXTEND keeps out.
pub(crate) fn excluded_ids<'a>(
    alloc: Global,
    known: &'a [KnownSysmod],
    operands: &'a [WideOperand],
) -> Result<Vec<&'a [u8]>, AllocError>
    ensures { IfOk result (λ ids. map (λ id. id.now) ids.items ≡ excluded known.now operands.now) }
{
    let mut ids = members_of_operands(alloc, &[b"EXCLUDE", b"E"], operands)?;
    let mut more = kept_out_ids(alloc, known, operands)?;
    ids.append(&mut more)?;
    Ok(ids)
}
