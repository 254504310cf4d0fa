//! GROUPEXTEND without APARs or USERMODs.

use crate::carried::{CarriedOperand, CarriedValue, has_word};
use crate::command_remarks::CommandRemarks;
use crate::lists::{MOST_MEMBERS, has_member, push_if_absent};
use crate::operand_context::OperandContext;
use intake_asked::KnownSysmod;
use intake_cards::{Deed, RemarkReason};
use intake_read::list_members;
use std::alloc::{AllocError, Global};
use terms::Kind;

/// A member of GROUPEXTEND that keeps SYSMODs of a type out.
#[derive(Clone, Copy, Debug)]
struct KindExclusion {
    member: &'static [u8],
    kind: Kind,
    /// The operand that chooses all SYSMODs of the type, and so contradicts the member.
    choosing: &'static [u8],
}

const EXCLUSIONS: &[KindExclusion] = &[
    KindExclusion {
        member: b"NOAPARS",
        kind: Kind::Apar,
        choosing: b"APARS",
    },
    KindExclusion {
        member: b"NOUSERMODS",
        kind: Kind::Usermod,
        choosing: b"USERMODS",
    },
];

/// Adds to EXCLUDE the known SYSMODs of each type that GROUPEXTEND keeps out, except those that SELECT or GROUP names.
/// Remarks refuse a member that keeps out no type, one that contradicts another operand, one for which no list of known
/// SYSMODs is given, and an EXCLUDE that gets too long.
pub(crate) fn exclude_kinds(
    alloc: Global,
    remarks: &mut CommandRemarks,
    context: &OperandContext<'_>,
    carried: &mut Vec<CarriedOperand>,
) -> Result<(), AllocError> {
    let mut ids: Vec<Vec<u8>> = Vec::new(alloc);
    for member in &list_members(alloc, context.operand.text())? {
        let member = *member;
        let Some(exclusion) = EXCLUSIONS
            .iter()
            .find(|exclusion| exclusion.member == member)
        else {
            context.refuse(remarks, member, RemarkReason::NoOperand)?;
            continue;
        };
        if has_word(carried.as_slice(), exclusion.choosing) {
            context.refuse(remarks, member, RemarkReason::Contradiction)?;
        }
        let Some(known) = context.known_sysmods() else {
            context.refuse_unknown(alloc, remarks, member)?;
            continue;
        };
        context.remark(remarks, member, Deed::Carried, RemarkReason::KnownExcluded)?;
        append_ids_of_kind(alloc, known, exclusion.kind, carried.as_slice(), &mut ids)?;
    }
    add_to_exclude(alloc, carried, ids)?;
    if has_long_exclude(carried.as_slice()) {
        context.refuse(remarks, b"", RemarkReason::LongList)?;
    }
    Ok(())
}

// Appends the ids of the known SYSMODs of the type, except those that SELECT or GROUP names.
fn append_ids_of_kind(
    alloc: Global,
    known: &[KnownSysmod],
    kind: Kind,
    carried: &[CarriedOperand],
    ids: &mut Vec<Vec<u8>>,
) -> Result<(), AllocError> {
    for sysmod in known {
        let id = sysmod.id.as_bytes();
        if sysmod.kind == kind && !is_selected(carried, id) {
            push_if_absent(alloc, ids, id)?;
        }
    }
    Ok(())
}

// Whether SELECT or GROUP names the id.
fn is_selected(carried: &[CarriedOperand], id: &[u8]) -> bool {
    carried.iter().any(|operand| operand.is_select_or_group() && has_member(operand.list(), id))
}

// Adds the ids to EXCLUDE, which is appended if the command has none.
fn add_to_exclude(
    alloc: Global,
    carried: &mut Vec<CarriedOperand>,
    ids: Vec<Vec<u8>>,
) -> Result<(), AllocError> {
    for operand in carried.iter_mut() {
        match &mut operand.value {
            CarriedValue::List(excluded) if operand.word == b"EXCLUDE".as_slice() => {
                for id in &ids {
                    push_if_absent(alloc, excluded, id.as_slice())?;
                }
                return Ok(());
            }
            _ => {}
        }
    }
    if !ids.is_empty() {
        carried.push(CarriedOperand {
            word: b"EXCLUDE",
            value: CarriedValue::List(ids),
        })?;
    }
    Ok(())
}

// Whether EXCLUDE has more members than a list may have.
fn has_long_exclude(carried: &[CarriedOperand]) -> bool {
    carried.iter().any(|operand| operand.word == b"EXCLUDE".as_slice()
        && operand.list().len() > MOST_MEMBERS)
}
