//! Lists of ids, source ids, zones, reasons and classes.

use crate::command_remarks::CommandRemarks;
use crate::operand_context::OperandContext;
use crate::spelling::OperandForm;
use intake_asked::KnownSysmod;
use intake_cards::{Deed, RemarkReason};
use intake_read::list_members;
use std::alloc::{AllocError, Global};

/// The most members that a list may have.
pub(crate) const MOST_MEMBERS: usize = 1000;

/// The members of the operand's list, each once. Remarks refuse members that have not the form, and a list that has no
/// members, or more than it may have.
pub(crate) fn carry_list(
    alloc: Global,
    remarks: &mut CommandRemarks,
    context: &OperandContext<'_>,
    form: OperandForm,
) -> Result<Vec<Vec<u8>>, AllocError> {
    let list = context.operand.text();
    let stated = list_members(alloc, list)?;
    if stated.is_empty() {
        context.refuse(remarks, b"", RemarkReason::Missing)?;
    }
    let mut members: Vec<Vec<u8>> = Vec::new(alloc);
    for member in &stated {
        let member = *member;
        if form == OperandForm::Sources && member.ends_with(b"*") {
            append_known_sources(alloc, remarks, context, member, &mut members)?;
        } else if !form.takes_member(member) {
            context.refuse(remarks, member, RemarkReason::BadValue)?;
        } else if has_member(&members, member) {
            context.remark(remarks, member, Deed::Dropped, RemarkReason::Twice)?;
        } else {
            members.push(Vec::from_slice(alloc, member)?)?;
        }
    }
    if members.len() > MOST_MEMBERS {
        context.refuse(remarks, b"", RemarkReason::LongList)?;
    }
    if matches!(form, OperandForm::Source | OperandForm::Zone) && members.len() > 1 {
        context.refuse(remarks, list, RemarkReason::BadValue)?;
    }
    Ok(members)
}

// Appends the known source ids that begin as the member does, up to its asterisk. A remark refuses the member if there
// is none, or if no SYSMODs are known.
fn append_known_sources(
    alloc: Global,
    remarks: &mut CommandRemarks,
    context: &OperandContext<'_>,
    member: &[u8],
    members: &mut Vec<Vec<u8>>,
) -> Result<(), AllocError> {
    let Some(known) = context.known_sources() else {
        return context.refuse_unknown(alloc, remarks, member);
    };
    let prefix = member.strip_suffix(b"*").unwrap_or(member);
    if append_sources_with_prefix(alloc, known, prefix, members)? {
        context.remark(remarks, member, Deed::Carried, RemarkReason::KnownSources)
    } else {
        context.refuse(remarks, member, RemarkReason::NoSource)
    }
}

// Appends the source ids of the known SYSMODs that begin with the prefix. Returns whether there is one.
fn append_sources_with_prefix(
    alloc: Global,
    known: &[KnownSysmod],
    prefix: &[u8],
    members: &mut Vec<Vec<u8>>,
) -> Result<bool, AllocError> {
    let mut has_any = false;
    for sysmod in known {
        for source in &sysmod.sources {
            let source = source.as_bytes();
            if source.starts_with(prefix) {
                has_any = true;
                push_if_absent(alloc, members, source)?;
            }
        }
    }
    Ok(has_any)
}

/// Whether the list has the member.
pub(crate) fn has_member(members: &[Vec<u8>], member: &[u8]) -> bool {
    members.iter().any(|other| other.as_slice() == member)
}

/// Appends the member, unless the list has it.
pub(crate) fn push_if_absent(
    alloc: Global,
    members: &mut Vec<Vec<u8>>,
    member: &[u8],
) -> Result<(), AllocError> {
    if !has_member(members, member) {
        members.push(Vec::from_slice(alloc, member)?)?;
    }
    Ok(())
}
