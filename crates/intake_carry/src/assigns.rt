//! `++ASSIGN`.
ghost use Rattle.std.specs.Prelude.{◌≡◌, ◌++◌, OnOk, map};
ghost use Rattle.mcs.specs.declared.file.Item.TheVariants as item;

use crate::sysmods::stated_text;
use fields::{Id, Source};
use intake_cards::{Deed, RemarkReason, Remarks, Subject};
use intake_holds::has_faulty_operand;
use intake_read::{WideAssign, WideFile, tell_faulty_operands};
use mcs::{Assign, Item};
use std::alloc::{AllocError, Global};
use std::collections::BTreeSet;

/// The most ids that an assignment may have.
const MOST_IDS: usize = 1000;

/// The source id of the SYSMODs with stand-ins.
const STAND_IN_SOURCE: &[u8] = b"STANDIN";

// Appends assignments of the ids to the source, each with at most `MOST_IDS` ids.
fn push_assigns(
    alloc: Global,
    assigns: &mut Vec<Assign>,
    source: Source,
    ids: &[Id],
) -> Result<(), AllocError> {
    for part in ids.chunks(MOST_IDS) {
        assigns.push(Assign {
            source,
            to: Vec::from_slice(alloc, part)?,
        })?;
    }
    Ok(())
}

// The ids in their order, each once. Remarks say which texts are no ids, and which ids are named again.
fn distinct_ids(
    alloc: Global,
    remarks: &mut Remarks,
    subject: &Subject<'_>,
    stated: &[Vec<u8>],
) -> Result<Vec<Id>, AllocError> {
    let mut ids = Vec::with_capacity(alloc, stated.len())?;
    let mut seen = BTreeSet::new(alloc);
    for text in stated {
        let Some(id) = Id::read(text.as_slice()) else {
            remarks.tell_left_out(alloc, subject, b"TO", RemarkReason::BadId, text.as_slice())?;
            continue;
        };
        if seen.insert(id)? {
            ids.push(id)?;
        } else {
            remarks.tell_carried(alloc, subject, b"TO", RemarkReason::Double, text.as_slice())?;
        }
    }
    Ok(ids)
}

// Whether one of the texts is no id.
fn has_bad_id(stated: &[Vec<u8>]) -> bool {
    stated
        .iter()
        .any(|text| Id::read(text.as_slice()).is_none())
}

// Whether the `++ASSIGN` has all its operands, and none of them is faulty. A remark leaves it out for each operand that
// is missing or faulty.
fn has_all_operands(
    alloc: Global,
    remarks: &mut Remarks,
    subject: &Subject<'_>,
    stated: &WideAssign,
) -> Result<bool, AllocError> {
    let faulty = stated.faulty.as_slice();
    tell_faulty_operands(alloc, remarks, subject, faulty, Deed::LeftOut)?;
    let lacks_source = subject.id.is_empty() && !has_faulty_operand(faulty, b"SOURCEID");
    if lacks_source {
        let reason = if stated.source.is_some() {
            RemarkReason::NoValue
        } else {
            RemarkReason::Missing
        };
        remarks.tell_left_out(alloc, subject, b"SOURCEID", reason, b"")?;
    }
    let lacks_ids = stated.to.is_empty() && !has_faulty_operand(faulty, b"TO");
    if lacks_ids {
        remarks.tell_left_out(alloc, subject, b"TO", RemarkReason::Missing, b"")?;
    }
    Ok(faulty.is_empty() && !lacks_source && !lacks_ids)
}

// The source id that an `++ASSIGN` states, read in upper case. Returns `None`, with a remark, if the text is no source
// id. One with periods is a long source id of SMP/E's, which is dropped.
fn read_source(
    alloc: Global,
    remarks: &mut Remarks,
    subject: &Subject<'_>,
    stated: &[u8],
) -> Result<Option<Source>, AllocError> {
    let upper = stated.to_ascii_uppercase(alloc)?;
    let Some(source) = Source::read(upper.as_slice()) else {
        if stated.contains(&b'.') {
            remarks.tell_dropped(alloc, subject, b"", RemarkReason::LongSource, b"")?;
        } else {
            remarks.tell_left_out(alloc, subject, b"SOURCEID", RemarkReason::BadValue, stated)?;
        }
        return Ok(None);
    };
    if upper.as_slice() != stated {
        remarks.tell_carried(alloc, subject, b"SOURCEID", RemarkReason::LowerCase, b"")?;
    }
    Ok(Some(source))
}

// Appends the assignments of an `++ASSIGN`, if none of its operands is missing or faulty. Remarks say what is left out
// or changed.
fn carry_assign(
    alloc: Global,
    remarks: &mut Remarks,
    assigns: &mut Vec<Assign>,
    stated: &WideAssign,
) -> Result<(), AllocError> {
    let stated_source = stated_text(&stated.source);
    let subject = Subject {
        place: stated.place,
        word: b"ASSIGN",
        id: stated_source,
    };
    if !has_all_operands(alloc, remarks, &subject, stated)? {
        return Ok(());
    }
    let Some(source) = read_source(alloc, remarks, &subject, stated_source)? else {
        return Ok(());
    };
    let ids = distinct_ids(alloc, remarks, &subject, stated.to.as_slice())?;
    if ids.len() > MOST_IDS {
        remarks.tell_carried(alloc, &subject, b"TO", RemarkReason::Split, b"")?;
    }
    let before = assigns.len();
    push_assigns(alloc, assigns, source, ids.as_slice())?;
    if has_bad_id(stated.to.as_slice()) {
        let made = assigns.len().saturating_sub(before);
        remarks.cut_assigns = remarks.cut_assigns.saturating_add(made);
    }
    Ok(())
}

/// Carries the assignments of the files, and adds those of the source id STANDIN to the SYSMODs with stand-ins. Remarks
/// say what is left out or changed.
pub(crate) fn carry_assigns(
    alloc: Global,
    remarks: &mut Remarks,
    files: &[WideFile],
) -> Result<Vec<Assign>, AllocError> {
    let mut assigns = Vec::new(alloc);
    for file in files {
        for stated in file.assigns.iter() {
            carry_assign(alloc, remarks, &mut assigns, stated)?;
        }
    }
    if let Some(source) = Source::read(STAND_IN_SOURCE) {
        push_assigns(
            alloc,
            &mut assigns,
            source,
            remarks.with_stand_ins.as_slice(),
        )?;
    }
    Ok(assigns)
}

/// Adds the assignments after the other items of PTFIN.
pub(crate) fn append_assigns(items: &mut Vec<Item>, assigns: Vec<Assign>) -> Result<(), AllocError>
    ensures { OnOk result (items.new.items ≡ items.old.items ++ map item.Assign assigns.items) }
{
    for assign in assigns {
        items.push(Item::Assign(assign))?;
    }
    Ok(())
}
