//! The names of stand-ins, and which elements share one.

use fields::spelling::type_text;
use intake_cards::{RemarkReason, Remarks, StandIn, Subject};
use intake_read::{WideElement, WideFile};
use std::alloc::{AllocError, Global};
use std::cmp::Ordering;
use std::mem;
use terms::ElemType;

// Orders stand-ins by their names and types, and then by the words and names of their elements.
fn compare_stand_ins(first: &StandIn, second: &StandIn) -> Ordering {
    let words = first.word.as_slice().cmp(second.word.as_slice());
    let names = first.name.as_slice().cmp(second.name.as_slice());
    first
        .stand_in
        .cmp(&second.stand_in)
        .then(first.elem_type.cmp(second.elem_type))
        .then(words)
        .then(names)
}

// Whether both stand-ins have the same name and type.
fn have_same_name(first: &StandIn, second: &StandIn) -> bool {
    first.stand_in == second.stand_in && first.elem_type == second.elem_type
}

// Whether both stand-ins are for the same element.
fn are_for_same_element(first: &StandIn, second: &StandIn) -> bool {
    first.word.as_slice() == second.word.as_slice()
        && first.name.as_slice() == second.name.as_slice()
}

// Remarks that the stand-in has the name of another element too.
fn tell_shared_name(
    alloc: Global,
    remarks: &mut Remarks,
    stand_in: &StandIn,
) -> Result<(), AllocError> {
    let subject = Subject {
        place: stand_in.place,
        word: stand_in.word.as_slice(),
        id: stand_in.name.as_slice(),
    };
    let name = stand_in.stand_in.as_bytes();
    remarks.tell_carried(alloc, &subject, b"", RemarkReason::FallTogether, name)
}

// Sorts the stand-ins, and keeps one for each element.
fn sort_stand_ins(stand_ins: &mut Vec<StandIn>) {
    stand_ins.sort_unstable_by(|first, second| compare_stand_ins(first, second));
    stand_ins.dedup_by(|later, earlier| {
        have_same_name(later, earlier) && are_for_same_element(later, earlier)
    });
}

// Remarks on each stand-in that has the name and type of the one before it.
fn tell_shared_names(
    alloc: Global,
    remarks: &mut Remarks,
    sorted: &[StandIn],
) -> Result<(), AllocError> {
    for pair in sorted.windows(2) {
        if let [earlier, later] = pair {
            if have_same_name(earlier, later) {
                tell_shared_name(alloc, remarks, later)?;
            }
        }
    }
    Ok(())
}

// The stand-in of this name and type, or `None` if there is none.
fn find_stand_in<'a>(sorted: &'a [StandIn], name: &[u8], elem_type: &[u8]) -> Option<&'a StandIn> {
    let found = sorted.binary_search_by(|stand_in| stand_in
        .stand_in
        .as_bytes()
        .cmp(name)
        .then(stand_in.elem_type.cmp(elem_type)));
    sorted.get(found.ok()?)
}

// Remarks on the stand-in that has the name and type of this element of the profile, if there is one.
fn tell_if_shared_with_element(
    alloc: Global,
    remarks: &mut Remarks,
    sorted: &[StandIn],
    element: &WideElement,
) -> Result<(), AllocError> {
    let elem_type = match element.word.as_slice() {
        b"MAC" | b"MACUPD" => type_text(ElemType::Mac),
        b"DATA" => type_text(ElemType::Data),
        _ => return Ok(()),
    };
    match find_stand_in(sorted, element.name.as_slice(), elem_type) {
        Some(stand_in) => tell_shared_name(alloc, remarks, stand_in),
        None => Ok(()),
    }
}

/// Sorts the stand-ins of the remarks, each once, and remarks on those that have the name and type of another one, or
/// of an element of the files.
pub(crate) fn sort_and_check_stand_ins(
    alloc: Global,
    remarks: &mut Remarks,
    files: &[WideFile],
) -> Result<(), AllocError> {
    let mut named = mem::replace(&mut remarks.named, Vec::new(alloc));
    sort_stand_ins(&mut named);
    tell_shared_names(alloc, remarks, named.as_slice())?;
    for file in files {
        for sysmod in file.sysmods.iter() {
            for element in sysmod.elements.iter() {
                tell_if_shared_with_element(alloc, remarks, named.as_slice(), element)?;
            }
        }
    }
    remarks.named = named;
    Ok(())
}
