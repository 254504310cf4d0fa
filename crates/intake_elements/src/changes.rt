//! What an element statement changes.
ghost use Rattle.std.specs.Prelude.{◌≡◌, IfOk, IfSome, IsTrue};
ghost use Rattle.intake_elements.specs.Elements.{IsProfileType, IsLacked, IsMadeOf, LacksNothing};

use crate::element_words::{Target, profile_type};
use crate::elements::{tell_dropped_operand, whole_change};
use crate::harmless::can_have_stand_in;
use crate::modules::tell_dropped_module_operands;
use crate::options::Options;
use crate::stand_ins::{one_record_change, stand_in_change, tell_stand_in};
use crate::subjects::element_subject;
use fields::Name;
use intake_cards::{Deed, RemarkReason, Remarks, Subject};
use intake_read::{WideElement, tell_dropped_operands, tell_faulty_operands};
use std::alloc::{AllocError, Global};
use sysmods_values::ElemChange;
use terms::{ElemType, Kind};

// If stand-ins are asked for, an element may have no operand that decides more than a stand-in says. If it has one,
// returns `false`, with remarks that the SYSMOD is left out.
fn meets_stand_in_rules(
    alloc: Global,
    options: &Options,
    remarks: &mut Remarks,
    subject: &Subject<'_>,
    element: &WideElement,
) -> Result<bool, AllocError>
    ensures { IfOk result (λ good. IsTrue good → IsTrue options.now.decide
        → LacksNothing options.now.decide element.now) }
{
    if !options.decide {
        return Ok(true);
    }
    can_have_stand_in(alloc, options, remarks, subject, element)
}

// Remarks, for each operand of the element, that it is dropped, because a stand-in is carried.
fn tell_all_operands_dropped(
    alloc: Global,
    options: &Options,
    remarks: &mut Remarks,
    subject: &Subject<'_>,
    element: &WideElement,
) -> Result<(), AllocError> {
    let faulty = element.faulty.as_slice();
    tell_faulty_operands(alloc, remarks, subject, faulty, Deed::Dropped)?;
    tell_dropped_module_operands(alloc, options, remarks, subject, element)?;
    for operand in element.operands.iter() {
        tell_dropped_operand(alloc, remarks, subject, operand)?;
    }
    tell_dropped_operands(alloc, remarks, subject, element.libraries.as_slice())?;
    if let Some(relfile) = &element.relfile {
        let text = relfile.as_slice();
        remarks.tell_dropped(alloc, subject, b"RELFILE", RemarkReason::NoDecision, text)?;
    }
    Ok(())
}

// The change of a statement whose word the profile lacks: that of its stand-in. Returns `None`, with a remark, if it
// cannot be carried.
fn change_by_stand_in(
    alloc: Global,
    options: &Options,
    remarks: &mut Remarks,
    kind: Kind,
    element: &WideElement,
) -> Result<Option<ElemChange>, AllocError>
    requires lacked { IsLacked element.now.word.items }
    requires lacks_nothing { IsTrue options.now.decide → LacksNothing options.now.decide element.now }
    ensures { IfOk result (λ found. IfSome found (IsMadeOf options.now.decide kind element.now)) }
{
    let subject = element_subject(element);
    if !options.decide {
        remarks.tell_left_out(alloc, &subject, b"", RemarkReason::OutsideProfile, b"")?;
        return Ok(None);
    }
    tell_all_operands_dropped(alloc, options, remarks, &subject, element)?;
    stand_in_change(alloc, remarks, &subject, kind, element)
}

// The change that a statement of the profile states. If it cannot be carried and stand-ins are asked for, a change of
// the same element with a text of one record stands in for it. Returns `None`, with a remark, if neither can be
// carried.
fn whole_or_short_change(
    alloc: Global,
    options: &Options,
    remarks: &mut Remarks,
    kind: Kind,
    element: &WideElement,
    elem_type: ElemType,
) -> Result<Option<ElemChange>, AllocError>
    requires known { IsProfileType element.now.word.items elem_type }
    requires lacks_nothing { IsTrue options.now.decide → LacksNothing options.now.decide element.now }
    ensures { IfOk result (λ found. IfSome found (IsMadeOf options.now.decide kind element.now)) }
{
    let subject = element_subject(element);
    let Some(name) = Name::read(element.name.as_slice()) else {
        remarks.tell_left_out(alloc, &subject, b"", RemarkReason::BadName, b"")?;
        return Ok(None);
    };
    let mut element_remarks = Remarks::new(alloc);
    let target = Target { elem_type, name };
    let whole = whole_change(alloc, options, &mut element_remarks, kind, element, target)?;
    if whole.is_some() || !options.decide {
        remarks.append(element_remarks)?;
        return Ok(whole);
    }
    element_remarks.list.mark_left_out_as_dropped();
    remarks.append(element_remarks)?;
    short_change(alloc, options, remarks, kind, element, elem_type, name)
}

// The change of the same element with a text of one record. Returns `None`, with a remark, if it cannot be carried.
fn short_change(
    alloc: Global,
    options: &Options,
    remarks: &mut Remarks,
    kind: Kind,
    element: &WideElement,
    elem_type: ElemType,
    name: Name,
) -> Result<Option<ElemChange>, AllocError>
    requires known { IsProfileType element.now.word.items elem_type }
    requires named { name ≡ element.now.name.items }
    requires asked { IsTrue options.now.decide }
    requires lacks_nothing { LacksNothing options.now.decide element.now }
    ensures { IfOk result (λ found. IfSome found (IsMadeOf options.now.decide kind element.now)) }
{
    let subject = element_subject(element);
    let Some(change) = one_record_change(alloc, kind, element, elem_type, name)? else {
        remarks.tell_left_out(alloc, &subject, b"", RemarkReason::BadText, b"")?;
        return Ok(None);
    };
    tell_stand_in(alloc, remarks, &subject, elem_type, name)?;
    Ok(Some(change))
}

/// The change that an element statement states, or the one that stands in for it if stand-ins are asked for. Returns
/// `None`, with a remark, if neither can be carried.
pub fn change_of(
    alloc: Global,
    options: &Options,
    remarks: &mut Remarks,
    kind: Kind,
    element: &WideElement,
) -> Result<Option<ElemChange>, AllocError>
    ensures { IfOk result (λ found. IfSome found (IsMadeOf options.now.decide kind element.now)) }
{
    let subject = element_subject(element);
    if !meets_stand_in_rules(alloc, options, remarks, &subject, element)? {
        return Ok(None);
    }
    match profile_type(element.word.as_slice()) {
        Some(elem_type) => whole_or_short_change(alloc, options, remarks, kind, element, elem_type),
        None => change_by_stand_in(alloc, options, remarks, kind, element),
    }
}
