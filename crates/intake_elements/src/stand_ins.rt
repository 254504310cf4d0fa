//! Stand-ins for elements that cannot be carried.
ghost use Rattle.std.specs.Prelude.{◌≡◌, IfOk, IfSome, true, false, not};
ghost use Rattle.terms.specs.declared.kinds.ElemType.TheVariants.{Mac};
ghost use Rattle.terms.specs.Changes.{is_replacement};
ghost use Rattle.intake_elements.specs.Elements.{IsLacked, IsTarget, IsChangeOf, is_update, module_name};

use crate::element_words::{is_update, stand_in_type};
use crate::elements::update_change;
use crate::options::Libraries;
use crate::stand_in_names::{owner_word, stand_in_name};
use crate::texts::{TEXT_COLUMNS, replacement_text};
use crate::updates::change_record;
use fields::Name;
use fields::spelling::type_text;
use intake_cards::{RemarkReason, Remarks, StandIn, Subject, is_printable_byte};
use intake_read::{Card, CardPlace, WideElement};
use std::alloc::{AllocError, Global};
use sysmods_values::{Action, ElemChange};
use terms::{ElemType, Kind};
use text80::{Line, TextError, Update};

// The byte, or a question mark if a record may not have it.
fn printable_or_question_mark(byte: u8) -> u8 {
    if is_printable_byte(byte) { byte } else { b'?' }
}

// A numbered card that names the statement, as the whole text of its stand-in.
fn stand_in_card(place: CardPlace, word: &[u8], name: &[u8]) -> Card {
    let mut text = [b' '; 80];
    let parts = b"* ++".iter().chain(word.iter()).chain(b"(".iter());
    let parts = parts.chain(name.iter()).chain(b")".iter());
    for (to, from) in text.iter_mut().take(TEXT_COLUMNS).zip(parts) {
        *to = printable_or_question_mark(*from);
    }
    text[TEXT_COLUMNS..].copy_from_slice(b"00000100");
    Card {
        place,
        text,
        is_cut: false,
        ends_comment: false,
    }
}

// The library that is stated, or the default if none is stated, or if its text does not have the form of a name.
fn stated_library_or(stated: &Option<Vec<u8>>, default: Name) -> Name {
    match stated {
        Some(text) => Name::read(text.as_slice()).unwrap_or(default),
        None => default,
    }
}

// The libraries of the stand-in of this name: those of the element. If no DISTLIB is stated, it has the name of the
// stand-in. If no SYSLIB is stated, it is the DISTLIB.
fn stand_in_libraries(element: &WideElement, stand_in: Name) -> Libraries {
    let distlib = stated_library_or(&element.distlib, stand_in);
    let syslib = stated_library_or(&element.syslib, distlib);
    Libraries { distlib, syslib }
}

// The libraries of a module that is assembled of the element: both are its DISTMOD. If none is stated, both have the
// name of the stand-in.
fn module_libraries(element: &WideElement, stand_in: Name) -> Libraries {
    let distlib = stated_library_or(&element.distmod, stand_in);
    Libraries {
        distlib,
        syslib: distlib,
    }
}

// An update of this type and name, with the card as its text, that stands for an update of an element. Returns `None`
// if there can be no such update.
fn stand_in_update(
    alloc: Global,
    elem_type: ElemType,
    name: Name,
    card: &Card,
) -> Result<Option<ElemChange>, AllocError>
    ensures { IfOk result (λ found. IfSome found (IsChangeOf elem_type name true)) }
{
    let mut lines = Vec::with_capacity(alloc, 2)?;
    lines.push(change_record(alloc, name.as_bytes())?)?;
    lines.push(Line::new(card.text))?;
    match Update::read(alloc, lines, name.as_bytes()) {
        Ok(update) => Ok(update_change(elem_type, name, update)),
        Err(TextError::Memory) => Err(AllocError),
        Err(TextError::Fault(_)) => Ok(None),
    }
}

// A replacement of this type and name, with the card as its text, that stands for a replacement of an element. Returns
// `None` if the card cannot be the text of this type.
fn stand_in_replacement(
    alloc: Global,
    elem_type: ElemType,
    name: Name,
    libraries: Libraries,
    card: &Card,
) -> Result<Option<ElemChange>, AllocError>
    ensures { IfOk result (λ found. IfSome found (IsChangeOf elem_type name false)) }
{
    let cards = [*card];
    let Some(lines) = replacement_text(alloc, elem_type, cards.as_slice())? else {
        return Ok(None);
    };
    let Libraries { distlib, syslib } = libraries;
    let action = Action::Replaces {
        distlib,
        syslib,
        lines,
    };
    Ok(Some(ElemChange {
        elem_type,
        name,
        action,
    }))
}

/// The change of this type and name, with a text of one record, that stands for the change of the element. Returns
/// `None` if nothing can stand for it.
pub(crate) fn one_record_change(
    alloc: Global,
    kind: Kind,
    element: &WideElement,
    elem_type: ElemType,
    name: Name,
) -> Result<Option<ElemChange>, AllocError>
    ensures { IfOk result (λ found. IfSome found (IsChangeOf elem_type name (is_update kind element.now.word.items))) }
{
    let word = element.word.as_slice();
    let card = stand_in_card(element.place, word, element.name.as_slice());
    if is_update(kind, word) {
        return stand_in_update(alloc, elem_type, name, &card);
    }
    stand_in_replacement(
        alloc,
        elem_type,
        name,
        stand_in_libraries(element, name),
        &card,
    )
}

/// The change of the stand-in of an element that the profile lacks, with a remark. Returns `None`, with a remark, if
/// nothing can stand for it.
#[tactic(auto, using(crate::proofs::Targets::lacked_change))]
pub(crate) fn stand_in_change(
    alloc: Global,
    remarks: &mut Remarks,
    subject: &Subject<'_>,
    kind: Kind,
    element: &WideElement,
) -> Result<Option<ElemChange>, AllocError>
    requires { IsLacked element.now.word.items }
    ensures { IfOk result (λ found. IfSome found (λ c. IsTarget true element.now.word.items element.now.name.items
        c.elem_type c.name × (is_replacement c.action ≡ not (is_update kind element.now.word.items)))) }
{
    let word = element.word.as_slice();
    let elem_type = stand_in_type(word);
    let Some(name) = stand_in_name(word, element.name.as_slice()) else {
        remarks.tell_left_out(alloc, subject, b"", RemarkReason::BadName, b"")?;
        return Ok(None);
    };
    let Some(change) = one_record_change(alloc, kind, element, elem_type, name)? else {
        remarks.tell_left_out(alloc, subject, b"", RemarkReason::BadText, b"")?;
        return Ok(None);
    };
    tell_stand_in(alloc, remarks, subject, elem_type, name)?;
    record_stand_in(alloc, remarks, element, elem_type, name)?;
    Ok(Some(change))
}

/// Remarks that the element of the subject is carried as a stand-in of this type and name.
pub(crate) fn tell_stand_in(
    alloc: Global,
    remarks: &mut Remarks,
    subject: &Subject<'_>,
    elem_type: ElemType,
    name: Name,
) -> Result<(), AllocError> {
    let mut text = Vec::from_slice(alloc, b"++")?;
    text.extend_from_slice(type_text(elem_type))?;
    text.push(b'(')?;
    text.extend_from_slice(name.as_bytes())?;
    text.push(b')')?;
    remarks.tell_carried(alloc, subject, b"", RemarkReason::StandIn, text.as_slice())
}

// Records which element the stand-in is for, under the word of the statement that brings the element. An update has its
// element's stand-in.
fn record_stand_in(
    alloc: Global,
    remarks: &mut Remarks,
    element: &WideElement,
    elem_type: ElemType,
    name: Name,
) -> Result<(), AllocError> {
    remarks.named.push(StandIn {
        place: element.place,
        elem_type: type_text(elem_type),
        stand_in: name,
        word: Vec::from_slice(alloc, owner_word(element.word.as_slice()))?,
        name: element.name.clone()?,
        library: library_text(alloc, &element.distlib)?,
    })?;
    Ok(())
}

// The library that is stated, or an empty text.
fn library_text(alloc: Global, stated: &Option<Vec<u8>>) -> Result<Vec<u8>, AllocError> {
    match stated {
        Some(text) => text.clone(),
        None => Ok(Vec::new(alloc)),
    }
}

/// The replacement of the stand-in of a module of this name, which is assembled of the element, with a remark. Returns
/// `None`, with a remark, if nothing can stand for it.
pub fn module_change(
    alloc: Global,
    remarks: &mut Remarks,
    subject: &Subject<'_>,
    element: &WideElement,
    module: &[u8],
) -> Result<Option<ElemChange>, AllocError>
    ensures { IfOk result (λ found. IfSome found (IsChangeOf Mac (module_name module.now) false)) }
{
    let Some(name) = stand_in_name(b"MOD", module) else {
        remarks.tell_left_out(alloc, subject, b"", RemarkReason::BadName, module)?;
        return Ok(None);
    };
    let card = stand_in_card(element.place, b"MOD", module);
    let libraries = module_libraries(element, name);
    let Some(change) = stand_in_replacement(alloc, ElemType::Mac, name, libraries, &card)? else {
        remarks.tell_left_out(alloc, subject, b"", RemarkReason::BadText, module)?;
        return Ok(None);
    };
    remarks.tell_carried(alloc, subject, b"", RemarkReason::Assembled, module)?;
    remarks.named.push(StandIn {
        place: element.place,
        elem_type: type_text(ElemType::Mac),
        stand_in: name,
        word: Vec::from_slice(alloc, b"MOD")?,
        name: Vec::from_slice(alloc, module)?,
        library: library_text(alloc, &element.distmod)?,
    })?;
    Ok(Some(change))
}
