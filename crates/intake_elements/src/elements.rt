//! Statements of the profile that bring or update elements.
ghost use Rattle.std.specs.Prelude.{◌≡◌, IfOk, IfSome, IsTrue, All, true, false, Some, None};
ghost use Rattle.terms.specs.Texts.{IsReplacement, IsUpdate};
ghost use Rattle.terms.specs.Types.{Text};
ghost use Rattle.intake_read.specs.Stated.{text_in};
ghost use Rattle.intake_elements.specs.ElementTexts.{AreLibraries, AreRecordsOf, IsStatedText};
ghost use Rattle.intake_elements.specs.Elements.{IsHarmless, LacksNothing, IsProfileType, is_update, IsChangeOf};
ghost use Rattle.intake_elements.specs.Elements.{IsMadeOf};

use crate::element_words::{Target, is_update, is_update_word};
use crate::harmless::{are_all_read, are_both, can_lack_operand};
use crate::modules::tell_dropped_module_operands;
use crate::options::{Libraries, Options};
use crate::subjects::element_subject;
use crate::texts::{
    MOST_RECORDS, first_misnumbered, needs_numbers, replacement_text, without_blank_cards_at_end,
    without_blank_end_if_numbered,
};
use crate::updates::update_lines;
use fields::Name;
use intake_cards::{Deed, RemarkReason, Remarks, Subject};
use intake_read::{Card, WideElement, WideOperand, tell_faulty_operands};
use std::alloc::{AllocError, Global};
use sysmods_values::{Action, ElemChange};
use terms::{ElemType, Kind};
use text80::{Line, TextError, Update};

/// Remarks that an operand of an element is dropped. VERSION lets a SYSMOD take over an element of another function, so
/// without it more SYSMODs fail, as without VERSION of `++VER`. Any other operand changes no decision.
pub(crate) fn tell_dropped_operand(
    alloc: Global,
    remarks: &mut Remarks,
    subject: &Subject<'_>,
    operand: &WideOperand,
) -> Result<(), AllocError> {
    let name = operand.name.as_slice();
    let reason = if name == b"VERSION".as_slice() {
        RemarkReason::Stricter
    } else {
        RemarkReason::NoDecision
    };
    remarks.tell_dropped(alloc, subject, name, reason, operand.text())
}

// Drops the operand, with a remark, if it decides nothing. Otherwise the SYSMOD is left out, also with a remark.
// Returns whether the operand is dropped.
fn drop_operand(
    alloc: Global,
    options: &Options,
    remarks: &mut Remarks,
    subject: &Subject<'_>,
    operand: &WideOperand,
) -> Result<bool, AllocError>
    ensures { IfOk result (λ dropped. IsTrue dropped → IsHarmless options.now.decide operand.now) }
{
    let may_drop = can_lack_operand(alloc, options, remarks, subject, operand)?;
    if may_drop {
        tell_dropped_operand(alloc, remarks, subject, operand)?;
    }
    Ok(may_drop)
}

// Drops the operands that decide nothing, with remarks. For each of the others the SYSMOD is left out. Returns whether
// all are dropped.
fn drop_operands(
    alloc: Global,
    options: &Options,
    remarks: &mut Remarks,
    subject: &Subject<'_>,
    operands: &[WideOperand],
) -> Result<bool, AllocError>
    ensures { IfOk result (λ dropped. IsTrue dropped → All (IsHarmless options.now.decide) operands.now) }
{
    let mut all = true;
    for operand in operands {
        let dropped = drop_operand(alloc, options, remarks, subject, operand)?;
        all = are_both(all, dropped);
    }
    Ok(all)
}

// Remarks, for each of the libraries, that the SYSMOD is left out because the text of the element is in it.
fn tell_text_libraries(
    alloc: Global,
    remarks: &mut Remarks,
    subject: &Subject<'_>,
    libraries: &[WideOperand],
) -> Result<(), AllocError> {
    for library in libraries {
        let name = library.name.as_slice();
        let text = library.text();
        remarks.tell_left_out(alloc, subject, name, RemarkReason::TextElsewhere, text)?;
    }
    Ok(())
}

// Whether the SYSMOD can be carried without the operands of the element. Remarks name those that are dropped, and those
// for which the SYSMOD is left out.
fn can_drop_all_operands(
    alloc: Global,
    options: &Options,
    remarks: &mut Remarks,
    subject: &Subject<'_>,
    element: &WideElement,
) -> Result<bool, AllocError>
    ensures { IfOk result (λ good. IsTrue good → LacksNothing options.now.decide element.now) }
{
    tell_dropped_module_operands(alloc, options, remarks, subject, element)?;
    let faulty = element.faulty.as_slice();
    tell_faulty_operands(alloc, remarks, subject, faulty, Deed::LeftOut)?;
    let dropped = drop_operands(
        alloc,
        options,
        remarks,
        subject,
        element.operands.as_slice(),
    )?;
    tell_text_libraries(alloc, remarks, subject, element.libraries.as_slice())?;
    let operands = are_both(dropped, are_all_read(faulty));
    Ok(are_both(operands, element.libraries.is_empty()))
}

// The library that the operand states. Returns `None`, with a remark, if it does not have the form of a name.
fn read_library(
    alloc: Global,
    remarks: &mut Remarks,
    subject: &Subject<'_>,
    operand: &[u8],
    stated: &[u8],
) -> Result<Option<Name>, AllocError>
    ensures { IfOk result (λ found. IfSome found (λ name. name ≡ stated.now)) }
{
    let name = Name::read(stated);
    if name.is_none() {
        remarks.tell_left_out(alloc, subject, operand, RemarkReason::BadValue, stated)?;
    }
    Ok(name)
}

// The libraries of a replacement: a SYSLIB that is not stated is that of the options. Returns `None`, with a remark, if
// one is missing or does not have the form of a name.
fn read_libraries(
    alloc: Global,
    options: &Options,
    remarks: &mut Remarks,
    subject: &Subject<'_>,
    element: &WideElement,
) -> Result<Option<Libraries>, AllocError>
    ensures { IfOk result (λ found. IfSome found (λ libraries. AreLibraries element.now libraries.distlib
        libraries.syslib)) }
{
    let Some(distlib) = &element.distlib else {
        remarks.tell_left_out(alloc, subject, b"DISTLIB", RemarkReason::Missing, b"")?;
        return Ok(None);
    };
    let Some(distlib) = read_library(alloc, remarks, subject, b"DISTLIB", distlib.as_slice())?
    else {
        return Ok(None);
    };
    let Some(syslib) = read_syslib(alloc, options, remarks, subject, element, distlib)? else {
        return Ok(None);
    };
    Ok(Some(Libraries { distlib, syslib }))
}

// The SYSLIB of a replacement with this DISTLIB: the one that is stated, or else that of the options. Returns `None`,
// with a remark, if it is missing or does not have the form of a name.
fn read_syslib(
    alloc: Global,
    options: &Options,
    remarks: &mut Remarks,
    subject: &Subject<'_>,
    element: &WideElement,
    distlib: Name,
) -> Result<Option<Name>, AllocError>
    ensures { IfOk result (λ found. IfSome found (λ syslib. (library : Text)
        → text_in element.now.syslib ≡ Some library → syslib ≡ library)) }
{
    match &element.syslib {
        Some(syslib) => read_library(alloc, remarks, subject, b"SYSLIB", syslib.as_slice()),
        None => given_syslib(alloc, options, remarks, subject, distlib),
    }
}

// The SYSLIB that the options give for this DISTLIB, with a remark. Returns `None`, with another remark, if there is
// none.
fn given_syslib(
    alloc: Global,
    options: &Options,
    remarks: &mut Remarks,
    subject: &Subject<'_>,
    distlib: Name,
) -> Result<Option<Name>, AllocError> {
    let Some(syslib) = options.syslib_for(distlib) else {
        remarks.tell_left_out(
            alloc,
            subject,
            b"SYSLIB",
            RemarkReason::NoSyslib,
            distlib.as_bytes(),
        )?;
        return Ok(None);
    };
    remarks.tell_carried(
        alloc,
        subject,
        b"SYSLIB",
        RemarkReason::GivenSyslib,
        syslib.as_bytes(),
    )?;
    Ok(Some(syslib))
}

// The cards of an element's text: those after its statement, or those of its RELFILE. Returns `None`, with a remark, if
// the RELFILE was not read.
fn text_cards<'a>(
    alloc: Global,
    options: &'a Options,
    remarks: &mut Remarks,
    subject: &Subject<'_>,
    element: &'a WideElement,
) -> Result<Option<&'a [Card]>, AllocError>
    ensures { IfOk result (λ found. IfSome found (λ cards. text_in element.now.relfile ≡ None
        → cards.now ≡ element.now.inline.items)) }
{
    let Some(relfile) = &element.relfile else {
        return Ok(Some(element.inline.as_slice()));
    };
    let Some(member) = options.relfile_member(element.place) else {
        remarks.tell_left_out(
            alloc,
            subject,
            b"RELFILE",
            RemarkReason::TextElsewhere,
            relfile.as_slice(),
        )?;
        return Ok(None);
    };
    remarks.tell_carried(
        alloc,
        subject,
        b"RELFILE",
        RemarkReason::RelfileText,
        relfile.as_slice(),
    )?;
    Ok(Some(member.cards.as_slice()))
}

// Words that say where the card is in its file, or an empty text if there is no card.
fn card_place_text(alloc: Global, card: Option<&Card>) -> Result<String, AllocError> {
    match card {
        Some(card) => {
            let number = card.place.card;
            format!(in alloc; "at {number}")
        }
        None => Ok(String::new(alloc)),
    }
}

// Why the cards cannot be the text of any element, or `None` if they can.
fn text_fault(cards: &[Card]) -> Option<RemarkReason> {
    if cards.is_empty() {
        return Some(RemarkReason::NoText);
    }
    if cards.len() > MOST_RECORDS {
        return Some(RemarkReason::TooMany);
    }
    if !cards.iter().all(|card| card.is_printable()) {
        return Some(RemarkReason::NoAscii);
    }
    if cards.iter().any(|card| card.begins_statement()) {
        return Some(RemarkReason::BadText);
    }
    None
}

// Remarks that the blank cards at the end of the text are dropped, if there are any. `kept` are the cards before them.
fn tell_blank_end(
    alloc: Global,
    remarks: &mut Remarks,
    subject: &Subject<'_>,
    cards: &[Card],
    kept: &[Card],
) -> Result<(), AllocError> {
    if kept.len() < cards.len() {
        let text = card_place_text(alloc, cards.last())?;
        remarks.tell_dropped(alloc, subject, b"", RemarkReason::BlankEnd, text.as_bytes())?;
    }
    Ok(())
}

// The cards as the records of a replacement of the type. Returns `None`, with a remark, if they cannot be its text.
fn replacement_lines(
    alloc: Global,
    remarks: &mut Remarks,
    subject: &Subject<'_>,
    elem_type: ElemType,
    cards: &[Card],
) -> Result<Option<Vec<Line>>, AllocError>
    ensures replacement { IfOk result (λ found. IfSome found (λ lines. IsReplacement elem_type lines.items)) }
    ensures records { IfOk result (λ found. IfSome found (λ lines. AreRecordsOf cards.now lines.items)) }
{
    if let Some(reason) = text_fault(cards) {
        let text = card_place_text(alloc, cards.iter().find(|card| !card.is_printable()))?;
        remarks.tell_left_out(alloc, subject, b"", reason, text.as_bytes())?;
        return Ok(None);
    }
    good_lines(alloc, remarks, subject, elem_type, cards)
}

// The cards, which may be a text, as the records of a replacement of the type. Returns `None`, with a remark, if their
// numbers do not rise.
fn good_lines(
    alloc: Global,
    remarks: &mut Remarks,
    subject: &Subject<'_>,
    elem_type: ElemType,
    cards: &[Card],
) -> Result<Option<Vec<Line>>, AllocError>
    ensures replacement { IfOk result (λ found. IfSome found (λ lines. IsReplacement elem_type lines.items)) }
    ensures records { IfOk result (λ found. IfSome found (λ lines. AreRecordsOf cards.now lines.items)) }
{
    let text_cards = without_blank_end_if_numbered(elem_type, cards);
    tell_blank_end(alloc, remarks, subject, cards, text_cards)?;
    let Some(lines) = replacement_text(alloc, elem_type, text_cards)? else {
        let text = card_place_text(alloc, first_misnumbered(text_cards))?;
        remarks.tell_left_out(
            alloc,
            subject,
            b"",
            RemarkReason::Misnumbered,
            text.as_bytes(),
        )?;
        return Ok(None);
    };
    if needs_numbers(elem_type, text_cards) {
        remarks.tell_carried(alloc, subject, b"", RemarkReason::Numbered, b"")?;
    }
    Ok(Some(lines))
}

// The replacement that the statement brings. Returns `None`, with a remark, if it cannot be carried.
fn stated_replacement(
    alloc: Global,
    options: &Options,
    remarks: &mut Remarks,
    subject: &Subject<'_>,
    element: &WideElement,
    target: Target,
) -> Result<Option<ElemChange>, AllocError>
    ensures { IfOk result (λ found. IfSome found (λ c. IsChangeOf target.elem_type target.name false c
        × IsStatedText element.now c.action)) }
{
    let Some(libraries) = read_libraries(alloc, options, remarks, subject, element)? else {
        return Ok(None);
    };
    let Some(cards) = text_cards(alloc, options, remarks, subject, element)? else {
        return Ok(None);
    };
    let Some(lines) = replacement_lines(alloc, remarks, subject, target.elem_type, cards)? else {
        return Ok(None);
    };
    let Libraries { distlib, syslib } = libraries;
    let action = Action::Replaces {
        distlib,
        syslib,
        lines,
    };
    Ok(Some(ElemChange {
        elem_type: target.elem_type,
        name: target.name,
        action,
    }))
}

/// The change that the update makes to a macro or a source. Returns `None` for an element of another type.
pub(crate) fn update_change(elem_type: ElemType, name: Name, update: Update) -> Option<ElemChange>
    requires { IsUpdate name update }
    ensures { IfSome result (IsChangeOf elem_type name true) }
{
    if !elem_type.is_numbered() {
        return None;
    }
    Some(ElemChange {
        elem_type,
        name,
        action: Action::Updates { update },
    })
}

// The update that the statement brings. Returns `None`, with a remark, if it cannot be carried.
fn stated_update(
    alloc: Global,
    remarks: &mut Remarks,
    subject: &Subject<'_>,
    element: &WideElement,
    target: Target,
) -> Result<Option<ElemChange>, AllocError>
    ensures { IfOk result (λ found. IfSome found (IsChangeOf target.elem_type target.name true)) }
{
    tell_dropped_libraries(alloc, remarks, subject, element)?;
    let inline = element.inline.as_slice();
    let cards = without_blank_cards_at_end(inline);
    tell_blank_end(alloc, remarks, subject, inline, cards)?;
    let Some(lines) = update_lines(alloc, remarks, subject, cards)? else {
        return Ok(None);
    };
    if lines.len() > MOST_RECORDS {
        remarks.tell_left_out(alloc, subject, b"", RemarkReason::TooMany, b"")?;
        return Ok(None);
    }
    match Update::read(alloc, lines, target.name.as_bytes()) {
        Ok(update) => Ok(update_change(target.elem_type, target.name, update)),
        Err(TextError::Memory) => Err(AllocError),
        Err(TextError::Fault(_)) => {
            remarks.tell_left_out(alloc, subject, b"", RemarkReason::BadText, b"")?;
            Ok(None)
        }
    }
}

// Remarks that the libraries of an update are dropped, because the element stays in its own.
fn tell_dropped_libraries(
    alloc: Global,
    remarks: &mut Remarks,
    subject: &Subject<'_>,
    element: &WideElement,
) -> Result<(), AllocError> {
    if let Some(distlib) = &element.distlib {
        let text = distlib.as_slice();
        remarks.tell_dropped(alloc, subject, b"DISTLIB", RemarkReason::NoDecision, text)?;
    }
    if let Some(syslib) = &element.syslib {
        let text = syslib.as_slice();
        remarks.tell_dropped(alloc, subject, b"SYSLIB", RemarkReason::NoDecision, text)?;
    }
    Ok(())
}

// The replacement or the update that the statement brings. Returns `None`, with a remark, if it cannot be carried.
fn stated_change(
    alloc: Global,
    options: &Options,
    remarks: &mut Remarks,
    kind: Kind,
    element: &WideElement,
    target: Target,
) -> Result<Option<ElemChange>, AllocError>
    ensures { IfOk result (λ found. IfSome found (λ c. IsChangeOf target.elem_type target.name
        (is_update kind element.now.word.items) c × IsStatedText element.now c.action)) }
{
    let subject = element_subject(element);
    let word = element.word.as_slice();
    if is_update(kind, word) {
        return stated_update(alloc, remarks, &subject, element, target);
    }
    if is_update_word(word) {
        remarks.tell_left_out(alloc, &subject, b"", RemarkReason::UpdateInFunction, b"")?;
        return Ok(None);
    }
    stated_replacement(alloc, options, remarks, &subject, element, target)
}

/// The change that a statement of the profile states, with its whole text. Returns `None`, with a remark, if it cannot
/// be carried.
pub(crate) fn whole_change(
    alloc: Global,
    options: &Options,
    remarks: &mut Remarks,
    kind: Kind,
    element: &WideElement,
    target: Target,
) -> Result<Option<ElemChange>, AllocError>
    requires known { IsProfileType element.now.word.items target.elem_type }
    requires named { target.name ≡ element.now.name.items }
    ensures { IfOk result (λ found. IfSome found (IsMadeOf options.now.decide kind element.now)) }
{
    let subject = element_subject(element);
    if !can_drop_all_operands(alloc, options, remarks, &subject, element)? {
        return Ok(None);
    }
    stated_change(alloc, options, remarks, kind, element, target)
}
