//! What APPLY and ACCEPT bypass.
ghost use Rattle.std.specs.Prelude.{◌≡◌, [], ◌∷◌, IsTrue, IfOk, codes, map};
ghost use Rattle.fields.specs.Choices.{reasons_in};
ghost use Rattle.terms.specs.Types.{TheseReasons};
ghost use Rattle.intake_asked.specs.Words.{has, listed};
ghost use Rattle.intake_asked.specs.Said.{AreThese, SaysReasons, SaysBypass};

use crate::operands::{has_operand, has_operand_without_list, members_of_operands};
use crate::same::are_wanted_texts;
use fields::{Bypass, Class, Reason, Reasons};
use intake_read::WideOperand;
use std::alloc::{AllocError, Global};

// Whether each of the flags of `bypass` is set if and only if the shop's BYPASS has its member.
fn says_flags(bypassed: &[WideOperand], bypass: &Bypass) -> bool
    ensures pre { IsTrue result → bypass.now.pre ≡ has (codes "PRE" ∷ []) bypassed.now }
    ensures req { IsTrue result → bypass.now.req ≡ has (codes "REQ" ∷ []) bypassed.now }
    ensures ifreq { IsTrue result → bypass.now.ifreq ≡ has (codes "IFREQ" ∷ []) bypassed.now }
    ensures same_id { IsTrue result → bypass.now.same_id ≡ has (codes "ID" ∷ []) bypassed.now }
    ensures applycheck { IsTrue result → bypass.now.applycheck ≡ has (codes "APPLYCHECK" ∷ []) bypassed.now }
{
    bypass.pre == has_operand(&[b"PRE"], bypassed)
        && bypass.req == has_operand(&[b"REQ"], bypassed)
        && bypass.ifreq == has_operand(&[b"IFREQ"], bypassed)
        && bypass.same_id == has_operand(&[b"ID"], bypassed)
        && bypass.applycheck == has_operand(&[b"APPLYCHECK"], bypassed)
}

// Whether BYPASS has members of these names, each of them with a list, and the lists name exactly the reasons.
fn says_these_reasons(
    alloc: Global,
    names: &[&[u8]],
    bypassed: &[WideOperand],
    reasons: &[Reason],
) -> Result<bool, AllocError>
    ensures { IfOk result (λ are. IsTrue are
        → SaysReasons (map (λ name. name.now) names.now) bypassed.now (TheseReasons reasons.now)) }
{
    if !has_operand(names, bypassed) {
        return Ok(false);
    }
    if has_operand_without_list(names, bypassed) {
        return Ok(false);
    }
    let wanted = members_of_operands(alloc, names, bypassed)?;
    are_wanted_texts(alloc, reasons, &wanted)
}

// Whether the choice of reasons is that of the members of these names: none without such a member, any if a member has
// no list, or else those that they list.
fn says_reasons(
    alloc: Global,
    names: &[&[u8]],
    bypassed: &[WideOperand],
    reasons: &Reasons,
) -> Result<bool, AllocError>
    ensures { IfOk result (λ are. IsTrue are
        → SaysReasons (map (λ name. name.now) names.now) bypassed.now (reasons_in reasons.now)) }
{
    match reasons {
        Reasons::None => Ok(!has_operand(names, bypassed)),
        Reasons::Any => Ok(has_operand_without_list(names, bypassed)),
        Reasons::These(list) => says_these_reasons(alloc, names, bypassed, list.as_slice()),
    }
}

// Whether the classes are exactly those that HOLDCLASS lists.
fn says_classes(
    alloc: Global,
    bypassed: &[WideOperand],
    classes: &[Class],
) -> Result<bool, AllocError>
    ensures { IfOk result (λ are. IsTrue are
        → AreThese classes.now (listed (codes "HOLDCLASS" ∷ []) bypassed.now)) }
{
    let wanted = members_of_operands(alloc, &[b"HOLDCLASS"], bypassed)?;
    are_wanted_texts(alloc, classes, &wanted)
}

/// Whether `bypass` bypasses exactly what the members of a shop's BYPASS ask for.
pub(crate) fn says_bypass(
    alloc: Global,
    bypassed: &[WideOperand],
    bypass: &Bypass,
) -> Result<bool, AllocError>
    ensures { IfOk result (λ says. IsTrue says → SaysBypass bypassed.now bypass.now) }
{
    let error_names: &[&[u8]] = &[b"HOLDERROR", b"HOLDERR"];
    if !says_reasons(alloc, error_names, bypassed, &bypass.holderror)? {
        return Ok(false);
    }
    let system_names: &[&[u8]] = &[b"HOLDSYSTEM", b"HOLDSYS"];
    if !says_reasons(alloc, system_names, bypassed, &bypass.holdsystem)? {
        return Ok(false);
    }
    if !says_reasons(alloc, &[b"HOLDUSER"], bypassed, &bypass.holduser)? {
        return Ok(false);
    }
    if !says_classes(alloc, bypassed, bypass.holdclass.as_slice())? {
        return Ok(false);
    }
    Ok(says_flags(bypassed, bypass))
}
