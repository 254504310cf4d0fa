//! Operands that have one of some names, and the members of their lists.
ghost use Rattle.std.specs.Prelude.{◌≡◌, ◌↔◌, ◌&&◌, is_none, IsTrue, IfOk, All, map, if◌then◌else◌, []};
ghost use Rattle.intake_read.specs.Stated.{value_text, members};
ghost use Rattle.intake_asked.specs.Words.{is_called, has, stands_alone, listed};

use intake_read::{WideOperand, list_members};
use rec80::is_among;
use std::alloc::{AllocError, Global};

// Whether the operand has one of the names.
fn has_any_name(names: &[&[u8]], operand: &WideOperand) -> bool
    ensures { result ≡ is_called (map (λ name. name.now) names.now) operand.now }
{
    is_among(names, operand.name.as_slice())
}

/// Whether an operand has one of the names.
pub(crate) fn has_operand(names: &[&[u8]], operands: &[WideOperand]) -> bool
    ensures { result ≡ has (map (λ name. name.now) names.now) operands.now }
{
    operands.iter().any(|operand| has_any_name(names, operand))
}

// Whether the operand has one of the names and no list.
fn is_without_list(names: &[&[u8]], operand: &WideOperand) -> bool
    ensures { result ≡ (is_called (map (λ name. name.now) names.now) operand.now && is_none operand.now.value) }
{
    has_any_name(names, operand) && operand.value.is_none()
}

/// Whether an operand of one of the names has no list.
pub(crate) fn has_operand_without_list(names: &[&[u8]], operands: &[WideOperand]) -> bool
    ensures { result ≡ stands_alone (map (λ name. name.now) names.now) operands.now }
{
    operands
        .iter()
        .any(|operand| is_without_list(names, operand))
}

/// Whether no operand has another name than one of these.
pub(crate) fn have_only_names(names: &[&[u8]], operands: &[WideOperand]) -> bool
    ensures { IsTrue result ↔ All (λ operand. IsTrue (is_called (map (λ name. name.now) names.now) operand))
        operands.now }
{
    operands.iter().all(|operand| has_any_name(names, operand))
}

// The members of the operand's list, or an empty list if the operand has none of the names.
fn operand_members<'a>(
    alloc: Global,
    names: &[&[u8]],
    operand: &'a WideOperand,
) -> Result<Vec<&'a [u8]>, AllocError>
    ensures { IfOk result (λ found. map (λ member. member.now) found.items
        ≡ (if is_called (map (λ name. name.now) names.now) operand.now then members (value_text operand.now.value)
        else [])) }
{
    if !has_any_name(names, operand) {
        return Ok(Vec::new(alloc));
    }
    list_members(alloc, operand.text())
}

/// The members of the lists of all operands that have one of the names.
pub(crate) fn members_of_operands<'a>(
    alloc: Global,
    names: &[&[u8]],
    operands: &'a [WideOperand],
) -> Result<Vec<&'a [u8]>, AllocError>
    ensures { IfOk result (λ all. map (λ member. member.now) all.items
        ≡ listed (map (λ name. name.now) names.now) operands.now) }
{
    let mut all = Vec::new(alloc);
    for operand in operands {
        let mut more = operand_members(alloc, names, operand)?;
        all.append(&mut more)?;
    }
    Ok(all)
}
