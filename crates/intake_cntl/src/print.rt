//! Commands on cards.

use crate::carried::{CarriedCommand, CarriedMember, CarriedOperand, CarriedValue};
use intake_cards::PrintedCards;
use std::alloc::{AllocError, Global};

/// Prints the command on cards of its own.
pub(crate) fn print_command(
    alloc: Global,
    cards: &mut PrintedCards,
    command: &CarriedCommand,
) -> Result<(), AllocError> {
    cards.begin_card(command.word)?;
    for operand in &command.operands {
        print_operand(alloc, cards, operand)?;
    }
    cards.add_directly(b".")
}

// Prints an operand with its value.
fn print_operand(
    alloc: Global,
    cards: &mut PrintedCards,
    operand: &CarriedOperand,
) -> Result<(), AllocError> {
    match &operand.value {
        CarriedValue::Nothing => cards.add_word(operand.word),
        CarriedValue::List(members) => {
            cards.add_word(&join(alloc, operand.word, b"(")?)?;
            print_list(alloc, cards, members)
        }
        CarriedValue::BypassMembers(members) => {
            cards.add_word(&join(alloc, operand.word, b"(")?)?;
            print_bypass_members(alloc, cards, members)
        }
    }
}

// Prints the members, each with the comma or the parenthesis after it.
fn print_list(
    alloc: Global,
    cards: &mut PrintedCards,
    members: &[Vec<u8>],
) -> Result<(), AllocError> {
    for (place, member) in members.iter().enumerate() {
        let separator = separator_after(place, members.len());
        cards.add_directly(&join(alloc, member.as_slice(), separator)?)?;
    }
    Ok(())
}

// Prints the members of a BYPASS, each with its list and the comma or the parenthesis after it.
fn print_bypass_members(
    alloc: Global,
    cards: &mut PrintedCards,
    members: &[CarriedMember],
) -> Result<(), AllocError> {
    for (place, member) in members.iter().enumerate() {
        let separator = separator_after(place, members.len());
        match &member.listed {
            Some(listed) => {
                cards.add_directly(&join(alloc, member.word, b"(")?)?;
                print_list(alloc, cards, listed)?;
                cards.add_directly(separator)?;
            }
            None => cards.add_directly(&join(alloc, member.word, separator)?)?,
        }
    }
    Ok(())
}

// What follows the member at this place of a list of this length: a comma, or after the last member the closing
// parenthesis.
fn separator_after(place: usize, length: usize) -> &'static [u8] {
    if place.saturating_add(1) < length {
        b","
    } else {
        b")"
    }
}

// Both texts as one, so that a card does not end between them.
fn join(alloc: Global, text: &[u8], sign: &[u8]) -> Result<Vec<u8>, AllocError> {
    let mut both = Vec::from_slice(alloc, text)?;
    both.extend_from_slice(sign)?;
    Ok(both)
}
