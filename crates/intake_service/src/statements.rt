//! SYSMODs, holds and assignments as cards, in the grammar that RECEIVE reads. These functions have no contracts: their
//! callers read the cards back, and compare what they read with what was to be printed.

use fields::Id;
use fields::spelling::{hold_text, kind_text, statement_text};
use intake_cards::PrintedCards;
use mcs::{Assign, HoldItem, Item, Release};
use std::alloc::{AllocError, Global};
use sysmods_values::{Action, ElemChange, Hold, IfReq, Sysmod, Ver};
use text80::Line;

/// The records of a PTFIN with these items.
pub fn ptfin(alloc: Global, items: &[Item]) -> Result<Vec<u8>, AllocError> {
    let mut cards = PrintedCards::new(alloc);
    for item in items {
        match item {
            Item::Sysmod(sysmod) => print_sysmod(&mut cards, sysmod)?,
            Item::Assign(assign) => print_assign(&mut cards, assign)?,
        }
    }
    cards.into_bytes()
}

/// The records of a hold file with these items.
pub fn hold_file(alloc: Global, items: &[HoldItem]) -> Result<Vec<u8>, AllocError> {
    let mut cards = PrintedCards::new(alloc);
    for item in items {
        match item {
            HoldItem::Hold(hold) => print_hold(&mut cards, hold)?,
            HoldItem::Release(release) => print_release(&mut cards, release)?,
        }
    }
    cards.into_bytes()
}

// Prints the statements of a SYSMOD.
fn print_sysmod(cards: &mut PrintedCards, sysmod: &Sysmod) -> Result<(), AllocError> {
    cards.begin_card(b"++")?;
    cards.add_directly(kind_text(sysmod.kind))?;
    cards.add_in_parentheses(sysmod.id.as_bytes())?;
    cards.add_directly(b".")?;
    for ver in sysmod.vers.iter() {
        print_ver(cards, ver)?;
    }
    for hold in sysmod.holds.iter() {
        print_hold(cards, hold)?;
    }
    for change in sysmod.changes.iter() {
        print_change(cards, change)?;
    }
    Ok(())
}

// Prints an operand with a list of ids, unless the list is empty.
fn print_ids(cards: &mut PrintedCards, word: &[u8], ids: &[Id]) -> Result<(), AllocError> {
    let Some((first, others)) = ids.split_first() else {
        return Ok(());
    };
    cards.add_word(word)?;
    cards.add_directly(b"(")?;
    cards.add_directly(first.as_bytes())?;
    for id in others {
        cards.add_word(id.as_bytes())?;
    }
    cards.add_directly(b")")
}

// Prints a `++VER` and its `++IF`s.
fn print_ver(cards: &mut PrintedCards, ver: &Ver) -> Result<(), AllocError> {
    cards.begin_card(b"++VER")?;
    cards.add_in_parentheses(ver.srel.as_bytes())?;
    if let Some(fmid) = ver.fmid {
        cards.add_value(b"FMID", fmid.as_bytes())?;
    }
    print_ids(cards, b"PRE", ver.pre.as_slice())?;
    print_ids(cards, b"REQ", ver.req.as_slice())?;
    print_ids(cards, b"SUP", ver.sup.as_slice())?;
    print_ids(cards, b"NPRE", ver.npre.as_slice())?;
    print_ids(cards, b"DELETE", ver.del.as_slice())?;
    cards.add_directly(b".")?;
    for condition in ver.ifs.iter() {
        print_if(cards, condition)?;
    }
    Ok(())
}

// Prints an `++IF`.
fn print_if(cards: &mut PrintedCards, condition: &IfReq) -> Result<(), AllocError> {
    cards.begin_card(b"++IF")?;
    cards.add_value(b"FMID", condition.function.as_bytes())?;
    cards.add_word(b"THEN")?;
    print_ids(cards, b"REQ", condition.req.as_slice())?;
    cards.add_directly(b".")
}

// Prints a `++HOLD`.
fn print_hold(cards: &mut PrintedCards, hold: &Hold) -> Result<(), AllocError> {
    cards.begin_card(b"++HOLD")?;
    cards.add_in_parentheses(hold.id.as_bytes())?;
    cards.add_word(hold_text(hold.kind))?;
    cards.add_value(b"FMID", hold.fmid.as_bytes())?;
    cards.add_value(b"REASON", hold.reason.as_bytes())?;
    if let Some(class) = hold.class {
        cards.add_value(b"CLASS", class.as_bytes())?;
    }
    if let Some(date) = hold.date {
        cards.add_value(b"DATE", date.as_bytes())?;
    }
    if let Some(comment) = &hold.comment {
        cards.add_comment(comment.as_bytes())?;
    }
    cards.add_directly(b".")
}

// Prints a `++RELEASE`.
fn print_release(cards: &mut PrintedCards, release: &Release) -> Result<(), AllocError> {
    cards.begin_card(b"++RELEASE")?;
    cards.add_in_parentheses(release.id.as_bytes())?;
    cards.add_word(hold_text(release.kind))?;
    cards.add_value(b"FMID", release.fmid.as_bytes())?;
    cards.add_value(b"REASON", release.reason.as_bytes())?;
    cards.add_directly(b".")
}

// Prints an `++ASSIGN`.
fn print_assign(cards: &mut PrintedCards, assign: &Assign) -> Result<(), AllocError> {
    cards.begin_card(b"++ASSIGN")?;
    cards.add_value(b"SOURCEID", assign.source.as_bytes())?;
    print_ids(cards, b"TO", assign.to.as_slice())?;
    cards.add_directly(b".")
}

// Prints an element statement with its text.
fn print_change(cards: &mut PrintedCards, change: &ElemChange) -> Result<(), AllocError> {
    cards.begin_card(b"++")?;
    cards.add_directly(statement_text(change.word()))?;
    cards.add_in_parentheses(change.name.as_bytes())?;
    match &change.action {
        Action::Replaces {
            distlib,
            syslib,
            lines,
        } => {
            cards.add_value(b"DISTLIB", distlib.as_bytes())?;
            cards.add_value(b"SYSLIB", syslib.as_bytes())?;
            cards.add_directly(b".")?;
            print_lines(cards, lines.as_slice())
        }
        Action::Updates { update } => {
            cards.add_directly(b".")?;
            print_lines(cards, update.records())
        }
    }
}

// Prints records as they are.
fn print_lines(cards: &mut PrintedCards, lines: &[Line]) -> Result<(), AllocError> {
    cards.end_card()?;
    for line in lines {
        cards.add_across_columns(line.bytes())?;
    }
    Ok(())
}
