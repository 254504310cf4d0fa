//! The reader of a file, which says where the holds begin that it hands out.
ghost use Rattle.std.specs.Prelude.{◌≡◌, ◌++◌, [], IfOk, OnOk, option_to_list};
ghost use Rattle.intake_read.specs.Held.{is_fixcat, held_places};

use crate::errors::WideError;
use crate::items::{WideFile, WideHold, WideHoldKind};
use crate::read::StatementReader;
use intake_cards::{Card, CardPlace};
use std::alloc::{AllocError, Global};

/// Reads the statements of a file's cards, which it is given one after the other.
#[derive(Drop)]
pub struct WideReader {
    statements: StatementReader,
    /// Where the holds begin that were handed out, except those of FIXCAT.
    pub held: Vec<CardPlace>,
}

// Whether the hold is one of FIXCAT.
fn is_fixcat(hold: &WideHold) -> bool
    ensures { result ≡ is_fixcat hold.now }
{
    match hold.kind {
        Some(WideHoldKind::Error) => false,
        Some(WideHoldKind::System) => false,
        Some(WideHoldKind::User) => false,
        Some(WideHoldKind::Fixcat) => true,
        None => false,
    }
}

// Adds where the hold begins, if there is one that is not of FIXCAT.
fn add_held_place(held: &mut Vec<CardPlace>, hold: &Option<WideHold>) -> Result<(), AllocError>
    ensures { OnOk result (held.new.items ≡ held.old.items ++ held_places (option_to_list hold.now)) }
{
    let Some(hold) = hold else {
        return Ok(());
    };
    if is_fixcat(hold) {
        return Ok(());
    }
    held.push(hold.place)?;
    Ok(())
}

impl WideReader {
    /// A reader that has read no card.
    pub fn new(alloc: Global) -> WideReader
        ensures { result.held.items ≡ [] }
    {
        WideReader {
            statements: StatementReader::new(alloc),
            held: Vec::new(alloc),
        }
    }

    /// Reads the next card. If this ends a hold outside SYSMODs, hands out that hold. Returns `NoStatement` if more
    /// than blanks and comments precedes the first statement, and `Statement` if a statement that belongs to a SYSMOD,
    /// or that is not known, precedes the first SYSMOD.
    pub fn read_card(&mut self, card: &Card) -> Result<Option<WideHold>, WideError>
        ensures { IfOk result (λ hold. self.new.held.items
            ≡ self.old.held.items ++ held_places (option_to_list hold)) }
    {
        let hold = self.statements.read_card(card)?;
        add_held_place(&mut self.held, &hold)?;
        Ok(hold)
    }

    /// Ends the last statement, and hands it out if it is a hold outside SYSMODs. Returns `OpenComment` if a comment is
    /// open after the last card.
    pub fn read_end(&mut self) -> Result<Option<WideHold>, WideError>
        ensures { IfOk result (λ hold. self.new.held.items
            ≡ self.old.held.items ++ held_places (option_to_list hold)) }
    {
        let hold = self.statements.read_end()?;
        add_held_place(&mut self.held, &hold)?;
        Ok(hold)
    }

    /// All statements but the holds that `read_card` and `read_end` handed out, and where these begin. Call it after
    /// `read_end`.
    pub fn into_file(self) -> Result<WideFile, WideError>
        ensures { IfOk result (λ file. file.held.items ≡ self.held.items) }
    {
        let WideReader { statements, held } = self;
        let mut file = statements.into_file()?;
        file.held = held;
        Ok(file)
    }
}
