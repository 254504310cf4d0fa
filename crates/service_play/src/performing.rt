//! The steps of a script, and what each does in the shop.

use crate::changing::{change, preview};
use crate::choosing::append_counting_vers;
use crate::judging::judge;
use crate::printed::{append_errsysmods, append_zone};
use crate::putting::{preview_install, preview_restore};
use crate::receiving::{receive_holds, receive_sysmods};
use crate::shop::{DISTRIBUTION, Shop, TARGET};
use cntl::{Command, read_cntl};
use scripts::{Performs, ScriptStep, card_file};
use std::alloc::Global;
use std::test::Fail;

/// What a step does.
#[derive(Clone, Copy)]
enum StepAction {
    Receive,
    Hold,
    List,
    Errsysmods,
    /// Prints which `++VER`s count for ids.
    Vers,
    /// Previews an install of ids, whatever a command would decide.
    Install,
    /// Previews a restore of ids, whatever a command would decide.
    Restore,
    With(CommandAction),
}

/// What a step does with the command of its cards.
#[derive(Clone, Copy)]
enum CommandAction {
    Judge,
    Preview,
    Change,
}

impl Performs for Shop {
    fn begin(&mut self, alloc: Global) -> Result<(), Fail> {
        *self = Shop::new(alloc)?;
        Ok(())
    }

    fn perform(
        &mut self,
        alloc: Global,
        step: ScriptStep<'_>,
        printed: &mut Vec<u8>,
    ) -> Result<(), Fail> {
        let action = action_of(step.head()).ok_or("no step has this name")?;
        perform_action(alloc, self, action, step.cards(), printed)
    }
}

// What a step of this name does.
fn action_of(name: &str) -> Option<StepAction> {
    match name.as_bytes() {
        b"RECEIVE" => Some(StepAction::Receive),
        b"HOLD" => Some(StepAction::Hold),
        b"LIST" => Some(StepAction::List),
        b"ERRSYSMODS" => Some(StepAction::Errsysmods),
        b"VERS" => Some(StepAction::Vers),
        b"PUT" => Some(StepAction::Install),
        b"TAKE" => Some(StepAction::Restore),
        b"JUDGE" => Some(StepAction::With(CommandAction::Judge)),
        b"DELTA" => Some(StepAction::With(CommandAction::Preview)),
        b"CHANGE" => Some(StepAction::With(CommandAction::Change)),
        _ => None,
    }
}

// Performs an action with the cards of its step.
fn perform_action(
    alloc: Global,
    shop: &mut Shop,
    action: StepAction,
    cards: &str,
    printed: &mut Vec<u8>,
) -> Result<(), Fail> {
    match action {
        StepAction::Receive => receive_sysmods(alloc, &mut shop.global, cards, printed),
        StepAction::Hold => receive_holds(alloc, &mut shop.global, cards),
        StepAction::List => append_zones(shop, printed),
        StepAction::Errsysmods => append_errsysmods_of_zones(alloc, shop, printed),
        StepAction::Vers => append_counting_vers(alloc, shop, cards, printed),
        StepAction::Install => preview_install(alloc, shop, cards, printed),
        StepAction::Restore => preview_restore(alloc, shop, cards, printed),
        StepAction::With(action) => {
            perform_command(alloc, shop, action, &read_command(alloc, cards)?, printed)
        }
    }
}

// Performs an action with a command.
fn perform_command(
    alloc: Global,
    shop: &mut Shop,
    action: CommandAction,
    command: &Command,
    printed: &mut Vec<u8>,
) -> Result<(), Fail> {
    match action {
        CommandAction::Judge => Ok(judge(alloc, shop, command, printed)?),
        CommandAction::Preview => preview(alloc, shop, command, printed),
        CommandAction::Change => change(alloc, shop, command, printed),
    }
}

// The command of these cards. If they have several, only the last one counts.
fn read_command(alloc: Global, cards: &str) -> Result<Command, Fail> {
    let file = card_file(alloc, cards)?;
    let mut commands = read_cntl(alloc, file.as_slice())?;
    Ok(commands.pop().ok_or("no command")?)
}

// Prints both zones as LIST does.
fn append_zones(shop: &Shop, printed: &mut Vec<u8>) -> Result<(), Fail> {
    append_zone(TARGET, &shop.target, printed)?;
    append_zone(DISTRIBUTION, &shop.distribution, printed)
}

// Prints what REPORT ERRSYSMODS says of both zones.
fn append_errsysmods_of_zones(
    alloc: Global,
    shop: &Shop,
    printed: &mut Vec<u8>,
) -> Result<(), Fail> {
    append_errsysmods(alloc, TARGET, &shop.global, &shop.target, printed)?;
    append_errsysmods(
        alloc,
        DISTRIBUTION,
        &shop.global,
        &shop.distribution,
        printed,
    )
}
