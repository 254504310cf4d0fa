//! Whether commands say what a shop's commands ask for.
ghost use Rattle.std.specs.Prelude.{◌≡◌, ◌||◌, not, [], ◌∷◌, IsTrue, IfOk, All, codes, map};
ghost use Rattle.fields.specs.Choices.{restore_list_of};
ghost use Rattle.terms.specs.CommandForms.{command_word};
ghost use Rattle.terms.specs.Lookups.{is_in};
ghost use Rattle.terms.specs.Spelling.{word_text};
ghost use Rattle.intake_asked.specs.KnownWords.{known_operands, known_members};
ghost use Rattle.cntl.specs.Views.{command_of};
ghost use Rattle.intake_asked.specs.Words.{has, stands_alone, listed, select_names, check_names};
ghost use Rattle.intake_asked.specs.Said.{AreThese, one_of, is_no_decision, SaysInstall, SaysRestored, SaysReceive};
ghost use Rattle.intake_asked.specs.Known.{known_after};
ghost use Rattle.intake_asked.specs.Said.{SaysOperands, Says, AreSaid, receives};

use crate::bypasses::says_bypass;
use crate::known::{KnownSysmod, KnownSysmods};
use crate::lists::{grouped_ids, select_names, selected_ids};
use crate::names::{known_members, known_operands};
use crate::operands::{
    has_operand, has_operand_without_list, have_only_names, members_of_operands,
};
use crate::same::{are_wanted_texts, has_no_texts, is_only_wanted_text};
use crate::scan::WideCommand;
use crate::selections::says_selection;
use cntl::{Command, Install};
use fields::spelling::word_text;
use fields::{Id, ReceiveOperands, RestoreList, Source, ZoneName};
use intake_read::WideOperand;
use rec80::is_among;
use std::alloc::{AllocError, Global};
use terms::CommandWord;

// The word with which a command of this kind begins.
fn word_of(command: &Command) -> CommandWord
    ensures { result ≡ command_word (command_of command.now) }
{
    match command {
        Command::Set(_) => CommandWord::Set,
        Command::Receive(_) => CommandWord::Receive,
        Command::Reject(_) => CommandWord::Reject,
        Command::Apply(_) => CommandWord::Apply,
        Command::Accept(_) => CommandWord::Accept,
        Command::Restore { .. } => CommandWord::Restore,
        Command::List { .. } => CommandWord::List,
        Command::Report => CommandWord::Report,
    }
}

/// Whether the command of this word changes no decision: RESETRC, LOG and DEBUG. Here no return code keeps a later
/// command from running, and there is no log.
pub fn changes_no_decision(word: &[u8]) -> bool
    ensures { result ≡ is_no_decision word.now }
{
    is_among(&[b"RESETRC", b"LOG", b"DEBUG"], word)
}

// Whether `check` is true if and only if the operands have CHECK.
fn says_check(operands: &[WideOperand], check: bool) -> bool
    ensures { IsTrue result → check ≡ stands_alone check_names operands.now }
{
    check == has_operand_without_list(&[b"CHECK", b"C"], operands)
}

// Whether an APPLY or an ACCEPT chooses and bypasses exactly what the shop's command asks for, and has CHECK if and
// only if that command has it.
fn says_install(
    alloc: Global,
    known: &Option<Vec<KnownSysmod>>,
    wide: &WideCommand,
    install: &Install,
) -> Result<bool, AllocError>
    ensures { IfOk result (λ says. IsTrue says → SaysInstall known.now wide.now install.now) }
{
    let operands = wide.operands.as_slice();
    if !says_check(operands, install.check) {
        return Ok(false);
    }
    let chooses_same = says_selection(alloc, known, operands, &install.selection)?;
    if !chooses_same {
        return Ok(false);
    }
    let bypasses_same = says_bypass(alloc, wide.bypassed.as_slice(), &install.bypass)?;
    Ok(bypasses_same)
}

// Whether the RECEIVE takes SYSMODs if and only if the operands have SYSMODS or lack HOLDDATA, and holds if and only if
// they have HOLDDATA or lack SYSMODS.
fn says_received_kinds(operands: &[WideOperand], receive: &ReceiveOperands) -> bool
    ensures sysmods { IsTrue result → receive.now.sysmods
        ≡ (has (codes "SYSMODS" ∷ codes "SYSMOD" ∷ []) operands.now || not (has (codes "HOLDDATA" ∷ []) operands.now)) }
    ensures holddata { IsTrue result → receive.now.holddata
        ≡ (has (codes "HOLDDATA" ∷ []) operands.now || not (has (codes "SYSMODS" ∷ codes "SYSMOD" ∷ []) operands.now)) }
{
    let sysmods = has_operand(&[b"SYSMODS", b"SYSMOD"], operands);
    let holddata = has_operand(&[b"HOLDDATA"], operands);
    receive.sysmods == (sysmods || !holddata) && receive.holddata == (holddata || !sysmods)
}

// Whether a RECEIVE takes exactly what the operands ask for, from the source that they name.
fn says_receive(
    alloc: Global,
    operands: &[WideOperand],
    receive: &ReceiveOperands,
) -> Result<bool, AllocError>
    ensures { IfOk result (λ says. IsTrue says → SaysReceive operands.now receive.now) }
{
    if !says_received_kinds(operands, receive) {
        return Ok(false);
    }
    says_source(alloc, operands, &receive.source)
}

// Whether the source id is the only one that SOURCEID names. Without a source id: whether SOURCEID names none.
fn says_source(
    alloc: Global,
    operands: &[WideOperand],
    source_id: &Option<Source>,
) -> Result<bool, AllocError>
    ensures { IfOk result (λ says. IsTrue says
        → AreThese (one_of source_id.now) (listed (codes "SOURCEID" ∷ []) operands.now)) }
{
    let wanted = members_of_operands(alloc, &[b"SOURCEID"], operands)?;
    let Some(source) = source_id else {
        return Ok(has_no_texts(&wanted));
    };
    is_only_wanted_text(alloc, source, &wanted)
}

// Whether the ids that a REJECT rejects are exactly those of SELECT.
fn says_rejected_ids(
    alloc: Global,
    operands: &[WideOperand],
    ids: &[Id],
) -> Result<bool, AllocError>
    ensures { IfOk result (λ says. IsTrue says → AreThese ids.now (listed select_names operands.now)) }
{
    let wanted = members_of_operands(alloc, select_names(), operands)?;
    are_wanted_texts(alloc, ids, &wanted)
}

// Whether the zone is the one that BDY names.
fn says_zone(alloc: Global, operands: &[WideOperand], zone: ZoneName) -> Result<bool, AllocError>
    ensures { IfOk result (λ says. IsTrue says
        → AreThese (zone ∷ []) (listed (codes "BDY" ∷ codes "BOUNDARY" ∷ []) operands.now)) }
{
    let wanted = members_of_operands(alloc, &[b"BDY", b"BOUNDARY"], operands)?;
    is_only_wanted_text(alloc, &zone, &wanted)
}

// Whether the ids are exactly those of the stated list, and the other list has none: a RESTORE has only one of SELECT
// and GROUP.
fn says_single_list(
    alloc: Global,
    ids: &[Id],
    stated: &[&[u8]],
    other: &[&[u8]],
) -> Result<bool, AllocError>
    ensures { IfOk result (λ are. IsTrue are → AreThese ids.now (map (λ id. id.now) stated.now)
        × (map (λ id. id.now) other.now ≡ [])) }
{
    if !has_no_texts(other) {
        return Ok(false);
    }
    are_wanted_texts(alloc, ids, stated)
}

// Whether the operands have exactly the ids of the list of a RESTORE: in SELECT or in GROUP, as the list says.
fn says_restore_list(
    alloc: Global,
    operands: &[WideOperand],
    list: &RestoreList,
) -> Result<bool, AllocError>
    ensures { IfOk result (λ says. IsTrue says → SaysRestored operands.now (restore_list_of list.now)) }
{
    let selected = selected_ids(alloc, operands)?;
    let grouped = grouped_ids(alloc, operands)?;
    match list {
        RestoreList::Select(ids) => says_single_list(alloc, ids.as_slice(), &selected, &grouped),
        RestoreList::Group(ids) => says_single_list(alloc, ids.as_slice(), &grouped, &selected),
    }
}

// Whether a RESTORE with this list and this `check` says exactly what the operands ask for.
fn says_restore(
    alloc: Global,
    operands: &[WideOperand],
    list: &RestoreList,
    check: bool,
) -> Result<bool, AllocError>
    ensures { IfOk result (λ says. IsTrue says → SaysRestored operands.now (restore_list_of list.now)
        × (check ≡ stands_alone check_names operands.now)) }
{
    if !says_check(operands, check) {
        return Ok(false);
    }
    says_restore_list(alloc, operands, list)
}

// Whether the operands of the command say exactly what those of the shop's command ask for.
fn says_operands(
    alloc: Global,
    known: &Option<Vec<KnownSysmod>>,
    wide: &WideCommand,
    command: &Command,
) -> Result<bool, AllocError>
    ensures { IfOk result (λ says. IsTrue says → SaysOperands known.now wide.now (command_of command.now)) }
{
    let operands = wide.operands.as_slice();
    match command {
        Command::Set(zone) => says_zone(alloc, operands, *zone),
        Command::Receive(what) => says_receive(alloc, operands, what),
        Command::Reject(ids) => says_rejected_ids(alloc, operands, ids.as_slice()),
        Command::Apply(install) => says_install(alloc, known, wide, install),
        Command::Accept(install) => says_install(alloc, known, wide, install),
        Command::Restore { list, check } => says_restore(alloc, operands, list, *check),
        Command::List { text } => Ok(*text == has_operand(&[b"TEXT"], operands)),
        Command::Report => Ok(has_operand(&[b"ERRSYSMODS"], operands)),
    }
}

// Whether the shop's command begins with this word.
fn has_word(wide: &WideCommand, word: CommandWord) -> bool
    ensures { IsTrue result → wide.now.head.name.items ≡ word_text word }
{
    wide.head.name.as_slice() == word_text(word)
}

// Whether the shop's command has no operands but those that a command of the word may have.
fn has_only_known_operands(wide: &WideCommand, word: CommandWord) -> bool
    ensures { IsTrue result → All (λ o. IsTrue (is_in (known_operands word) o.name.items)) wide.now.operands.items }
{
    have_only_names(known_operands(word), wide.operands.as_slice())
}

// Whether the BYPASS of the shop's command has no members but those that it may have in a command of the word.
fn has_only_known_members(wide: &WideCommand, word: CommandWord) -> bool
    ensures { IsTrue result → All (λ o. IsTrue (is_in (known_members word) o.name.items)) wide.now.bypassed.items }
{
    have_only_names(known_members(word), wide.bypassed.as_slice())
}

// Whether the command says exactly what the shop's command `wide` asks for.
fn says(
    alloc: Global,
    known: &Option<Vec<KnownSysmod>>,
    wide: &WideCommand,
    command: &Command,
) -> Result<bool, AllocError>
    ensures { IfOk result (λ says. IsTrue says → Says known.now wide.now (command_of command.now)) }
{
    let word = word_of(command);
    if !has_word(wide, word) {
        return Ok(false);
    }
    if !has_only_known_operands(wide, word) {
        return Ok(false);
    }
    if !has_only_known_members(wide, word) {
        return Ok(false);
    }
    says_operands(alloc, known, wide, command)
}

/// Whether the command says exactly what the shop's command `wide` asks for. `received` says whether a command before
/// it receives SYSMODs.
pub fn says_after(
    alloc: Global,
    known: &KnownSysmods,
    received: bool,
    wide: &WideCommand,
    command: &Command,
) -> Result<bool, AllocError>
    ensures { IfOk result (λ says. IsTrue says
        → Says (known_after known.now received) wide.now (command_of command.now)) }
{
    if received && !known.has_ptfin {
        says(alloc, &None, wide, command)
    } else {
        says(alloc, &known.list, wide, command)
    }
}

// Whether the command receives SYSMODs.
fn receives(command: &Command) -> bool
    ensures { result ≡ receives (command_of command.now) }
{
    match command {
        Command::Receive(what) => what.sysmods,
        _ => false,
    }
}

// Whether SYSMODs are received up to the command. `received` says whether they are before it.
fn has_received(received: bool, command: &Command) -> bool
    ensures { result ≡ (received || receives (command_of command.now)) }
{
    received || receives(command)
}

/// Whether the commands say, one after the other, exactly what the shop's commands `wide` ask for. Those of the shop's
/// commands that change no decision are passed over.
pub fn are_said(
    alloc: Global,
    known: &KnownSysmods,
    wide: &[WideCommand],
    commands: &[Command],
) -> Result<bool, AllocError>
    ensures { IfOk result (λ are. IsTrue are → AreSaid known.now wide.now (map command_of commands.now)) }
{
    let mut left = commands;
    let mut received = false;
    for command in wide {
        if changes_no_decision(command.head.name.as_slice()) {
            continue;
        }
        let Some((first, rest)) = left.split_first() else {
            return Ok(false);
        };
        if !says_after(alloc, known, received, command, first)? {
            return Ok(false);
        }
        received = has_received(received, first);
        left = rest;
    }
    Ok(left.is_empty())
}
