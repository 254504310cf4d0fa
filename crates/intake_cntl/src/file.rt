//! Whole command files.
ghost use Rattle.std.specs.Prelude.{List, IfOk, IfSome};
ghost use Rattle.intake_asked.specs.Said.{AreSaid};
ghost use Rattle.terms.specs.Types as terms;
ghost use Rattle.terms.specs.Commands.{IsCommandFile};

use crate::carried::CarriedCommand;
use crate::carry::carry_command;
use crate::command_remarks::{CommandRemarks, RemarkWords};
use crate::print::print_command;
use crate::received::Received;
use cntl::{CntlError, Command, read_cntl};
use intake_asked::{CommandComment, KnownSysmods, WideCommand, WideCommands, are_said, says_after};
use intake_cards::{Deed, PrintedCards, RemarkList, RemarkReason, Tail};
use intake_read::{Card, CardPlace};
use std::alloc::{AllocError, Global};
use terms::CommandCode;

/// What became of a command file.
#[derive(Drop)]
pub struct CommandFile {
    /// The records, or `None` if a word is neither carried nor dropped.
    pub bytes: Option<Vec<u8>>,
    /// The remarks, in the order of the file.
    pub remarks: RemarkList,
    /// How many commands are carried.
    pub carried: usize,
    /// How many commands are dropped or refused.
    pub not_carried: usize,
}

/// Records that say exactly what the shop's commands `wide`, which are on these cards, ask for. If a word cannot be
/// carried, there are no records, and remarks name each such word. `known` are the SYSMODs that are known besides those
/// that the commands name.
pub fn command_file(
    alloc: Global,
    cards: &[Card],
    wide: &WideCommands,
    known: &KnownSysmods,
) -> Result<CommandFile, AllocError>
    ensures { IfOk result (λ file. IfSome file.bytes (λ bytes. (commands : List terms.Command)
        × IsCommandFile bytes.items commands × AreSaid known.now wide.now.commands.items commands)) }
{
    let mut remarks = CommandRemarks::new(alloc);
    remark_on_cards(&mut remarks, cards, &wide.cut)?;
    remark_on_comments(&mut remarks, &wide.comments)?;
    let records = carry_commands(alloc, &mut remarks, wide.commands.as_slice(), known)?;
    let carried = records.carried;
    let not_carried = records.not_carried;
    let bytes = checked_records(
        alloc,
        &remarks,
        records.bytes,
        wide.commands.as_slice(),
        known,
    )?;
    Ok(CommandFile {
        bytes,
        remarks: remarks.list,
        carried,
        not_carried,
    })
}

/// The records of the commands that are carried, and how many commands are carried or not.
#[derive(Drop)]
struct CommandRecords {
    bytes: Vec<u8>,
    carried: usize,
    not_carried: usize,
}

// The records of all commands that can be carried.
fn carry_commands(
    alloc: Global,
    remarks: &mut CommandRemarks,
    commands: &[WideCommand],
    known: &KnownSysmods,
) -> Result<CommandRecords, AllocError> {
    let mut records = CommandRecords {
        bytes: Vec::new(alloc),
        carried: 0,
        not_carried: 0,
    };
    let mut received = Received::NOTHING;
    for wide in commands {
        match command_records(alloc, remarks, known, received, wide)? {
            Some(bytes) => {
                records.bytes.extend_from_slice(&bytes)?;
                records.carried = records.carried.saturating_add(1);
            }
            None => records.not_carried = records.not_carried.saturating_add(1),
        }
        received = received.after(wide);
    }
    Ok(records)
}

// Remarks on texts in columns 73 to 80, and on cards that are cut.
fn remark_on_cards(
    remarks: &mut CommandRemarks,
    cards: &[Card],
    cut: &[CardPlace],
) -> Result<(), AllocError> {
    for card in cards {
        if card.tail() == Tail::Other {
            let number = card.number_columns();
            remark_on_card(
                remarks,
                card.place,
                number.trim_ascii(),
                Deed::Dropped,
                RemarkReason::TextInNumbers,
            )?;
        }
    }
    for place in cut {
        remark_on_card(remarks, *place, b"", Deed::Refused, RemarkReason::LongLine)?;
    }
    Ok(())
}

// Remarks on the comments inside commands that have text on later cards, which may be operands.
fn remark_on_comments(
    remarks: &mut CommandRemarks,
    comments: &[CommandComment],
) -> Result<(), AllocError> {
    for comment in comments {
        let words = RemarkWords {
            command: comment.command.as_slice(),
            operand: b"",
            text: comment.text.as_slice(),
        };
        remarks.add(
            comment.place,
            words,
            Deed::Dropped,
            RemarkReason::StatementInComment,
        )?;
    }
    Ok(())
}

// Remarks on a card.
fn remark_on_card(
    remarks: &mut CommandRemarks,
    place: CardPlace,
    text: &[u8],
    deed: Deed,
    reason: RemarkReason,
) -> Result<(), AllocError> {
    let words = RemarkWords {
        command: b"",
        operand: b"",
        text,
    };
    remarks.add(place, words, deed, reason)
}

// The records of the command. Returns `None`, with remarks, if it is dropped, if a word of it is refused, or if the
// records are not read back as that command, which a remark refuses then.
fn command_records(
    alloc: Global,
    remarks: &mut CommandRemarks,
    known: &KnownSysmods,
    received: Received,
    wide: &WideCommand,
) -> Result<Option<Vec<u8>>, AllocError> {
    let refusals = remarks.refusals;
    let Some(command) = carry_command(alloc, remarks, known, received, wide)? else {
        return Ok(None);
    };
    if remarks.refusals != refusals {
        return Ok(None);
    }
    let mut cards = PrintedCards::new(alloc);
    print_command(alloc, &mut cards, &command)?;
    let records = cards.into_bytes()?;
    match unread_reason(alloc, known, received, wide, &command, &records)? {
        Some(reason) => {
            remark_on_unread(remarks, &command, reason)?;
            Ok(None)
        }
        None => Ok(Some(records)),
    }
}

// Why the records of `command` are not read back as one command that says exactly what the shop's command `wide` asks
// for, or `None` if they are.
fn unread_reason(
    alloc: Global,
    known: &KnownSysmods,
    received: Received,
    wide: &WideCommand,
    command: &CarriedCommand,
    records: &[u8],
) -> Result<Option<RemarkReason>, AllocError> {
    let read = match read_cntl(alloc, records) {
        Ok(read) => read,
        Err(CntlError::Memory) => return Err(AllocError),
        Err(CntlError::Fault { code, .. }) => return Ok(Some(fault_reason(command, code))),
    };
    if is_said_alone(alloc, known, received, wide, read.as_slice())? {
        Ok(None)
    } else {
        Ok(Some(RemarkReason::NotRead))
    }
}

// Remarks that a command is refused because its records are not read. If it lacks an operand, the remark names that
// operand.
fn remark_on_unread(
    remarks: &mut CommandRemarks,
    command: &CarriedCommand,
    reason: RemarkReason,
) -> Result<(), AllocError> {
    let operand = match reason {
        RemarkReason::Missing => required_operand(command.word),
        _ => b"",
    };
    let words = RemarkWords {
        command: command.word,
        operand,
        text: b"",
    };
    remarks.add(command.place, words, Deed::Refused, reason)
}

// The operand that the command must have, or an empty text if there is none.
fn required_operand(command: &[u8]) -> &'static [u8] {
    match command {
        b"SET" => b"BOUNDARY",
        b"REJECT" => b"SELECT",
        b"REPORT" => b"ERRSYSMODS",
        _ => b"",
    }
}

// Whether only one command was read, and it says exactly what the shop's command asks for.
fn is_said_alone(
    alloc: Global,
    known: &KnownSysmods,
    received: Received,
    wide: &WideCommand,
    read: &[Command],
) -> Result<bool, AllocError> {
    match read {
        [command] => says_after(alloc, known, received.sysmods, wide, command),
        _ => Ok(false),
    }
}

// The reason of the remark on a command that is not read, though it has only words of the profile.
fn fault_reason(command: &CarriedCommand, code: CommandCode) -> RemarkReason {
    match code {
        CommandCode::BadCommandOperand => RemarkReason::Missing,
        CommandCode::NoSingleList if command.has_select_or_group() => RemarkReason::Contradiction,
        CommandCode::NoSingleList => RemarkReason::NoList,
        CommandCode::UnknownCommand | CommandCode::OperandTwice | CommandCode::BadCommandForm =>
            RemarkReason::NotRead,
    }
}

// The records. Returns `None` if a remark refuses something, or if they are not read back as commands that say exactly
// what the shop's commands ask for.
fn checked_records(
    alloc: Global,
    remarks: &CommandRemarks,
    bytes: Vec<u8>,
    wide: &[WideCommand],
    known: &KnownSysmods,
) -> Result<Option<Vec<u8>>, AllocError>
    ensures { IfOk result (λ read. IfSome read (λ bytes. (commands : List terms.Command)
        × IsCommandFile bytes.items commands × AreSaid known.now wide.now commands)) }
{
    if remarks.refusals > 0 {
        return Ok(None);
    }
    let commands = match read_cntl(alloc, &bytes) {
        Ok(commands) => commands,
        Err(CntlError::Memory) => return Err(AllocError),
        Err(CntlError::Fault { .. }) => return Ok(None),
    };
    if !are_said(alloc, known, wide, commands.as_slice())? {
        return Ok(None);
    }
    Ok(Some(bytes))
}
