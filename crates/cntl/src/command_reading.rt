//! One command.
ghost use Rattle.std.specs.Prelude.{List, IfOk, IfErr, IfSome, IfNone};
ghost use Rattle.terms.specs.declared.codes.CommandWord.{CommandWord};
ghost use Rattle.terms.specs.Statement.{Piece as AnyPiece};
ghost use Rattle.terms.specs.CommandForms.{IsCommand};
ghost use Rattle.terms.specs.Commands.{BeginsWith};
ghost use Rattle.rec80.specs.Left.{LeavesPieces};
ghost use Rattle.cntl.specs.Views.{command_of};
ghost use Rattle.cntl.specs.Faults.{FailsCommand};

use crate::command::Command;
use crate::doubles::has_double;
use crate::error::CommandReadError;
use crate::forms::read_operands;
use crate::restore_choice::lacks_single_list;
use crate::tables::operands_of;
use fields::spelling::read_word;
use rec80::{OperandError, Piece, Words};
use std::alloc::Global;
use terms::{CommandCode, CommandWord};

// Takes the first word and returns the command that it names, if it names one.
fn take_command_word(left: &mut Words<'_>) -> Option<CommandWord>
    ensures word { IfSome result (λ w. (pieces : List AnyPiece) → LeavesPieces left.old pieces
        → (rest : List AnyPiece) × BeginsWith pieces w rest × LeavesPieces left.new rest) }
    ensures none { IfNone result ((pieces : List AnyPiece) → LeavesPieces left.old pieces
        → (w : CommandWord) (rest : List AnyPiece) → BeginsWith pieces w rest → ⊥) }
{
    let piece = left.next_piece()?;
    let Piece::Word(text) = piece else {
        return None;
    };
    read_word(text)
}

/// Reads the command of these words. Returns `Memory` if memory runs out. `Fault` is the first that applies of
/// `UnknownCommand` if they begin with no command, `OperandTwice` if an operand or a member of BYPASS occurs twice,
/// `NoSingleList` if RESTORE has both SELECT and GROUP or neither, and `BadCommandOperand` if anything else is wrong
/// with an operand.
pub fn read_command(alloc: Global, words: &Words<'_>) -> Result<Command, CommandReadError>
    ensures command { (pieces : List AnyPiece) → LeavesPieces words.now pieces
        → IfOk result (λ c. IsCommand pieces (command_of c)) }
    ensures fault { (pieces : List AnyPiece) → LeavesPieces words.now pieces
        → IfErr result (λ e. FailsCommand pieces e) }
{
    let mut rest = *words;
    let Some(word) = take_command_word(&mut rest) else {
        return Err(CommandReadError::Fault(CommandCode::UnknownCommand));
    };
    let Ok(operands) = rest.operands(alloc) else {
        return Err(CommandReadError::Memory);
    };
    if has_double(word, &operands) {
        return Err(CommandReadError::Fault(CommandCode::OperandTwice));
    }
    if lacks_single_list(word, &operands) {
        return Err(CommandReadError::Fault(CommandCode::NoSingleList));
    }
    let Some(named) = operands.words_named(operands_of(word)) else {
        return Err(CommandReadError::Fault(CommandCode::BadCommandOperand));
    };
    match read_operands(alloc, word, named) {
        Ok(command) => Ok(command),
        Err(OperandError::Memory) => Err(CommandReadError::Memory),
        Err(OperandError::Bad) => Err(CommandReadError::Fault(CommandCode::BadCommandOperand)),
    }
}
