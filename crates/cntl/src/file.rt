//! Whole files.
ghost use Rattle.std.specs.Prelude.{◌≡◌, ◌<◌, ℕ, List, length, map, IfOk, IfErr, IfSome, IfNone, OnOk};
ghost use Rattle.terms.specs.Types as terms;
ghost use Rattle.terms.specs.Statement.{Piece, IsIdle, joined};
ghost use Rattle.terms.specs.CommandCuts.{TakesCommand};
ghost use Rattle.terms.specs.CommandForms.{IsCommand};
ghost use Rattle.terms.specs.Commands.{CntlFault, IsCommandFile, IsCommandFileFault};
ghost use Rattle.cntl.specs.Views.{command_of};
ghost use Rattle.cntl.specs.Faults.{FailsNext, FailsFile};

use crate::command::Command;
use crate::command_reading::read_command;
use crate::error::{CntlError, CommandReadError};
use rec80::{Commands, records};
use std::alloc::Global;
use terms::CommandCode;

// Reads the next command, if there is one. The error is the fault of the file at the record of that command.
fn read_next(alloc: Global, left: &mut Commands<'_>) -> Result<Option<Command>, CntlError>
    ensures command { IfOk result (λ found. IfSome found (λ c. (pieces : List Piece) × (number : ℕ)
        × TakesCommand left.old.number left.old.rest.now pieces number left.new.number left.new.rest.now
        × IsCommand pieces (command_of c))) }
    ensures end { IfOk result (λ found. IfNone found (IsIdle (joined left.old.rest.now))) }
    ensures fault { IfErr result (λ e. FailsNext left.old.number left.old.rest.now e) }
    ensures shorter { IfOk result (λ found. IfSome found (λ c. length left.new.rest.now < length left.old.rest.now)) }
{
    let found = match left.next_command() {
        Ok(found) => found,
        Err(fault) => {
            return Err(CntlError::Fault {
                number: fault.number,
                code: CommandCode::BadCommandForm,
            });
        }
    };
    let Some(command) = found else {
        return Ok(None);
    };
    match read_command(alloc, &command.words) {
        Ok(read) => Ok(Some(read)),
        Err(CommandReadError::Memory) => Err(CntlError::Memory),
        Err(CommandReadError::Fault(code)) => Err(CntlError::Fault {
            number: command.number,
            code,
        }),
    }
}

/// The commands of a command file. Returns `Memory` if memory runs out. `Fault` is `BadCommandForm` at the first bad
/// record, wherever it is. Otherwise it is the fault of the first bad command, at the record where the command begins:
/// `BadCommandForm` also if its form is bad, or if a comment between commands is not closed.
pub fn read_cntl(alloc: Global, bytes: &[u8]) -> Result<Vec<Command>, CntlError>
    ensures commands { IfOk result (λ read. IsCommandFile bytes.now (map command_of read.items)) }
    ensures good { (cs : List terms.Command) → IsCommandFile bytes.now cs → IfErr result (λ e. e ≡ CntlError.Memory) }
    ensures fault { IfErr result (λ e. FailsFile bytes.now e) }
    ensures faulty { (fault : CntlFault) → IsCommandFileFault bytes.now fault → OnOk result ⊥ }
{
    let file = match records(bytes) {
        Ok(file) => file,
        Err(fault) => {
            return Err(CntlError::Fault {
                number: fault.record(),
                code: CommandCode::BadCommandForm,
            });
        }
    };
    let mut left = file.commands();
    let mut read = Vec::new(alloc);
    while let Some(command) = read_next(alloc, &mut left)? {
        read.push(command)?;
    }
    Ok(read)
}
