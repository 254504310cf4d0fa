//! BYPASS, by the text of its list.
ghost use Rattle.std.specs.Prelude.{◌≡◌, ◌<◌, ◌+◌, ◌-◌, ◌++◌, [], ◌∷◌, None, Some, map, replicate, IfOk, IfSome};
ghost use Rattle.std.specs.Prelude.{IfNone, IsTrue, IsFalse, OnOk, if◌then◌else◌};
ghost use Rattle.terms.specs.Types.{Install as AnInstall, Accept};
ghost use Rattle.terms.specs.Commands.{IsCommandFile};
ghost use Rattle.terms.specs.Statement.{is_blank};
ghost use Rattle.cntl.specs.Views.{command_of};
ghost use Rattle.smpe_why.specs.BypassText.{accept_text, carded, is_carded, chooses_nothing, only_bypasses, IsBypassOf};

use cntl::{CntlError, Command, Install, read_cntl};
use fields::{Bypass, Selection};
use std::alloc::{AllocError, Global};

// The columns of a record.
const RECORD_COLUMNS: usize = 80;

// The columns of a record that have text of a command.
const TEXT_COLUMNS: usize = 72;

// Whether the byte stands between words, so that the text may go on in the next record after it.
fn separates_words(byte: u8) -> bool
    ensures { result ≡ is_blank byte }
{
    byte == b' ' || byte == b','
}

// Fills the rest of a record with blanks, after the `column` columns that are written.
fn fill_record(column: usize, file: &mut Vec<u8>) -> Result<(), AllocError>
    ensures { OnOk result (file.new.items ≡ file.old.items ++ replicate (80 - column) 32) }
{
    for _place in 0..RECORD_COLUMNS.saturating_sub(column) {
        file.push(b' ')?;
    }
    Ok(())
}

// Appends the byte after `column` columns of a record, and ends the record if the byte is a blank or a comma. Returns
// how many columns of the current record are written now: 0 if the byte ended a record.
fn append_byte(byte: u8, column: usize, file: &mut Vec<u8>) -> Result<usize, AllocError>
    requires { column < TEXT_COLUMNS }
    ensures column { IfOk result (λ next. next ≡ (if is_blank byte then 0 else column + 1)) }
    ensures file { OnOk result (file.new.items
        ≡ file.old.items ++ byte ∷ (if is_blank byte then replicate (80 - (column + 1)) 32 else [])) }
{
    file.push(byte)?;
    if separates_words(byte) {
        fill_record(column + 1, file)?;
        return Ok(0);
    }
    Ok(column + 1)
}

// The text as the records of a command file. A record ends after each blank and each comma. `None` if a record needs
// more than 72 columns.
fn records_of_text(alloc: Global, text: &[u8]) -> Result<Option<Vec<u8>>, AllocError>
    ensures some { IfOk result (λ file. IfSome file (λ f. IsTrue (is_carded 0 text.now)
        × (f.items ≡ carded 0 text.now))) }
    ensures none { IfOk result (λ file. IfNone file (IsFalse (is_carded 0 text.now))) }
{
    let mut file = Vec::new(alloc);
    let mut column = 0;
    for byte in text {
        if column >= TEXT_COLUMNS {
            return Ok(None);
        }
        column = append_byte(*byte, column, &mut file)?;
    }
    fill_record(column, &mut file)?;
    Ok(Some(file))
}

// The text of an ACCEPT with this list as its BYPASS.
fn accept_text(alloc: Global, list: &[u8]) -> Result<Vec<u8>, AllocError>
    ensures { IfOk result (λ text. text.items ≡ accept_text list.now) }
{
    let mut text = Vec::new(alloc);
    text.extend_from_slice(b"ACCEPT BYPASS(")?;
    text.extend_from_slice(list)?;
    text.extend_from_slice(b").")?;
    Ok(text)
}

// Whether no operand chooses any SYSMOD.
fn chooses_nothing(selection: &Selection) -> bool
    ensures { result ≡ chooses_nothing selection.now }
{
    !selection.functions
        && !selection.ptfs
        && !selection.apars
        && !selection.usermods
        && selection.select.is_empty()
        && selection.exclude.is_empty()
        && selection.sourceid.is_empty()
        && selection.forfmid.is_empty()
        && selection.group.is_empty()
        && !selection.groupextend
}

// Whether BYPASS is the only operand.
fn only_bypasses(install: &Install) -> bool
    ensures { result ≡ only_bypasses install.now }
{
    chooses_nothing(&install.selection) && !install.check
}

// The BYPASS of a command, if it is an ACCEPT without any other operand; otherwise `None`.
fn bypass_of_command(command: Command) -> Option<Bypass>
    ensures some { IfSome result (λ b. (i : AnInstall) × (command_of command ≡ Accept i) × IsTrue (only_bypasses i)
        × (i.bypass ≡ b)) }
    ensures none { IfNone result ((i : AnInstall) → command_of command ≡ Accept i → IsFalse (only_bypasses i)) }
{
    match command {
        Command::Accept(install) => {
            if !only_bypasses(&install) {
                return None;
            }
            let Install { bypass, .. } = install;
            Some(bypass)
        }
        _ => None,
    }
}

// The BYPASS of these commands, if they are one ACCEPT that has no other operand; otherwise `None`.
fn bypass_of_commands(mut commands: Vec<Command>) -> Option<Bypass>
    ensures some { IfSome result (λ b. (i : AnInstall) × (map command_of commands.items ≡ Accept i ∷ [])
        × IsTrue (only_bypasses i) × (i.bypass ≡ b)) }
    ensures none { IfNone result ((i : AnInstall) → map command_of commands.items ≡ Accept i ∷ []
        → IsFalse (only_bypasses i)) }
{
    let command = commands.pop()?;
    if !commands.is_empty() {
        return None;
    }
    bypass_of_command(command)
}

// The BYPASS of this command file, if it is one ACCEPT without any other operand. `None` if it is another command or
// more than one, or if the file has a fault.
fn bypass_of_file(alloc: Global, file: &[u8]) -> Result<Option<Bypass>, AllocError>
    ensures some { IfOk result (λ found. IfSome found (λ b. (i : AnInstall) × IsCommandFile file.now (Accept i ∷ [])
        × IsTrue (only_bypasses i) × (i.bypass ≡ b))) }
    ensures none { IfOk result (λ found. IfNone found ((i : AnInstall) → IsCommandFile file.now (Accept i ∷ [])
        → IsFalse (only_bypasses i))) }
{
    match read_cntl(alloc, file) {
        Ok(commands) => Ok(bypass_of_commands(commands)),
        Err(CntlError::Memory) => Err(AllocError),
        Err(CntlError::Fault { .. }) => Ok(None),
    }
}

/// Reads the list of a BYPASS as ACCEPT takes it: puts it into the command file of an ACCEPT, and reads that. Returns
/// `None` if ACCEPT takes no such list, and an error if memory runs out.
pub fn read_bypass(alloc: Global, list: &[u8]) -> Result<Option<Bypass>, AllocError>
    ensures { IfOk result (λ found. IsBypassOf list.now found) }
{
    let text = accept_text(alloc, list)?;
    match records_of_text(alloc, text.as_slice())? {
        Some(file) => bypass_of_file(alloc, file.as_slice()),
        None => Ok(None),
    }
}
