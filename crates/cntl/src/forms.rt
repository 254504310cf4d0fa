//! The operands of each command.
ghost use Rattle.std.specs.Prelude.{◌≡◌, IfOk, IfErr, OnErr};
ghost use Rattle.terms.specs.Types as terms;
ghost use Rattle.terms.specs.Operands.{operand};
ghost use Rattle.terms.specs.CommandForms.{HasReceive, HasSelection, HasInstall, HasRestoreList, HasOperands};
ghost use Rattle.terms.specs.CommandForms.{command_word};
ghost use Rattle.rec80.specs.Views.{words_of};
ghost use Rattle.rec80.specs.Failing.{Excludes};
ghost use Rattle.fields.specs.Choices.{restore_list_of};
ghost use Rattle.cntl.specs.Views.{command_of};
ghost use Rattle.cntl.specs.Singles.{AreSingle};

use crate::bypassed::read_bypass;
use crate::command::{Command, Install};
use crate::operand_values::{flag_of, optional_list, required_ids, short_list};
use fields::{Id, ReceiveOperands, RestoreList, Selection, Source, ZoneName};
use rec80::{BadOperand, OperandError, Word, operand, optional, required};
use std::alloc::Global;
use terms::CommandWord;

// What RECEIVE reads. It reads both files if the command names neither.
fn read_receive(words: &[Word<'_>]) -> Result<ReceiveOperands, BadOperand>
    ensures ok { IfOk result (λ what. HasReceive (words_of words.now) what) }
    ensures bad { OnErr result ((what : terms.ReceiveOperands) → HasReceive (words_of words.now) what → ⊥) }
{
    let sysmods = flag_of(words, b"SYSMODS")?;
    let holddata = flag_of(words, b"HOLDDATA")?;
    let source = optional::<Source>(words, b"SOURCEID")?;
    Ok(ReceiveOperands {
        sysmods: sysmods || !holddata,
        holddata: holddata || !sysmods,
        source,
    })
}

// What APPLY or ACCEPT chooses.
fn read_selection(alloc: Global, words: &[Word<'_>]) -> Result<Selection, OperandError>
    ensures ok { IfOk result (λ s. HasSelection (words_of words.now) s) }
    ensures bad { IfErr result (λ e. Excludes e ((s : terms.Selection) × HasSelection (words_of words.now) s)) }
{
    let functions = flag_of(words, b"FUNCTIONS")?;
    let ptfs = flag_of(words, b"PTFS")?;
    let apars = flag_of(words, b"APARS")?;
    let usermods = flag_of(words, b"USERMODS")?;
    let groupextend = flag_of(words, b"GROUPEXTEND")?;
    let select = optional_list::<Id>(alloc, words, b"SELECT")?;
    let exclude = optional_list::<Id>(alloc, words, b"EXCLUDE")?;
    let sourceid = optional_list::<Source>(alloc, words, b"SOURCEID")?;
    let forfmid = optional_list::<Id>(alloc, words, b"FORFMID")?;
    let group = optional_list::<Id>(alloc, words, b"GROUP")?;
    Ok(Selection {
        functions,
        ptfs,
        apars,
        usermods,
        select,
        exclude,
        sourceid,
        forfmid,
        group,
        groupextend,
    })
}

// The operands of APPLY or ACCEPT.
fn read_install(
    alloc: Global,
    word: CommandWord,
    words: &[Word<'_>],
) -> Result<Install, OperandError>
    ensures ok { AreSingle word (words_of words.now) → IfOk result (λ i. HasInstall word (words_of words.now) i) }
    ensures bad { IfErr result (λ e. Excludes e ((i : terms.Install) × HasInstall word (words_of words.now) i)) }
{
    let check = flag_of(words, b"CHECK")?;
    let selection = read_selection(alloc, words)?;
    let bypass = read_bypass(alloc, word, words)?;
    Ok(Install {
        selection,
        bypass,
        check,
    })
}

// The ids of SELECT or of GROUP, exactly one of which must be present.
fn read_restore_list(alloc: Global, words: &[Word<'_>]) -> Result<RestoreList, OperandError>
    ensures ok { IfOk result (λ list. HasRestoreList (words_of words.now) (restore_list_of list)) }
    ensures bad { IfErr result (λ e. Excludes e ((list : terms.RestoreList)
        × HasRestoreList (words_of words.now) list)) }
{
    match (operand(words, b"SELECT"), operand(words, b"GROUP")) {
        (Some(ids), None) => Ok(RestoreList::Select(short_list::<Id>(alloc, &ids)?)),
        (None, Some(ids)) => Ok(RestoreList::Group(short_list::<Id>(alloc, &ids)?)),
        _ => Err(OperandError::Bad),
    }
}

/// The command of this word and of its operands. The caller has made sure that the command may have each of them, and
/// that no member of BYPASS occurs twice. Returns `Memory` if memory runs out, and `Bad` if an operand has a bad form,
/// if one that the command needs is absent, or if RESTORE has both SELECT and GROUP.
pub fn read_operands(
    alloc: Global,
    word: CommandWord,
    words: &[Word<'_>],
) -> Result<Command, OperandError>
    ensures word { IfOk result (λ c. command_word (command_of c) ≡ word) }
    ensures ok { AreSingle word (words_of words.now)
        → IfOk result (λ c. HasOperands (words_of words.now) (command_of c)) }
    ensures bad { IfErr result (λ e. Excludes e ((c : terms.Command) × ((command_word c ≡ word)
        × HasOperands (words_of words.now) c))) }
{
    match word {
        CommandWord::Set => match required::<ZoneName>(words, b"BDY") {
            Some(zone) => Ok(Command::Set(zone)),
            None => Err(OperandError::Bad),
        },
        CommandWord::Receive => Ok(Command::Receive(read_receive(words)?)),
        CommandWord::Reject => Ok(Command::Reject(required_ids(alloc, words, b"SELECT")?)),
        CommandWord::Apply => Ok(Command::Apply(read_install(alloc, CommandWord::Apply, words)?)),
        CommandWord::Accept => Ok(Command::Accept(read_install(
            alloc,
            CommandWord::Accept,
            words,
        )?)),
        CommandWord::Restore => Ok(Command::Restore {
            list: read_restore_list(alloc, words)?,
            check: flag_of(words, b"CHECK")?,
        }),
        CommandWord::List => Ok(Command::List {
            text: flag_of(words, b"TEXT")?,
        }),
        CommandWord::Report => {
            if !flag_of(words, b"ERRSYSMODS")? {
                return Err(OperandError::Bad);
            }
            Ok(Command::Report)
        }
    }
}
