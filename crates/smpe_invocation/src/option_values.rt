//! The values of the options.
ghost use Rattle.std.specs.Prelude.{◌≡◌, ◌↔◌, ℕ, All, List, Option, Some, map, option_map, codes};
ghost use Rattle.std.specs.Prelude.{IsTrue, IsSome, IfOk, IfErr, IfSome};
ghost use Rattle.std.specs.String.{string_bytes};
ghost use Rattle.terms.specs.Forms.{IsId};
ghost use Rattle.terms.specs.Types.{Text};
ghost use Rattle.terms.specs.declared.kinds.ZoneKind.{ZoneKind};
ghost use Rattle.clap.specs.Words.{all_of, first_of, found_of, rows_of};
ghost use Rattle.smpe_invocation.specs.Answers.{Excludes};
ghost use Rattle.smpe_invocation.specs.Values.{AreIds, AreSeconds, HasDatabase, HasDate, HasFiles, HasFlag};
ghost use Rattle.smpe_invocation.specs.Values.{HasIds, HasKind, HasOptional, HasRelated, HasSrel, HasText};
ghost use Rattle.smpe_invocation.specs.Values.{HasZoneName, IsForm, IsWait, Lacks};
ghost use Rattle.smpe_invocation.specs.declared.asked.DatabaseFile.{DatabaseFile};
ghost use Rattle.smpe_invocation.specs.declared.asked.LintForm.{LintForm};

use crate::asked::{DatabaseFile, LintForm};
use crate::date::read_date;
use crate::fault::ArgFault;
use clap::ArgMatches;
use fields::spelling::read_zone_kind;
use fields::{Id, Srel, YyDdd, ZoneName};
use std::alloc::{AllocError, Global};
use terms::ZoneKind;

// The longest time to wait for a database, in seconds.
const LONGEST_WAIT: u32 = 9_999;

// The text of the option, if the words have the option.
fn option_text<'a>(found: &ArgMatches<'a>, option: &str) -> Option<&'a str>
    ensures { option_map (λ text. text.now) result ≡ first_of option.now (rows_of (found_of found.now)) }
{
    found.get_str(option)
}

// The text of a required option. Returns `BadOperand` if the words lack the option.
fn required_text<'a>(found: &ArgMatches<'a>, option: &str) -> Result<&'a str, ArgFault>
    ensures ok { IfOk result (λ text. HasText option.now (rows_of (found_of found.now)) text.now) }
    ensures err { IfErr result (λ e. Excludes e ((text : Text) × HasText option.now (rows_of (found_of found.now)) text)) }
{
    option_text(found, option).ok_or(ArgFault::BadOperand)
}

/// Whether the words do not have the option.
pub(crate) fn lacks(found: &ArgMatches<'_>, option: &str) -> bool
    ensures { IsTrue result ↔ Lacks option.now (rows_of (found_of found.now)) }
{
    option_text(found, option).is_none()
}

/// Whether the flag is set. `clap` gives a flag the text `true` or `false`.
pub(crate) fn has_flag(found: &ArgMatches<'_>, option: &str) -> bool
    ensures { HasFlag option.now (rows_of (found_of found.now)) result }
{
    match option_text(found, option) {
        Some(text) => text == "true",
        None => false,
    }
}

/// A copy of the text of a required option, as of a file's name. Returns `BadOperand` if the words lack the option.
pub(crate) fn copy_required_text(
    alloc: Global,
    found: &ArgMatches<'_>,
    option: &str,
) -> Result<String, ArgFault>
    ensures ok { IfOk result (λ text. HasText option.now (rows_of (found_of found.now)) (string_bytes text)) }
    ensures err { IfErr result (λ e. Excludes e ((text : Text) × HasText option.now (rows_of (found_of found.now)) text)) }
{
    Ok(String::from_str(alloc, required_text(found, option)?)?)
}

/// A copy of the text of an option, or `None` if the words lack the option.
pub(crate) fn copy_optional_text(
    alloc: Global,
    found: &ArgMatches<'_>,
    option: &str,
) -> Result<Option<String>, AllocError>
    ensures { IfOk result (λ text. HasOptional option.now (rows_of (found_of found.now)) (option_map string_bytes text)) }
{
    match option_text(found, option) {
        Some(text) => Ok(Some(String::from_str(alloc, text)?)),
        None => Ok(None),
    }
}

/// Reads a whole number of seconds, at most 9,999. Returns `None` for any other text.
pub fn read_seconds(text: &str) -> Option<u32>
    ensures some { IfSome result (AreSeconds text.now) }
    ensures none { IsSome result ↔ ((seconds : ℕ) × AreSeconds text.now seconds) }
{
    let seconds: u32 = text.parse().ok()?;
    if seconds <= LONGEST_WAIT {
        Some(seconds)
    } else {
        None
    }
}

// The seconds of `--wait`, or 0 if the words lack it.
fn read_wait(found: &ArgMatches<'_>) -> Result<u32, ArgFault>
    ensures ok { IfOk result (IsWait (first_of (codes "wait") (rows_of (found_of found.now)))) }
    ensures err { IfErr result (λ e. Excludes e ((seconds : ℕ)
        × IsWait (first_of (codes "wait") (rows_of (found_of found.now))) seconds)) }
{
    match option_text(found, "wait") {
        Some(text) => read_seconds(text).ok_or(ArgFault::BadOperand),
        None => Ok(0),
    }
}

/// The database file of `--db`, and how long `--wait` says to wait for it.
pub(crate) fn read_database(alloc: Global, found: &ArgMatches<'_>) -> Result<DatabaseFile, ArgFault>
    ensures ok { IfOk result (HasDatabase (rows_of (found_of found.now))) }
    ensures err { IfErr result (λ e. Excludes e ((db : DatabaseFile) × HasDatabase (rows_of (found_of found.now)) db)) }
{
    let wait = read_wait(found)?;
    let name = copy_required_text(alloc, found, "db")?;
    Ok(DatabaseFile { name, wait })
}

/// The name of a zone, from a required option.
pub(crate) fn read_zone_name(found: &ArgMatches<'_>, option: &str) -> Result<ZoneName, ArgFault>
    ensures ok { IfOk result (λ name. HasZoneName option.now (rows_of (found_of found.now)) name) }
    ensures err { IfErr result (λ e. Excludes e ((name : Text)
        × HasZoneName option.now (rows_of (found_of found.now)) name)) }
{
    ZoneName::read(required_text(found, option)?.as_bytes()).ok_or(ArgFault::BadOperand)
}

/// The kind of `--kind`.
pub(crate) fn read_kind(found: &ArgMatches<'_>) -> Result<ZoneKind, ArgFault>
    ensures ok { IfOk result (λ kind. HasKind (rows_of (found_of found.now)) kind) }
    ensures err { IfErr result (λ e. Excludes e ((kind : ZoneKind) × HasKind (rows_of (found_of found.now)) kind)) }
{
    read_zone_kind(required_text(found, "kind")?.as_bytes()).ok_or(ArgFault::BadOperand)
}

/// The SREL of `--srel`.
pub(crate) fn read_srel(found: &ArgMatches<'_>) -> Result<Srel, ArgFault>
    ensures ok { IfOk result (λ srel. HasSrel (rows_of (found_of found.now)) srel) }
    ensures err { IfErr result (λ e. Excludes e ((srel : Text) × HasSrel (rows_of (found_of found.now)) srel)) }
{
    Srel::read(required_text(found, "srel")?.as_bytes()).ok_or(ArgFault::BadOperand)
}

/// The zone name of `--related`, or `None` if the words lack it.
pub(crate) fn read_related(found: &ArgMatches<'_>) -> Result<Option<ZoneName>, ArgFault>
    ensures ok { IfOk result (λ related. HasRelated (rows_of (found_of found.now)) related) }
    ensures err { IfErr result (λ e. Excludes e ((related : _) × HasRelated (rows_of (found_of found.now)) related)) }
{
    if lacks(found, "related") {
        return Ok(None);
    }
    let name = read_zone_name(found, "related")?;
    Ok(Some(name))
}

// The id that the text spells. Returns `BadOperand` if the text does not have the form of an id.
fn read_id(text: &str) -> Result<Id, ArgFault>
    ensures ok { IfOk result (λ id. (id ≡ text.now) × IsId id) }
    ensures err { IfErr result (λ e. Excludes e (IsId text.now)) }
{
    Id::read(text.as_bytes()).ok_or(ArgFault::BadOperand)
}

// The ids that the texts spell, in their order. Returns `BadOperand` at the first text that spells none.
fn read_ids(alloc: Global, texts: &[&str]) -> Result<Vec<Id>, ArgFault>
    ensures ok { IfOk result (λ ids. (ids.items ≡ map (λ text. text.now) texts.now) × All IsId ids.items) }
    ensures err { IfErr result (λ e. Excludes e (All IsId (map (λ text. text.now) texts.now))) }
{
    let mut ids = Vec::new(alloc);
    for text in texts {
        let id = read_id(text)?;
        ids.push(id)?;
    }
    Ok(ids)
}

// The texts of an option that may be repeated, if the words have it.
fn option_texts<'a, 'b>(found: &'b ArgMatches<'a>, option: &str) -> Option<&'b [&'a str]>
    ensures { option_map (λ texts. map (λ text. text.now) texts.now) result
        ≡ all_of option.now (rows_of (found_of found.now)) }
{
    found.get_strs(option)
}

// Copies of the texts.
fn copy_texts(alloc: Global, texts: &[&str]) -> Result<Vec<String>, AllocError>
    ensures { IfOk result (λ copies. map string_bytes copies.items ≡ map (λ text. text.now) texts.now) }
{
    let mut copies = Vec::new(alloc);
    for text in texts {
        let copy = String::from_str(alloc, *text)?;
        copies.push(copy)?;
    }
    Ok(copies)
}

/// The names of the files that are not values of options. Returns `BadOperand` if the words have none.
pub(crate) fn read_files(alloc: Global, found: &ArgMatches<'_>) -> Result<Vec<String>, ArgFault>
    ensures ok { IfOk result (λ files. HasFiles (rows_of (found_of found.now)) (map string_bytes files.items)) }
    ensures err { IfErr result (λ e. Excludes e ((files : List Text) × HasFiles (rows_of (found_of found.now)) files)) }
{
    let Some(texts) = option_texts(found, "file") else {
        return Err(ArgFault::BadOperand);
    };
    if texts.is_empty() {
        return Err(ArgFault::BadOperand);
    }
    let files = copy_texts(alloc, texts)?;
    Ok(files)
}

/// The form of `--form`, or `Text` if the words lack it. Returns `BadOperand` for any other text, which `clap` refuses
/// before.
pub(crate) fn read_form(found: &ArgMatches<'_>) -> Result<LintForm, ArgFault>
    ensures ok { IfOk result (IsForm (first_of (codes "form") (rows_of (found_of found.now)))) }
    ensures err { IfErr result (λ e. Excludes e ((form : LintForm)
        × IsForm (first_of (codes "form") (rows_of (found_of found.now))) form)) }
{
    let Some(text) = option_text(found, "form") else {
        return Ok(LintForm::Text);
    };
    if text == "text" {
        Ok(LintForm::Text)
    } else if text == "json" {
        Ok(LintForm::Json)
    } else {
        Err(ArgFault::BadOperand)
    }
}

/// The ids of `--id`. Returns `BadOperand` if the words have none.
pub(crate) fn read_required_ids(alloc: Global, found: &ArgMatches<'_>) -> Result<Vec<Id>, ArgFault>
    ensures ok { IfOk result (λ ids. HasIds (rows_of (found_of found.now)) ids.items) }
    ensures err { IfErr result (λ e. Excludes e ((ids : List Text) × HasIds (rows_of (found_of found.now)) ids)) }
{
    match option_texts(found, "id") {
        Some(texts) => read_ids(alloc, texts),
        None => Err(ArgFault::BadOperand),
    }
}

/// The ids of an option that may be repeated; none if the words lack the option.
pub(crate) fn read_optional_ids(
    alloc: Global,
    found: &ArgMatches<'_>,
    option: &str,
) -> Result<Vec<Id>, ArgFault>
    ensures ok { IfOk result (λ ids. AreIds (all_of option.now (rows_of (found_of found.now))) ids.items) }
    ensures err { IfErr result (λ e. Excludes e ((ids : List Text)
        × AreIds (all_of option.now (rows_of (found_of found.now))) ids)) }
{
    match option_texts(found, option) {
        Some(texts) => read_ids(alloc, texts),
        None => Ok(Vec::new(alloc)),
    }
}

/// The date of `--date`.
pub(crate) fn read_job_date(found: &ArgMatches<'_>) -> Result<YyDdd, ArgFault>
    ensures ok { IfOk result (λ date. HasDate (rows_of (found_of found.now)) date) }
    ensures err { IfErr result (λ e. Excludes e ((date : Text) × HasDate (rows_of (found_of found.now)) date)) }
{
    read_date(required_text(found, "date")?).ok_or(ArgFault::BadOperand)
}
