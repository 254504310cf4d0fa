//! What the words of the command line ask for.
ghost use Rattle.std.specs.Prelude.{map, option_map, codes, IfOk, IfErr};
ghost use Rattle.clap.specs.Words.{found_of, rows_of};
ghost use Rattle.smpe_invocation.specs.Answers.{Excludes, IsMet, IsRead, IsRefused};
ghost use Rattle.smpe_invocation.specs.Values.{HasValues};
ghost use Rattle.smpe_invocation.specs.declared.asked.Invocation.{Invocation};

use crate::answer_form::read_check_answer;
use crate::asked::{Invocation, LintOptions, MendOptions, RunOptions, WhyOptions, ZoneDefinition};
use crate::checked::{read_checked_system, read_mended_system, read_service_set};
use crate::command::command_line;
use crate::fault::ArgFault;
use crate::option_values::{
    copy_optional_text, copy_required_text, has_flag, read_database, read_files, read_form,
    read_job_date, read_kind, read_related, read_required_ids, read_srel, read_zone_name,
};
use clap::ArgMatches;
use std::alloc::Global;

/// Reads the words, the first of which is the program's name. Returns `Memory` if memory runs out, `Clap` if `clap`
/// refuses the words or has a text to show instead of them, as for `--help`, and `BadOperand` if a name, an id, an
/// SREL, a date or a number of seconds has a bad form, if `check` or `mend` is asked about no system or about two, if
/// `check` gets no service set or one of both forms, or `--hold` without `--ptfin`, if `--json` or `--certificate` is
/// given with `--ptfin` or `--cntl`, or `--json` with `--report` or `--why`.
pub fn invocation<'a>(alloc: Global, words: &'a [&'a str]) -> Result<Invocation, ArgFault>
    ensures ok { IfOk result (IsRead (map (λ word. word.now) words.entry.now)) }
    ensures err { IfErr result (IsRefused (map (λ word. word.now) words.entry.now)) }
{
    let matches = command_line(alloc)?.try_get_matches_from(words)?;
    read_subcommand_options(alloc, matches.subcommand())
}

// Reads the options of the subcommand that `clap` found, which is given by its name and its matches.
fn read_subcommand_options(
    alloc: Global,
    subcommand: Option<(&str, &ArgMatches<'_>)>,
) -> Result<Invocation, ArgFault>
    ensures ok { IfOk result (IsMet (option_map (λ p. (p.0.now, rows_of (found_of p.1.now))) subcommand.entry)) }
    ensures err { IfErr result (λ e. Excludes e ((invocation : Invocation)
        × IsMet (option_map (λ p. (p.0.now, rows_of (found_of p.1.now))) subcommand.entry) invocation)) }
{
    let Some((name, found)) = subcommand else {
        return Err(ArgFault::BadOperand);
    };
    if name == "zone" {
        read_zone_options(alloc, found)
    } else if name == "run" {
        read_run_options(alloc, found)
    } else if name == "list" {
        read_list_options(alloc, found)
    } else if name == "why" {
        read_why_options(alloc, found)
    } else if name == "check" {
        read_check_options(alloc, found)
    } else if name == "mend" {
        read_mend_options(alloc, found)
    } else if name == "lint" {
        read_lint_options(alloc, found)
    } else if name == "migrate" {
        read_migrate_options(alloc, found)
    } else if name == "verify" {
        read_verify_options(alloc, found)
    } else {
        Err(ArgFault::BadOperand)
    }
}

// Each of the following functions reads the options of one subcommand. It returns `BadOperand` if a required one is
// missing or one has a bad form.
fn read_zone_options(alloc: Global, found: &ArgMatches<'_>) -> Result<Invocation, ArgFault>
    ensures ok { IfOk result (HasValues (codes "zone", rows_of (found_of found.now))) }
    ensures err { IfErr result (λ e. Excludes e ((invocation : Invocation)
        × HasValues (codes "zone", rows_of (found_of found.now)) invocation)) }
{
    let name = read_zone_name(found, "name")?;
    let kind = read_kind(found)?;
    let srel = read_srel(found)?;
    let related = read_related(found)?;
    let db = read_database(alloc, found)?;
    let definition = ZoneDefinition {
        name,
        kind,
        srel,
        related,
    };
    Ok(Invocation::Zone { db, definition })
}

fn read_run_options(alloc: Global, found: &ArgMatches<'_>) -> Result<Invocation, ArgFault>
    ensures ok { IfOk result (HasValues (codes "run", rows_of (found_of found.now))) }
    ensures err { IfErr result (λ e. Excludes e ((invocation : Invocation)
        × HasValues (codes "run", rows_of (found_of found.now)) invocation)) }
{
    let date = read_job_date(found)?;
    let db = read_database(alloc, found)?;
    let cntl = copy_required_text(alloc, found, "cntl")?;
    let ptfin = copy_optional_text(alloc, found, "ptfin")?;
    let hold = copy_optional_text(alloc, found, "hold")?;
    let options = RunOptions {
        date,
        cntl,
        ptfin,
        hold,
        careful: has_flag(found, "careful"),
    };
    Ok(Invocation::Run { db, options })
}

fn read_list_options(alloc: Global, found: &ArgMatches<'_>) -> Result<Invocation, ArgFault>
    ensures ok { IfOk result (HasValues (codes "list", rows_of (found_of found.now))) }
    ensures err { IfErr result (λ e. Excludes e ((invocation : Invocation)
        × HasValues (codes "list", rows_of (found_of found.now)) invocation)) }
{
    let zone = read_zone_name(found, "zone")?;
    let db = read_database(alloc, found)?;
    Ok(Invocation::List { db, zone })
}

fn read_why_options(alloc: Global, found: &ArgMatches<'_>) -> Result<Invocation, ArgFault>
    ensures ok { IfOk result (HasValues (codes "why", rows_of (found_of found.now))) }
    ensures err { IfErr result (λ e. Excludes e ((invocation : Invocation)
        × HasValues (codes "why", rows_of (found_of found.now)) invocation)) }
{
    let zone = read_zone_name(found, "zone")?;
    let ids = read_required_ids(alloc, found)?;
    let db = read_database(alloc, found)?;
    let bypass = copy_optional_text(alloc, found, "bypass")?;
    let options = WhyOptions {
        zone,
        ids,
        together: has_flag(found, "together"),
        group: has_flag(found, "group"),
        bypass,
    };
    Ok(Invocation::Why { db, options })
}

fn read_check_options(alloc: Global, found: &ArgMatches<'_>) -> Result<Invocation, ArgFault>
    ensures ok { IfOk result (HasValues (codes "check", rows_of (found_of found.now))) }
    ensures err { IfErr result (λ e. Excludes e ((invocation : Invocation)
        × HasValues (codes "check", rows_of (found_of found.now)) invocation)) }
{
    let system = read_checked_system(alloc, found)?;
    let set = read_service_set(alloc, found)?;
    let answer = read_check_answer(alloc, found)?;
    Ok(Invocation::Check {
        system,
        set,
        answer,
    })
}

fn read_mend_options(alloc: Global, found: &ArgMatches<'_>) -> Result<Invocation, ArgFault>
    ensures ok { IfOk result (HasValues (codes "mend", rows_of (found_of found.now))) }
    ensures err { IfErr result (λ e. Excludes e ((invocation : Invocation)
        × HasValues (codes "mend", rows_of (found_of found.now)) invocation)) }
{
    let system = read_mended_system(alloc, found)?;
    let ids = read_required_ids(alloc, found)?;
    let files = read_files(alloc, found)?;
    let options = MendOptions { ids, files };
    Ok(Invocation::Mend { system, options })
}

fn read_lint_options(alloc: Global, found: &ArgMatches<'_>) -> Result<Invocation, ArgFault>
    ensures ok { IfOk result (HasValues (codes "lint", rows_of (found_of found.now))) }
    ensures err { IfErr result (λ e. Excludes e ((invocation : Invocation)
        × HasValues (codes "lint", rows_of (found_of found.now)) invocation)) }
{
    let srel = read_srel(found)?;
    let form = read_form(found)?;
    let files = read_files(alloc, found)?;
    let options = LintOptions { srel, form, files };
    Ok(Invocation::Lint { options })
}

fn read_migrate_options(alloc: Global, found: &ArgMatches<'_>) -> Result<Invocation, ArgFault>
    ensures ok { IfOk result (HasValues (codes "migrate", rows_of (found_of found.now))) }
    ensures err { IfErr result (λ e. Excludes e ((invocation : Invocation)
        × HasValues (codes "migrate", rows_of (found_of found.now)) invocation)) }
{
    let db = read_database(alloc, found)?;
    Ok(Invocation::Migrate { db })
}

fn read_verify_options(alloc: Global, found: &ArgMatches<'_>) -> Result<Invocation, ArgFault>
    ensures ok { IfOk result (HasValues (codes "verify", rows_of (found_of found.now))) }
    ensures err { IfErr result (λ e. Excludes e ((invocation : Invocation)
        × HasValues (codes "verify", rows_of (found_of found.now)) invocation)) }
{
    let db = read_database(alloc, found)?;
    Ok(Invocation::Verify { db })
}
