//! The command line of `smpe`, as it is described to `clap`.
ghost use Rattle.std.specs.Prelude.{◌≡◌, [], false, codes, IfOk};
ghost use Rattle.clap.specs.Words.{app_of, rule_of};
ghost use Rattle.clap.specs.declared.builder.value_parser.ValueParser.{ValueParser};
ghost use Rattle.smpe_invocation.specs.CommandLine.{IsCommandLine, IsFormParser, IsKindParser, IsSubcommand};
ghost use Rattle.smpe_invocation.specs.CommandLine.{check_shape, database_options, file_arg, flag_arg, form_arg};
ghost use Rattle.smpe_invocation.specs.CommandLine.{kind_arg, lint_shape, list_shape, mend_shape, migrate_shape};
ghost use Rattle.smpe_invocation.specs.CommandLine.{optional_arg, optional_repeatable_arg, required_arg};
ghost use Rattle.smpe_invocation.specs.CommandLine.{required_file_arg, required_repeatable_arg, run_shape, set_options};
ghost use Rattle.smpe_invocation.specs.CommandLine.{system_options, verify_shape, why_shape, with_options, zone_shape};

use clap::{Arg, ArgAction, Command};
use std::alloc::{AllocError, Global};

// What `--version` prints after the name.
const VERSION: &str = "1.0.0";

// The kinds of zones that `--kind` takes.
static KINDS: [&str; 2] = ["target", "distribution"];

// The forms that `--form` takes.
static FORMS: [&str; 2] = ["text", "json"];

/// `smpe`, with its subcommands.
pub(crate) fn command_line<'a>(alloc: Global) -> Result<Command<'a>, AllocError>
    ensures { IfOk result (λ c. IsCommandLine (app_of c)) }
{
    new_command(
        alloc,
        "smpe",
        "Installs service into target and distribution zones",
        "Example: smpe run --db smpe.db --date 2024-05-17 --cntl apply.rec",
    )
    .version(VERSION)
    .subcommand_required(true)
    .disable_help_subcommand(true)
    .subcommand(zone_command(alloc)?)?
    .subcommand(run_command(alloc)?)?
    .subcommand(list_command(alloc)?)?
    .subcommand(why_command(alloc)?)?
    .subcommand(check_command(alloc)?)?
    .subcommand(mend_command(alloc)?)?
    .subcommand(lint_command(alloc)?)?
    .subcommand(migrate_command(alloc)?)?
    .subcommand(verify_command(alloc)?)
}

// A command without options, with a line about what it does and an example.
fn new_command<'a>(alloc: Global, name: &'a str, about: &'a str, example: &'a str) -> Command<'a>
    ensures { IsSubcommand (with_options name.entry.now []) result }
{
    Command::new(alloc, name).about(about).after_help(example)
}

// A command over a database, with the options `--db` and `--wait`.
fn database_command<'a>(
    alloc: Global,
    name: &'a str,
    about: &'a str,
    example: &'a str,
) -> Result<Command<'a>, AllocError>
    ensures { IfOk result (IsSubcommand (with_options name.entry.now (database_options []))) }
{
    new_command(alloc, name, about, example)
        .arg(required_arg(alloc, "db", "The database"))?
        .arg(wait_arg(alloc))
}

fn zone_command<'a>(alloc: Global) -> Result<Command<'a>, AllocError>
    ensures { IfOk result (λ c. (kinds : ValueParser) × IsKindParser kinds × IsSubcommand (zone_shape kinds) c) }
{
    database_command(
        alloc,
        "zone",
        "Defines a target or distribution zone, in a new database if there is none",
        "Example: smpe zone --db smpe.db --name DLB1 --kind distribution --srel Z038",
    )?
    .arg(required_arg(alloc, "name", "The zone's name"))?
    .arg(kind_arg(alloc))?
    .arg(required_arg(alloc, "srel", "The zone's SREL"))?
    .arg(optional_arg(alloc, "related", "The distribution zone of a target zone"))
}

fn run_command<'a>(alloc: Global) -> Result<Command<'a>, AllocError>
    ensures { IfOk result (IsSubcommand run_shape) }
{
    database_command(
        alloc,
        "run",
        "Performs the commands of a file, and prints their report",
        "Example: smpe run --db smpe.db --date 2024-05-17 --cntl receive.rec --ptfin ptf.rec",
    )?
    .arg(required_arg(alloc, "date", "The job's date, as YYYY-MM-DD"))?
    .arg(required_arg(alloc, "cntl", "The file of commands"))?
    .arg(optional_arg(alloc, "ptfin", "The file of SYSMODs that RECEIVE takes in"))?
    .arg(optional_arg(alloc, "hold", "The file of holds that RECEIVE takes in"))?
    .arg(flag_arg(
        alloc,
        "careful",
        "Runs nothing if a SET names a zone that is not defined, or there is no command",
    ))
}

fn list_command<'a>(alloc: Global) -> Result<Command<'a>, AllocError>
    ensures { IfOk result (IsSubcommand list_shape) }
{
    database_command(
        alloc,
        "list",
        "Lists what a zone holds",
        "Example: smpe list --db smpe.db --zone TGT1",
    )?
    .arg(required_arg(alloc, "zone", "The zone, or GLOBAL"))
}

fn why_command<'a>(alloc: Global) -> Result<Command<'a>, AllocError>
    ensures { IfOk result (IsSubcommand why_shape) }
{
    database_command(
        alloc,
        "why",
        "Tells what is so of ids in a zone, and changes nothing",
        "Example: smpe why --db smpe.db --zone TGT1 --id UA00001 --id UA00002 --together",
    )?
    .arg(required_arg(alloc, "zone", "The target or distribution zone"))?
    .arg(required_repeatable_arg(alloc, "id", "The id of a SYSMOD, once or more often"))?
    .arg(flag_arg(
        alloc,
        "together",
        "Judges the ids as the candidates of one command, and not each by itself",
    ))?
    .arg(flag_arg(
        alloc,
        "group",
        "Judges them with the requisites that GROUPEXTEND brings in",
    ))?
    .arg(optional_arg(
        alloc,
        "bypass",
        "The members of BYPASS, as HOLDSYSTEM(ACTION),PRE",
    ))
}

// `clap` takes any of the options for an empty system (`--srel`) and for a copy of a database, any of the names of
// files, and any form of the answer. The modules `checked` and `answer_form` refuse a mixture of the two systems, one
// of records and other files, and a form that the check of records or of commands does not have.
fn check_command<'a>(alloc: Global) -> Result<Command<'a>, AllocError>
    ensures { IfOk result (IsSubcommand check_shape) }
{
    service_set_command(alloc)?
        .arg(flag_arg(alloc, "report", "Prints the reports of the commands"))?
        .arg(flag_arg(
            alloc,
            "json",
            "Prints the summary and the decisions as JSON",
        ))?
        .arg(optional_arg(
            alloc,
            "certificate",
            "A new file for the certificate of the decision",
        ))?
        .arg(file_arg(alloc))
}

// `check` with the options that name the system, the records and the commands.
fn service_set_command<'a>(alloc: Global) -> Result<Command<'a>, AllocError>
    ensures { IfOk result (IsSubcommand (with_options (codes "check") (set_options []))) }
{
    system_command(
        alloc,
        "check",
        "Tells what a service set would do in an empty system, or in a copy of a database",
        "Example: smpe check --db smpe.db --zone TGT1 ptfs.txt holddata.txt",
    )?
    .arg(optional_repeatable_arg(
        alloc,
        "why",
        "An id to ask about afterwards, as why does, once or more often",
    ))?
    .arg(optional_arg(
        alloc,
        "ptfin",
        "The file of records of SYSMODs, in place of FILE",
    ))?
    .arg(optional_arg(alloc, "hold", "The file of records of holds, with --ptfin"))?
    .arg(optional_arg(
        alloc,
        "cntl",
        "The file of commands, in place of the APPLY CHECK",
    ))?
    .arg(optional_arg(alloc, "date", "The job's date, as YYYY-MM-DD, for --cntl"))
}

// A command over an empty system or a copy of a database, with the options that name it.
fn system_command<'a>(
    alloc: Global,
    name: &'a str,
    about: &'a str,
    example: &'a str,
) -> Result<Command<'a>, AllocError>
    ensures { IfOk result (IsSubcommand (with_options name.entry.now (system_options []))) }
{
    new_command(alloc, name, about, example)
        .arg(optional_arg(
            alloc,
            "srel",
            "The SREL of the zones DLIB and TGT of an empty system",
        ))?
        .arg(optional_arg(alloc, "db", "The database, which is only read"))?
        .arg(wait_arg(alloc))?
        .arg(optional_arg(
            alloc,
            "zone",
            "The target or distribution zone of the database",
        ))
}

fn mend_command<'a>(alloc: Global) -> Result<Command<'a>, AllocError>
    ensures { IfOk result (IsSubcommand mend_shape) }
{
    system_command(
        alloc,
        "mend",
        "Tells what to do that SYSMODs go on, in an empty system or in a copy of a database",
        "Example: smpe mend --db smpe.db --zone TGT1 --id UA00001 ptfs.txt holddata.txt",
    )?
    .arg(required_repeatable_arg(
        alloc,
        "id",
        "The id of a SYSMOD that does not go on, once or more often",
    ))?
    .arg(required_file_arg(alloc))
}

fn lint_command<'a>(alloc: Global) -> Result<Command<'a>, AllocError>
    ensures { IfOk result (λ c. (forms : ValueParser) × IsFormParser forms × IsSubcommand (lint_shape forms) c) }
{
    new_command(
        alloc,
        "lint",
        "Tells whether the service of files can regress, clash or lose a fix on any system",
        "Example: smpe lint --srel Z038 ptfs.txt",
    )
    .arg(required_arg(alloc, "srel", "The SREL of the systems"))?
    .arg(form_arg(alloc))?
    .arg(required_file_arg(alloc))
}

fn migrate_command<'a>(alloc: Global) -> Result<Command<'a>, AllocError>
    ensures { IfOk result (IsSubcommand migrate_shape) }
{
    database_command(
        alloc,
        "migrate",
        "Takes a database of an earlier release over to this one; copy it before",
        "Example: smpe migrate --db smpe.db",
    )
}

fn verify_command<'a>(alloc: Global) -> Result<Command<'a>, AllocError>
    ensures { IfOk result (IsSubcommand verify_shape) }
{
    database_command(
        alloc,
        "verify",
        "Tells whether a database is whole, and changes nothing",
        "Example: smpe verify --db smpe.db",
    )
}

// `--kind`, which takes one of `KINDS`.
fn kind_arg<'a>(alloc: Global) -> Arg<'a>
    ensures rule { (kinds : ValueParser) × IsKindParser kinds × (rule_of result ≡ kind_arg kinds) }
    ensures global { result.global ≡ false }
{
    required_arg(alloc, "kind", "The zone's kind").value_parser(KINDS.as_slice())
}

// `--form`, which takes one of `FORMS`.
fn form_arg<'a>(alloc: Global) -> Arg<'a>
    ensures rule { (forms : ValueParser) × IsFormParser forms × (rule_of result ≡ form_arg forms) }
    ensures global { result.global ≡ false }
{
    optional_arg(alloc, "form", "The form of the answer").value_parser(FORMS.as_slice())
}

// The names of files, any number of them.
fn file_arg<'a>(alloc: Global) -> Arg<'a>
    ensures rule { rule_of result ≡ file_arg }
    ensures global { result.global ≡ false }
{
    Arg::new(alloc, "file")
        .value_name("FILE")
        .num_args(1usize..)
        .action(ArgAction::Append)
        .help("Files of SYSMODs, of holds, or of both, as they come")
}

// The names of files, at least one.
fn required_file_arg<'a>(alloc: Global) -> Arg<'a>
    ensures rule { rule_of result ≡ required_file_arg }
    ensures global { result.global ≡ false }
{
    file_arg(alloc).required(true)
}

// `--wait`, which each command over a database has.
fn wait_arg<'a>(alloc: Global) -> Arg<'a>
    ensures rule { rule_of result ≡ optional_arg (codes "wait") }
    ensures global { result.global ≡ false }
{
    optional_arg(
        alloc,
        "wait",
        "How many seconds to wait if another program has the database",
    )
}

// An option with a value. `clap` refuses words that lack it.
fn required_arg<'a>(alloc: Global, id: &'a str, help: &'a str) -> Arg<'a>
    ensures rule { rule_of result ≡ required_arg id.entry.now }
    ensures global { result.global ≡ false }
{
    optional_arg(alloc, id, help).required(true)
}

// An option with a value, which has to be stated once or more often.
fn required_repeatable_arg<'a>(alloc: Global, id: &'a str, help: &'a str) -> Arg<'a>
    ensures rule { rule_of result ≡ required_repeatable_arg id.entry.now }
    ensures global { result.global ≡ false }
{
    required_arg(alloc, id, help).action(ArgAction::Append)
}

// An option with a value, which may be stated any number of times.
fn optional_repeatable_arg<'a>(alloc: Global, id: &'a str, help: &'a str) -> Arg<'a>
    ensures rule { rule_of result ≡ optional_repeatable_arg id.entry.now }
    ensures global { result.global ≡ false }
{
    optional_arg(alloc, id, help).action(ArgAction::Append)
}

// An option without a value.
fn flag_arg<'a>(alloc: Global, id: &'a str, help: &'a str) -> Arg<'a>
    ensures rule { rule_of result ≡ flag_arg id.entry.now }
    ensures global { result.global ≡ false }
{
    optional_arg(alloc, id, help).action(ArgAction::SetTrue)
}

// An option with a value, which may be left out.
fn optional_arg<'a>(alloc: Global, id: &'a str, help: &'a str) -> Arg<'a>
    ensures rule { rule_of result ≡ optional_arg id.entry.now }
    ensures global { result.global ≡ false }
{
    Arg::new(alloc, id).long(id).help(help)
}
