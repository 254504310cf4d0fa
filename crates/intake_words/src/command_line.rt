//! The command line, as it is described to `clap`.
ghost use Rattle.std.specs.Prelude.{◌≡◌, ◌∷◌, [], false, codes, IfOk};
ghost use Rattle.clap.specs.Words.{app_of, rule_of};
ghost use Rattle.clap.specs.declared.builder.value_parser.ValueParser.{ValueParser};
ghost use Rattle.intake_words.specs.CommandLine.{HasRules, IsCommandLine, TakesWords, file_arg, flag_arg};
ghost use Rattle.intake_words.specs.CommandLine.{optional_arg, repeatable_arg, required_arg, word_arg};

use clap::{Arg, ArgAction, Command};
use std::alloc::{AllocError, Global};

/// What `--version` prints after the name.
const VERSION: &str = "1.0.0";

/// The words that `--summary` takes.
static SUMMARIES: [&str; 2] = ["text", "json"];

/// The words that `--code` takes.
static CODES: [&str; 3] = ["ascii", "ibm1047", "ibm037"];

/// The command line with all its options.
pub(crate) fn command_line<'a>(alloc: Global) -> Result<Command<'a>, AllocError>
    ensures { IfOk result (λ c. IsCommandLine (app_of c)) }
{
    bare_command(alloc)
        .arg(required_arg(
            alloc,
            "out",
            "DIR",
            "The folder for ptfin, hold or cntl, and remarks",
        ))?
        .arg(optional_arg(
            alloc,
            "cntl",
            "FILE",
            "A command file, in place of the others",
        ))?
        .arg(repeatable_arg(
            alloc,
            "known",
            "FILE",
            "With --cntl: SYSMODs among which GROUPEXTEND(NOAPARS) and SOURCEID(RSU*) choose: a list, the job's PTFIN",
        ))?
        .arg(flag_arg(alloc, "text", "The files have lines"))?
        .arg(flag_arg(alloc, "records", "The files have records of 80 bytes"))?
        .arg(code_arg(alloc))?
        .arg(repeatable_arg(
            alloc,
            "syslib",
            "DISTLIB=SYSLIB",
            "The SYSLIB of elements that state none",
        ))?
        .arg(optional_arg(
            alloc,
            "relfile",
            "DIR",
            "The folder with F1, F2 .. for RELFILE",
        ))?
        .arg(flag_arg(
            alloc,
            "decide",
            "Carries stand-ins for elements that smpe lacks",
        ))?
        .arg(summary_arg(alloc))?
        .arg(file_arg(alloc))
}

// The command line without options.
fn bare_command<'a>(alloc: Global) -> Command<'a>
    ensures { HasRules [] result }
{
    Command::new(alloc, "smpe-intake")
        .version(VERSION)
        .about("Makes a shop's SMP/E files into files that smpe takes")
        .after_help("Example: smpe-intake --out taken ptfs.txt holddata.txt")
}

// `--code`, which takes the name of a code.
fn code_arg<'a>(alloc: Global) -> Arg<'a>
    ensures rule { (words : ValueParser)
        × TakesWords (codes "ascii" ∷ codes "ibm1047" ∷ codes "ibm037" ∷ []) words
        × (rule_of result ≡ word_arg (codes "code") words) }
    ensures global { result.global ≡ false }
{
    optional_arg(alloc, "code", "CODE", "The code of the files").value_parser(CODES.as_slice())
}

// `--summary`, which takes a form.
fn summary_arg<'a>(alloc: Global) -> Arg<'a>
    ensures rule { (words : ValueParser) × TakesWords (codes "text" ∷ codes "json" ∷ []) words
        × (rule_of result ≡ word_arg (codes "summary") words) }
    ensures global { result.global ≡ false }
{
    optional_arg(alloc, "summary", "FORM", "The form of the summary").value_parser(
        SUMMARIES.as_slice(),
    )
}

// An option that takes a value.
fn optional_arg<'a>(alloc: Global, id: &'a str, value: &'a str, help: &'a str) -> Arg<'a>
    ensures rule { rule_of result ≡ optional_arg id.entry.now }
    ensures global { result.global ≡ false }
{
    Arg::new(alloc, id).long(id).value_name(value).help(help)
}

// An option that takes a value. `clap` refuses words that lack it.
fn required_arg<'a>(alloc: Global, id: &'a str, value: &'a str, help: &'a str) -> Arg<'a>
    ensures rule { rule_of result ≡ required_arg id.entry.now }
    ensures global { result.global ≡ false }
{
    optional_arg(alloc, id, value, help).required(true)
}

// An option that takes a value, and may be repeated.
fn repeatable_arg<'a>(alloc: Global, id: &'a str, value: &'a str, help: &'a str) -> Arg<'a>
    ensures rule { rule_of result ≡ repeatable_arg id.entry.now }
    ensures global { result.global ≡ false }
{
    optional_arg(alloc, id, value, help).action(ArgAction::Append)
}

// An option that takes no value.
fn flag_arg<'a>(alloc: Global, id: &'a str, help: &'a str) -> Arg<'a>
    ensures rule { rule_of result ≡ flag_arg id.entry.now }
    ensures global { result.global ≡ false }
{
    Arg::new(alloc, id)
        .long(id)
        .action(ArgAction::SetTrue)
        .help(help)
}

// The names of the files.
fn file_arg<'a>(alloc: Global) -> Arg<'a>
    ensures rule { rule_of result ≡ file_arg }
    ensures global { result.global ≡ false }
{
    Arg::new(alloc, "file")
        .value_name("FILE")
        .num_args(1usize..)
        .action(ArgAction::Append)
        .help("Files of SYSMODs, of holds, or of both")
}
