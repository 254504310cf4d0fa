//! Command lines, and what they ask for.

use fields::Id;
use scripts::compare;
use smpe::{ArgFault, DatabaseFile, Invocation, invocation};
use smpe_invocation::{
    CheckAnswer, CheckForm, CheckedSystem, LintForm, LintOptions, MendOptions, ServiceSet,
    SetFiles, WhyOptions,
};
use std::alloc::Global;
use std::test::Fail;

/// Words after the program's name, with a blank between two, and the values for which they ask.
const ASKED: &[(&str, &str)] = &[
    (
        "zone --db F --name DLB1 --kind distribution --srel Z038",
        "F:0 DLB1 Distribution Z038 -",
    ),
    (
        "zone --srel=Z038 --related DLB1 --kind=target --name TGT1 --db F",
        "F:0 TGT1 Target Z038 DLB1",
    ),
    (
        "run --db F --date 2024-05-17 --cntl C --ptfin P --hold H",
        "F:0 24.138 C P H -",
    ),
    (
        "run --db F --date 2024-12-31 --cntl C --hold H",
        "F:0 24.366 C - H -",
    ),
    (
        "run --db F --date 2000-02-29 --cntl C --ptfin P",
        "F:0 00.060 C P - -",
    ),
    (
        "run --db F --date 1999-01-01 --cntl C",
        "F:0 99.001 C - - -",
    ),
    (
        "run --db F --wait 30 --date 2024-05-17 --cntl C --careful",
        "F:30 24.138 C - - careful",
    ),
    ("list --db F --zone TGT1", "F:0 TGT1"),
    ("list --zone=GLOBAL --wait=9999 --db F", "F:9999 GLOBAL"),
    (
        "why --db F --zone TGT1 --id UA00001",
        "F:0 TGT1 UA00001 - - -",
    ),
    (
        "why --id UA00002 --zone TGT1 --id=UA00001 --db F --together",
        "F:0 TGT1 UA00002,UA00001 together - -",
    ),
    (
        "why --db F --zone TGT1 --bypass HOLDSYSTEM(ACTION),PRE --group --id UA00001",
        "F:0 TGT1 UA00001 - group HOLDSYSTEM(ACTION),PRE",
    ),
    ("check --srel Z038 --ptfin P", "Z038 ptfin P - - - report -"),
    (
        "check --db F --zone TGT1 --ptfin P --report",
        "F:0 TGT1 - ptfin P - - - report -",
    ),
    (
        "check --why UA00001 --db F --wait 5 --zone TGT1 --ptfin P --why UA00002 --hold H",
        "F:5 TGT1 UA00001,UA00002 ptfin P H - - report -",
    ),
    (
        "check --db F --zone TGT1 --ptfin P --cntl C --date 2024-05-17",
        "F:0 TGT1 - ptfin P - C 24.138 report -",
    ),
    (
        "check --ptfin P --hold H --srel Z038 --cntl C --date 2024-05-17",
        "Z038 ptfin P H C 24.138 report -",
    ),
    ("check --srel Z038 A", "Z038 A - - summary -"),
    (
        "check A --srel Z038 --report B C",
        "Z038 A,B,C - - report -",
    ),
    ("check --json --srel Z038 A", "Z038 A - - json -"),
    (
        "check --why UA00001 A --db F --zone TGT1 --certificate=D B",
        "F:0 TGT1 UA00001 A,B - - summary D",
    ),
    (
        "check --json A --db F --zone TGT1 --certificate D",
        "F:0 TGT1 - A - - json D",
    ),
    (
        "check --report --certificate D --srel Z038 A",
        "Z038 A - - report D",
    ),
    (
        "check --srel Z038 --cntl C --date 2024-05-17 -- A --json",
        "Z038 A,--json C 24.138 report -",
    ),
    ("mend --srel Z038 --id UA00001 A", "Z038 UA00001 A"),
    (
        "mend A --id=UA00002 --zone TGT1 --db F --id UA00001 --wait 5 B",
        "F:5 TGT1 - UA00002,UA00001 A,B",
    ),
    ("lint --srel Z038 A", "Z038 text A"),
    ("lint A --form=json B --srel Z038", "Z038 json A,B"),
    ("lint --form text --srel Z038 A A", "Z038 text A,A"),
    ("migrate --db F --wait 0", "F:0"),
    ("verify --wait 5 --db F", "F:5"),
];

/// Words that `clap` refuses, or to which it responds itself.
const CLAP: &[&str] = &[
    "check --db F --db G --zone TGT1 --ptfin P",
    "check --srel Z038 --certificate C --certificate D A",
    "check --srel Z038 --json --json A",
    "check --srel Z038 --json=yes A",
    "mend --srel Z038 A",
    "mend --srel Z038 --id UA00001",
    "mend --srel Z038 --id UA00001 --why UA00002 A",
    "mend --srel Z038 --id UA00001 --json A",
    "mend --srel Z038 --id UA00001 --ptfin P",
    "check --srel Z038 -A",
    "lint --srel Z038",
    "lint A",
    "lint --srel Z038 --form xml A",
    "lint --srel Z038 --form text --form json A",
    "lint --db F --srel Z038 A",
    "lnt --srel Z038 A",
    "why --db F --zone TGT1 --id UA00001 --together yes",
    "why --db F --zone TGT1 --id UA00001 --bypass",
    "",
    "--help",
    "--version",
    "help",
    "list --help",
    "list --db F",
    "migrate",
    "migrate --db F --zone TGT1",
    "verify",
    "list --db F --zone TGT1 --date 2024-05-17",
    "why --db F --zone TGT1",
    "why --db F --id UA00001",
    "why --db F --zone TGT1 --zone TGT2 --id UA00001",
    "why --db F --zone TGT1 --id UA00001 UA00002",
    "zone --db F --name DLB1 --kind distribution",
    "zone --db F --name DLB1 --kind global --srel Z038",
    "zone --db F --name DLB1 --kind target --srel Z038 --cntl C",
    "zone --db F --name DLB1 --name DLB2 --kind target --srel Z038",
    "zone --db F --name DLB1 --kind target --srel Z038 more",
    "run --db F --date 2024-02-30 --hold H",
    "run --db F --date 2024-05-17 --cntl C --careful yes",
    "check --srel Z038 --ptfin P --careful",
    "migrate --db F --wait",
    "migrate --db F --wait -1",
];

/// Words with a bad operand.
const BAD: &[&str] = &[
    "check --srel Z038 --ptfin P --cntl C",
    "check --ptfin P",
    "check A",
    "check --srel Z038",
    "check --srel Z038 --ptfin P A",
    "check --srel Z038 --hold H",
    "check --srel Z038 --hold H A",
    "check --srel Z038 --cntl C A",
    "check --srel Z038 --cntl C --date 2024-05-17 --certificate D A",
    "check --srel Z038 --cntl C --date 2024-05-17 --json A",
    "check --srel Z038 --ptfin P --certificate D",
    "check --srel Z038 --ptfin P --json",
    "check --srel Z038 --report --json A",
    "check --db F --zone TGT1 --why UA00001 --json A",
    "mend --id UA00001 A",
    "mend --db F --id UA00001 A",
    "mend --db F --zone TGT1 --srel Z038 --id UA00001 A",
    "mend --srel Z038 --wait 5 --id UA00001 A",
    "mend --srel Z038 --zone TGT1 --id UA00001 A",
    "mend --srel Z038 --id UA0001 A",
    "check --srel Z038 --zone TGT1 A",
    "lint --srel z038 A",
    "check --db F --ptfin P",
    "check --srel Z038 --db F --zone TGT1 --ptfin P",
    "check --srel Z038 --zone TGT1 --ptfin P",
    "check --srel Z038 --wait 5 --ptfin P",
    "check --srel Z038 --why UA00001 --ptfin P",
    "check --db F --zone TGT1 --why UA0001 --ptfin P",
    "zone --db F --name 1DLB --kind distribution --srel Z038",
    "zone --db F --name DLB1 --kind distribution --srel Z38",
    "zone --db F --name TGT1 --kind target --srel Z038 --related dlb1",
    "list --db F --zone tgt1",
    "why --db F --zone tgt1 --id UA00001",
    "why --db F --zone TGT1 --id UA0001",
    "why --db F --zone TGT1 --id UA00001 --id ua00002",
    "run --db F --date 2024-02-30 --cntl C",
    "run --db F --date 1900-02-29 --cntl C",
    "run --db F --date 2024-13-01 --cntl C",
    "run --db F --date 2024-05-00 --cntl C",
    "run --db F --date 2024-5-17 --cntl C",
    "run --db F --date 2024/05/17 --cntl C",
    "run --db F --date 2024-05-17 --cntl C --wait 10000",
    "list --db F --zone TGT1 --wait 1.5",
    "migrate --db F --wait s",
];

// The words of a command line: the program's name, and then the words of the line.
fn split_words<'a>(alloc: Global, line: &'a str) -> Result<Vec<&'a str>, Fail> {
    let mut words = Vec::new(alloc);
    words.push("smpe")?;
    for word in line.split(' ') {
        if !word.is_empty() {
            words.push(word)?;
        }
    }
    Ok(words)
}

// The values of an invocation, with a blank between two and `-` for one that is absent.
fn invocation_text(alloc: Global, invocation: &Invocation) -> Result<String, Fail> {
    match invocation {
        Invocation::Zone { db, definition } => {
            let name = std::str::from_utf8(definition.name.as_bytes())?;
            let kind = definition.kind;
            let srel = std::str::from_utf8(definition.srel.as_bytes())?;
            let related = match &definition.related {
                Some(related) => std::str::from_utf8(related.as_bytes())?,
                None => "-",
            };
            let db = database_text(alloc, db)?;
            Ok(format!(in alloc; "{db} {name} {kind:?} {srel} {related}")?)
        }
        Invocation::Run { db, options } => {
            let db = database_text(alloc, db)?;
            let how = if options.careful { "careful" } else { "-" };
            let date = std::str::from_utf8(options.date.as_bytes())?;
            let cntl = options.cntl.as_str();
            let ptfin = options.ptfin.as_ref().map_or("-", |text| text.as_str());
            let hold = options.hold.as_ref().map_or("-", |text| text.as_str());
            Ok(format!(in alloc; "{db} {date} {cntl} {ptfin} {hold} {how}")?)
        }
        Invocation::List { db, zone } => {
            let zone = std::str::from_utf8(zone.as_bytes())?;
            let db = database_text(alloc, db)?;
            Ok(format!(in alloc; "{db} {zone}")?)
        }
        Invocation::Why { db, options } => {
            let zone = std::str::from_utf8(options.zone.as_bytes())?;
            let ids = ids_text(alloc, options.ids.as_slice())?;
            let judged = judging_text(alloc, options)?;
            let db = database_text(alloc, db)?;
            Ok(format!(in alloc; "{db} {zone} {ids} {judged}")?)
        }
        Invocation::Check {
            system,
            set,
            answer,
        } => {
            let system = system_text(alloc, system)?;
            let set = service_set_text(alloc, set)?;
            let answer = answer_text(alloc, answer)?;
            Ok(format!(in alloc; "{system} {set} {answer}")?)
        }
        Invocation::Mend { system, options } => mend_text(alloc, system, options),
        Invocation::Lint { options } => lint_text(alloc, options),
        Invocation::Migrate { db } => database_text(alloc, db),
        Invocation::Verify { db } => database_text(alloc, db),
    }
}

// How `why` judges the ids, in the words of its options.
fn judging_text(alloc: Global, options: &WhyOptions) -> Result<String, Fail> {
    let together = if options.together { "together" } else { "-" };
    let group = if options.group { "group" } else { "-" };
    let bypass = options.bypass.as_ref().map_or("-", |text| text.as_str());
    Ok(format!(in alloc; "{together} {group} {bypass}")?)
}

// The SREL of an empty system, or the database, the zone and the ids of a copy.
fn system_text(alloc: Global, system: &CheckedSystem) -> Result<String, Fail> {
    match system {
        CheckedSystem::Empty(srel) => Ok(String::from_str(
            alloc,
            std::str::from_utf8(srel.as_bytes())?,
        )?),
        CheckedSystem::Copied(copy) => {
            let zone = std::str::from_utf8(copy.zone.as_bytes())?;
            let db = database_text(alloc, &copy.db)?;
            let ids = ids_text(alloc, copy.ids.as_slice())?;
            let ids = if ids.is_empty() { "-" } else { ids.as_str() };
            Ok(format!(in alloc; "{db} {zone} {ids}")?)
        }
    }
}

// The files of a service set, and its commands with their date.
fn service_set_text(alloc: Global, set: &ServiceSet) -> Result<String, Fail> {
    let files = set_files_text(alloc, &set.files)?;
    let (cntl, date) = match &set.commands {
        Some(commands) => (
            commands.cntl.as_str(),
            std::str::from_utf8(commands.date.as_bytes())?,
        ),
        None => ("-", "-"),
    };
    Ok(format!(in alloc; "{files} {cntl} {date}")?)
}

// The form in which `check` answers, and the certificate's file.
fn answer_text(alloc: Global, answer: &CheckAnswer) -> Result<String, Fail> {
    let form = match answer.form {
        CheckForm::Summary => "summary",
        CheckForm::Report => "report",
        CheckForm::Json => "json",
    };
    let certificate = answer
        .certificate
        .as_ref()
        .map_or("-", |text| text.as_str());
    Ok(format!(in alloc; "{form} {certificate}")?)
}

// What is mended, with which files.
fn mend_text(alloc: Global, system: &CheckedSystem, options: &MendOptions) -> Result<String, Fail> {
    let system = system_text(alloc, system)?;
    let ids = ids_text(alloc, options.ids.as_slice())?;
    let files = names_text(alloc, options.files.as_slice())?;
    Ok(format!(in alloc; "{system} {ids} {files}")?)
}

// The names of a service set's files.
fn set_files_text(alloc: Global, files: &SetFiles) -> Result<String, Fail> {
    match files {
        SetFiles::Records { ptfin, hold } => {
            let hold = hold.as_ref().map_or("-", |text| text.as_str());
            let ptfin = ptfin.as_str();
            Ok(format!(in alloc; "ptfin {ptfin} {hold}")?)
        }
        SetFiles::AsTheyCome(files) => names_text(alloc, files.as_slice()),
    }
}

// What is linted, and in which form it is told.
fn lint_text(alloc: Global, options: &LintOptions) -> Result<String, Fail> {
    let srel = std::str::from_utf8(options.srel.as_bytes())?;
    let form = match options.form {
        LintForm::Text => "text",
        LintForm::Json => "json",
    };
    let files = names_text(alloc, options.files.as_slice())?;
    Ok(format!(in alloc; "{srel} {form} {files}")?)
}

// The names of files, with a comma between two.
fn names_text(alloc: Global, names: &[String]) -> Result<String, Fail> {
    let mut text = String::new(alloc);
    for name in names {
        if !text.is_empty() {
            text.push_str(",")?;
        }
        text.push_str(name.as_str())?;
    }
    Ok(text)
}

// The name of a database, and the seconds to wait for it.
fn database_text(alloc: Global, db: &DatabaseFile) -> Result<String, Fail> {
    let name = db.name.as_str();
    let wait = db.wait;
    Ok(format!(in alloc; "{name}:{wait}")?)
}

// The ids, with a comma between two.
fn ids_text(alloc: Global, ids: &[Id]) -> Result<String, Fail> {
    let mut text = String::new(alloc);
    for id in ids {
        if !text.is_empty() {
            text.push_str(",")?;
        }
        text.push_str(std::str::from_utf8(id.as_bytes())?)?;
    }
    Ok(text)
}

// What reading the words of the line returns: the values of the invocation, or which fault there is.
fn reading_text(alloc: Global, line: &str) -> Result<String, Fail> {
    let words = split_words(alloc, line)?;
    match invocation(alloc, words.as_slice()) {
        Ok(invocation) => invocation_text(alloc, &invocation),
        Err(ArgFault::Memory) => Ok(String::from_str(alloc, "memory")?),
        Err(ArgFault::Clap(_)) => Ok(String::from_str(alloc, "clap")?),
        Err(ArgFault::BadOperand) => Ok(String::from_str(alloc, "bad operand")?),
    }
}

// A failure, unless reading the line returns this.
fn check_reading(alloc: Global, line: &str, wanted: &str) -> Result<(), Fail> {
    let got = reading_text(alloc, line)?;
    compare(line, got.as_bytes(), wanted)
}

#[test]
fn words_are_read_as_what_they_ask_for(rt: HostRuntime) -> Result<(), Fail> {
    for (line, wanted) in ASKED {
        check_reading(rt.alloc(), line, wanted)?;
    }
    Ok(())
}

#[test]
fn other_words_are_refused(rt: HostRuntime) -> Result<(), Fail> {
    for line in CLAP {
        check_reading(rt.alloc(), line, "clap")?;
    }
    for line in BAD {
        check_reading(rt.alloc(), line, "bad operand")?;
    }
    Ok(())
}

// The text that `clap` has for the words of the line in place of an invocation.
fn clap_text(alloc: Global, line: &str) -> Result<String, Fail> {
    let words = split_words(alloc, line)?;
    match invocation(alloc, words.as_slice()) {
        Ok(_) => Err(Fail::new(format_args!("{line} asks for a job"))),
        Err(fault) => Ok(format!(in alloc; "{fault}")?),
    }
}

#[test]
fn the_version_is_told(rt: HostRuntime) -> Result<(), Fail> {
    let got = clap_text(rt.alloc(), "--version")?;
    compare("smpe --version", got.as_bytes(), "smpe 1.0.0\n")
}
