//! Files in memory: what is carried of all of them, as the records that RECEIVE reads, or why nothing is.

use crate::narrow_lines::{append_cards, compare};
use intake_service::{
    CardOptions, Carried, GivenFile, InputFiles, carry, hold_records, ptfin_records,
};
use std::alloc::Global;
use std::test::Fail;

/// The files, by their names.
const FILES: &[(&str, &[u8])] = &[
    (
        "records",
        b"++PTF(UA00001).                                                                 \
++VER(Z038) FMID(HAA1100).                                                      ",
    ),
    (
        "text",
        b"++HOLD(UA00001) ERROR FMID(HAA1100) REASON(AA00001).\n++PTF(UA00002).\n++VER(Z038) FMID(HAA1100).\n",
    ),
    (
        "mod",
        b"++PTF(UA00003).\n++VER(Z038) FMID(HAA1100).\n++MOD(M2) DISTLIB(AMOD).\n",
    ),
    (
        "bad",
        b"\n++HOLD(UA1) ERROR FMID(HAA1100) REASON(AA00001).\n",
    ),
    (
        "open",
        b"++HOLD(UA00001) ERROR FMID(HAA1100) REASON(AA00001)\n",
    ),
    ("gzip", b"\x1F\x8B\x08"),
    ("empty", b""),
];

/// The names of files, and what is carried of them: the status, how many SYSMODs have stand-ins, the records of PTFIN
/// after `==`, and those of the hold file after another `==`.
const CASES: &[(&str, bool, &str)] = &[
    (
        "records text",
        false,
        "0 0\n==\n++PTF(UA00001).\n++VER(Z038) FMID(HAA1100).\n++PTF(UA00002).\n++VER(Z038) FMID(HAA1100).\n\
        ==\n++HOLD(UA00001) ERROR FMID(HAA1100) REASON(AA00001).\n",
    ),
    (
        "text records",
        true,
        "0 0\n==\n++PTF(UA00002).\n++VER(Z038) FMID(HAA1100).\n++PTF(UA00001).\n++VER(Z038) FMID(HAA1100).\n\
        ==\n++HOLD(UA00001) ERROR FMID(HAA1100) REASON(AA00001).\n",
    ),
    (
        "records mod",
        false,
        "4 0\n==\n++PTF(UA00001).\n++VER(Z038) FMID(HAA1100).\n==\n",
    ),
    (
        "records bad",
        true,
        "smpe-intake: bad line 2: ++HOLD(UA1): refused: a bad id\n",
    ),
    (
        "records open text",
        true,
        "smpe-intake: open line 1: ++HOLD(UA00001): refused: its period is missing\n",
    ),
    (
        "records gzip",
        true,
        "smpe-intake: gzip: it is compressed by gzip: unpack it first\n",
    ),
    ("empty empty", true, "smpe-intake: no statement found\n"),
];

// The files of these names, with blanks between them.
fn given_files(alloc: Global, names: &str) -> Result<Vec<GivenFile<'static>>, Fail> {
    let mut files = Vec::new(alloc);
    for name in names.split(' ') {
        for (known, bytes) in FILES {
            if *known == name {
                files.push(GivenFile {
                    name: *known,
                    bytes: *bytes,
                })?;
            }
        }
    }
    Ok(files)
}

// What is carried, in lines.
fn carried_lines(alloc: Global, carried: &Carried) -> Result<String, Fail> {
    let status = carried.status();
    let stand_ins = carried.narrowed.stand_ins;
    let mut lines = format!(in alloc; "{status} {stand_ins}\n==\n")?.into_bytes();
    append_cards(&mut lines, &ptfin_records(alloc, &carried.narrowed.items)?)?;
    lines.extend_from_slice(b"==\n")?;
    append_cards(
        &mut lines,
        &hold_records(alloc, &carried.narrowed.hold_items)?,
    )?;
    Ok(String::from_utf8(lines)?)
}

// What is carried of the files of these names, or the lines of the fault.
fn outcome(alloc: Global, names: &str, decide: bool) -> Result<String, Fail> {
    let mut inputs = InputFiles::new(alloc);
    let files = given_files(alloc, names)?;
    let guessed = CardOptions {
        layout: None,
        code: None,
    };
    match carry(alloc, &mut inputs, &files, guessed, decide) {
        Ok(carried) => carried_lines(alloc, &carried),
        Err(fault) => Ok(String::from_utf8(fault.lines(alloc, "")?)?),
    }
}

#[test]
fn files_in_memory_are_carried_together(rt: HostRuntime) -> Result<(), Fail> {
    for (names, decide, wanted) in CASES {
        let got = outcome(rt.alloc(), *names, *decide)?;
        compare(*names, got.as_str(), *wanted)?;
    }
    Ok(())
}

#[test]
fn a_module_has_a_stand_in_only_to_decide(rt: HostRuntime) -> Result<(), Fail> {
    let alloc = rt.alloc();
    for (decide, wanted) in [(false, "4 0\n"), (true, "0 1\n")] {
        let got = outcome(alloc, "mod", decide)?;
        assert!(rt;
            got.as_str().starts_with(wanted),
            "got {got}, wanted {wanted}"
        );
    }
    Ok(())
}
