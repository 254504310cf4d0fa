//! Command files: what is carried, and what is told.

use crate::narrow_lines::compare;
use crate::wide::file_of;
use intake_asked::{KnownList, KnownSysmods, read_known, wide_commands};
use intake_cards::{Layout, read_cards};
use intake_cntl::command_file;
use std::alloc::Global;
use std::test::Fail;

/// What is carried as it stands.
const AS_THEY_STAND: &str = "\
SET BDY(GLOBAL). => SET BDY(GLOBAL).
 APPLY| PTFS CHECK| . => APPLY PTFS CHECK.
RECEIVE SYSMODS HOLDDATA SOURCEID(A). => RECEIVE SYSMODS HOLDDATA SOURCEID(A).
LIST TEXT.|REPORT ERRSYSMODS. => LIST TEXT.|REPORT ERRSYSMODS.
ACCEPT SELECT(UA00001 UA00002) BYPASS(PRE REQ,IFREQ,ID,APPLYCHECK). => \
ACCEPT SELECT(UA00001,UA00002) BYPASS(PRE,REQ,IFREQ,ID,APPLYCHECK).
";

/// Comments, anywhere.
const COMMENTED: &str = "\
/* A */ LIST /* B. */ /* ) */ . /* C */ => LIST.
REJECT SELECT(UA00001 /* A| B */ ,UA00002). => REJECT SELECT(UA00001,UA00002).|\
line 1: REJECT: dropped: it stands in a comment: B
/* ALL| OF IT */ LIST. => LIST.
APPLY PTFS /* A| CHECK.| LIST. */ . => APPLY PTFS.|line 1: APPLY: dropped: it stands in a comment: CHECK. LIST.
APPLY PTFS /* A| */ CHECK. => APPLY PTFS CHECK.
";

/// What is spelled out.
const SPELLED_OUT: &str = "\
SET BOUNDARY (TGT1). => SET BDY(TGT1).|line 1: SET BOUNDARY: carried otherwise: spelled out: BDY
APPLY FUNCTION PTF APAR USERMOD S(UA00001) E(UA00002) GEXT C. => \
APPLY FUNCTIONS PTFS APARS USERMODS SELECT(UA00001) EXCLUDE(UA00002)|GROUPEXTEND CHECK.|\
line 1: APPLY FUNCTION: carried otherwise: spelled out: FUNCTIONS|\
line 1: APPLY PTF: carried otherwise: spelled out: PTFS|line 1: APPLY APAR: carried otherwise: spelled out: APARS|\
line 1: APPLY USERMOD: carried otherwise: spelled out: USERMODS|\
line 1: APPLY S: carried otherwise: spelled out: SELECT|line 1: APPLY E: carried otherwise: spelled out: EXCLUDE|\
line 1: APPLY GEXT: carried otherwise: spelled out: GROUPEXTEND|\
line 1: APPLY C: carried otherwise: spelled out: CHECK
APPLY BYPASS(HOLDSYS(ACTION,DOC),HOLDERR,HOLDUSER(WAIT) HOLDCLASS(PE)). => \
APPLY BYPASS(HOLDSYSTEM(ACTION,DOC),HOLDERROR,HOLDUSER(WAIT),HOLDCLASS(|PE)).|\
line 1: APPLY HOLDSYS: carried otherwise: spelled out: HOLDSYSTEM|\
line 1: APPLY HOLDERR: carried otherwise: spelled out: HOLDERROR
restore s(ua00001) g. => RESTORE GROUP(UA00001).|\
line 1: RESTORE: carried otherwise: lower case was read as upper case|\
line 1: RESTORE S: carried otherwise: spelled out: SELECT|line 1: RESTORE G: carried otherwise: spelled out: GROUP|\
line 1: RESTORE G: carried otherwise: GROUP has the ids of SELECT
LIST. LIST. => LIST.|LIST.|line 1: LIST: carried otherwise: stands on a card of its own
";

/// What is dropped.
const DROPPED: &str = "\
SET BDY(TGT1) OPTIONS(OPT1). => SET BDY(TGT1).|line 1: SET OPTIONS: dropped: it changes no decision: OPT1
RECEIVE SYSMODS LIST| BYPASS(FMID,APPLYCHECK). => RECEIVE SYSMODS.|\
line 1: RECEIVE LIST: dropped: it changes no decision|line 2: RECEIVE FMID: dropped: it changes no decision|\
line 2: RECEIVE APPLYCHECK: dropped: it changes no decision
ACCEPT PTFS COMPRESS(ALL) RETRY(YES) REUSE NOJCLIN NOPURGE SIZE(1)| BYPASS(HOLDFIXCAT). => ACCEPT PTFS.|\
line 1: ACCEPT COMPRESS: dropped: it changes no decision: ALL|\
line 1: ACCEPT RETRY: dropped: it changes no decision: YES|line 1: ACCEPT REUSE: dropped: it changes no decision|\
line 1: ACCEPT NOJCLIN: dropped: it changes no decision|line 1: ACCEPT NOPURGE: dropped: it changes no decision|\
line 1: ACCEPT SIZE: dropped: it changes no decision: 1|line 2: ACCEPT HOLDFIXCAT: dropped: it changes no decision
RESETRC.|LIST. => LIST.|line 1: RESETRC: dropped: it changes no decision
REJECT SELECT(UA00001,UA00001). => REJECT SELECT(UA00001).|line 1: REJECT SELECT: dropped: stands there twice: UA00001
";

/// What is named, each of them, and no file comes of it.
const NAMED: &str = "\
APPLY PTFS RC(APPLY=8)| SOURCEID(RSU*,HIPER) GROUPEXTEND(NOUSERMODS)| BYPASS(XZIFREQ,ID) EXSRCID(PE). => \
line 1: APPLY RC: refused: the profile has no such operand: APPLY=8|\
line 2: APPLY SOURCEID: refused: only --known FILE tells which these are: give it, or write their ids: RSU*|\
line 3: APPLY XZIFREQ: refused: the profile has no such operand|\
line 3: APPLY EXSRCID: refused: the profile has no such operand: PE|\
line 2: APPLY GROUPEXTEND: refused: only --known FILE tells which these are: give it, or write their ids: NOUSERMODS
APPLY PTFS C(ALL) GEXT(NOPTFS). => line 1: APPLY C: dropped: it changes no decision: ALL|\
line 1: APPLY GEXT: carried otherwise: spelled out: GROUPEXTEND|\
line 1: APPLY GEXT: refused: the profile has no such operand: NOPTFS
LIST.|APPLY PTFS /* A| B. => line 2: APPLY: refused: a comment is not closed: put */ at its end
UCLIN.|ADD TARGETZONE(T).|ENDUCL.|LIST. => line 1: UCLIN: refused: the profile has no such command|\
line 2: ADD: refused: the profile has no such command|line 3: ENDUCL: refused: the profile has no such command
APPLY PTFS GROUP. => line 1: APPLY GROUP: refused: the profile has no such operand
APPLY PTFS PTF. => line 1: APPLY PTF: carried otherwise: spelled out: PTFS|\
line 1: APPLY PTF: refused: stands there twice
APPLY SELECT(UA1). => line 1: APPLY SELECT: refused: a bad value: UA1
APPLY SELECT. => line 1: APPLY SELECT: refused: it is missing
APPLY BYPASS(X.PRE). => line 1: APPLY X.PRE: refused: the profile has no such operand
SET BDY(A,B). => line 1: SET BDY: refused: a bad value: A,B
SET. => line 1: SET BOUNDARY: refused: it is missing
REJECT. => line 1: REJECT SELECT: refused: it is missing
REPORT. => line 1: REPORT ERRSYSMODS: refused: it is missing
RESTORE CHECK. => line 1: RESTORE: refused: SELECT or GROUP is missing
RECEIVE S(UA00001). => line 1: RECEIVE S: refused: the profile has no such operand: UA00001
LOG('A. B').|LIST SYSMODS. => line 1: LOG: dropped: it changes no decision: 'A. B'|\
line 2: LIST SYSMODS: refused: the profile has no such operand
LIST => line 1: LIST: refused: its period is missing
APPLY SELECT(UA00001. => line 1: APPLY: refused: a parenthesis is not closed in columns 1 to 72
LIST /* A. => line 1: LIST: refused: a comment is not closed: put */ at its end
";

/// What is about SYSMODs that are known.
const KNOWN_ONES: &str = "\
APPLY S(AA00001) GROUPEXTEND(NOAPARS,NOUSERMODS) E(UA00009). => \
APPLY SELECT(AA00001) GROUPEXTEND EXCLUDE(UA00009,AA00002,UM00001).|\
line 1: APPLY S: carried otherwise: spelled out: SELECT|line 1: APPLY E: carried otherwise: spelled out: EXCLUDE|\
line 1: APPLY GROUPEXTEND: carried otherwise: EXCLUDE names the APARs or USERMODs of --known: NOAPARS|\
line 1: APPLY GROUPEXTEND: carried otherwise: EXCLUDE names the APARs or USERMODs of --known: NOUSERMODS
APPLY SELECT(AA00001) GROUP GROUPEXTEND(NOAPARS). => APPLY GROUP(AA00001) GROUPEXTEND EXCLUDE(AA00002).|\
line 1: APPLY GROUP: carried otherwise: GROUP has the ids of SELECT|\
line 1: APPLY GROUPEXTEND: carried otherwise: EXCLUDE names the APARs or USERMODs of --known: NOAPARS
APPLY PTFS SOURCEID(HIPER,RSU*). => APPLY PTFS SOURCEID(HIPER,RSU2401,RSU2402).|\
line 1: APPLY SOURCEID: carried otherwise: the list names the source ids of --known that begin so: RSU*
APPLY PTFS SOURCEID(PUT*). => line 1: APPLY SOURCEID: refused: no source id of --known begins so: PUT*
APPLY APARS GROUPEXTEND(NOAPARS). => line 1: APPLY GROUPEXTEND: refused: these operands cannot stand together: NOAPARS|\
line 1: APPLY GROUPEXTEND: carried otherwise: EXCLUDE names the APARs or USERMODs of --known: NOAPARS
";

/// What is about SYSMODs that the job receives, without its PTFIN.
const RECEIVED_ONES: &str = "\
RECEIVE SYSMODS.|APPLY PTFS GROUPEXTEND(NOAPARS). => \
line 2: APPLY GROUPEXTEND: refused: only --known FILE tells which these are: give it, or write their ids: NOAPARS, \
also among those that RECEIVE brings: --known takes its PTFIN
RECEIVE.|APPLY PTFS SOURCEID(RSU*). => \
line 2: APPLY SOURCEID: refused: only --known FILE tells which these are: give it, or write their ids: RSU*, \
also among those that RECEIVE brings: --known takes its PTFIN
RECEIVE HOLDDATA.|APPLY APARS GROUPEXTEND(NOUSERMODS). => RECEIVE HOLDDATA.|\
APPLY APARS GROUPEXTEND EXCLUDE(UM00001).|\
line 2: APPLY GROUPEXTEND: carried otherwise: EXCLUDE names the APARs or USERMODs of --known: NOUSERMODS
RECEIVE SYSMODS.|APPLY PTFS GROUPEXTEND SOURCEID(HIPER). => RECEIVE SYSMODS.|APPLY PTFS GROUPEXTEND SOURCEID(HIPER).
";

/// The same with its PTFIN.
const KNOWN_RECEIVED_ONES: &str = "\
RECEIVE SYSMODS.|APPLY PTFS GROUPEXTEND(NOUSERMODS). => RECEIVE SYSMODS.|APPLY PTFS GROUPEXTEND EXCLUDE(UM00001).|\
line 2: APPLY GROUPEXTEND: carried otherwise: EXCLUDE names the APARs or USERMODs of --known: NOUSERMODS
RECEIVE SOURCEID(RSU2405).|APPLY PTFS SOURCEID(RSU*). => \
line 2: APPLY SOURCEID: refused: only --known FILE tells which these are: give it, or write their ids: RSU*, \
also among those to which RECEIVE gives a source id
";

/// SYSMODs that are known.
const LIST: &[u8] =
    b"id,kind,sources\nUA00001,PTF,\"RSU2401 HIPER\"\nAA00001,APAR,\nAA00002,APAR,RSU2402\n\nUM00001,USERMOD,\n";

// No SYSMODs are known.
fn nothing_known() -> KnownSysmods {
    KnownSysmods {
        list: None,
        has_ptfin: false,
    }
}

// What comes of a command file: the records without the blanks at their ends, or none if there is no file, and then
// the remarks.
fn outcome(alloc: Global, text: &[u8], known: &KnownSysmods) -> Result<String, Fail> {
    let found = read_cards(alloc, 0, text, Some(Layout::Text), None)?;
    let commands = wide_commands(alloc, &found.cards)?;
    let file = command_file(alloc, &found.cards, &commands, known)?;
    let mut lines = Vec::new(alloc);
    if let Some(bytes) = &file.bytes {
        for record in bytes.chunks(80) {
            lines.extend_from_slice(record.trim_ascii_end())?;
            lines.push(b'\n')?;
        }
    }
    for place in 0..file.remarks.len() {
        if let Some(remark) = file.remarks.get(place) {
            let line = remark.line(alloc, "", "line")?;
            lines.extend_from_slice(line.trim_ascii_start())?;
            lines.push(b'\n')?;
        }
    }
    Ok(String::from_utf8_lossy(alloc, &lines)?)
}

// Fails unless these lines come of these cards. There is a bar between two lines, and between two cards.
fn check_case(alloc: Global, known: &KnownSysmods, cards: &str, lines: &str) -> Result<(), Fail> {
    let file = file_of(alloc, cards)?;
    let got = outcome(alloc, file.as_slice(), known)?;
    let lines = file_of(alloc, lines)?;
    let wanted = std::str::from_utf8(lines.as_slice())?;
    compare(cards, got.as_str().trim_end(), wanted)
}

// Each case is a command file, by its cards, and after an arrow the lines that come of it.
fn check(alloc: Global, known: &KnownSysmods, cases: &str) -> Result<(), Fail> {
    for line in cases.lines() {
        let (cards, lines) = line.split_once(" => ").ok_or("no arrow in a case")?;
        check_case(alloc, known, cards, lines)?;
    }
    Ok(())
}

#[test]
fn commands_are_carried_dropped_or_named(rt: HostRuntime) -> Result<(), Fail> {
    check_case(rt.alloc(), &nothing_known(), "/* nothing */", "")?;
    for cases in [AS_THEY_STAND, COMMENTED, SPELLED_OUT, DROPPED, NAMED] {
        check(rt.alloc(), &nothing_known(), cases)?;
    }
    Ok(())
}

#[test]
fn known_sysmods_tell_what_is_meant(rt: HostRuntime) -> Result<(), Fail> {
    let KnownList::Sysmods(known) = read_known(rt.alloc(), LIST)? else {
        return Err("the list is in form".into());
    };
    let mut known = KnownSysmods {
        list: Some(known),
        has_ptfin: false,
    };
    check(rt.alloc(), &known, KNOWN_ONES)?;
    check(rt.alloc(), &known, RECEIVED_ONES)?;
    known.has_ptfin = true;
    check(rt.alloc(), &known, KNOWN_RECEIVED_ONES)
}

#[test]
fn a_line_of_the_list_that_is_not_in_form_is_named(rt: HostRuntime) -> Result<(), Fail> {
    for (list, wanted) in [
        (b"id kind\nUA00001 PTF\nUA1 PTF\n".as_slice(), 3),
        (b"UA00001 PTF\nUA00002 FIX\n".as_slice(), 2),
        (b"UA00001 PTF\nUA00002 PTF RSU-2401\n".as_slice(), 2),
    ] {
        let found = read_known(rt.alloc(), list)?;
        assert!(rt; matches!(found, KnownList::BadLine(line) if line == wanted));
    }
    Ok(())
}

#[test]
fn a_long_line_is_refused_unless_it_is_a_comment(rt: HostRuntime) -> Result<(), Fail> {
    let long = "                                                                               X";
    for (before, after, wanted) in [
        (
            "LIST.",
            "",
            "line 1: refused: the line has more than 80 columns; put the rest on a line of its own",
        ),
        ("/*", " */", "LIST."),
    ] {
        let alloc = rt.alloc();
        let text = format!(in alloc; "{before}{long}{after}\nLIST.\n")?;
        let got = outcome(alloc, text.as_bytes(), &nothing_known())?;
        let lines = file_of(alloc, wanted)?;
        compare(
            before,
            got.as_str().trim_end(),
            str::from_utf8(lines.as_slice())?,
        )?;
    }
    Ok(())
}
