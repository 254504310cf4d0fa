//! Files of one text each, and the answer about them.
use fields::Srel;
use smpe_lint::{GivenFile, LintForm, lint_files};
use std::alloc::Global;
use std::test::Fail;

/// A text, of which `|` ends a line, and the wanted answer with its status.
struct Case {
    text: &'static str,
    status: u8,
    wanted: &'static str,
}

/// Streams, and the lines about them.
const CASES: [Case; 11] = [
    Case {
        text: "++PTF(UA00001).|++VER(Z038) FMID(HAA1100).|++DATA(D1) DISTLIB(A) SYSLIB(S).|ONE|\
            ++PTF(UA00002).|++VER(Z038) FMID(HAA1100) SUP(UA00001).|++DATA(D1) DISTLIB(A) SYSLIB(S).|TWO|",
        status: 0,
        wanted: "LINT 2 SYSMODs: this stream is clean|",
    },
    Case {
        text: "++PTF(UA00001).|++VER(Z038) FMID(HAA1100).|++DATA(D1) DISTLIB(A) SYSLIB(S).|ONE|\
            ++PTF(UA00002).|++VER(Z038) FMID(HAA1100).|++DATA(D1) DISTLIB(A) SYSLIB(S).|TWO|",
        status: 8,
        wanted: "LINT 2 SYSMODs, 1 rule broken, 1 finding: this stream is not clean|\
            .. UNORDERED UA00001, UA00002: both change DATA D1, and neither is over the other \
            (ptfs, line 1; ptfs, line 5)|",
    },
    Case {
        text: "++PTF(UA00001).|++VER(Z038) FMID(HAA1100).|++DATA(D1) DISTLIB(A) SYSLIB(S).|ONE|\
            ++PTF(UA00002).|++VER(Z038) FMID(HBB1100).|++DATA(D1) DISTLIB(A) SYSLIB(S).|TWO|",
        status: 0,
        wanted: "LINT 2 SYSMODs: this stream is clean|",
    },
    Case {
        text: "++PTF(UA00001).|++VER(Z038) FMID(HAA1100).|++DATA(D1) DISTLIB(A) SYSLIB(S).|ONE|\
            ++PTF(UA00002).|++VER(Z038) FMID(HAA1100) SUP(UA00001).|",
        status: 8,
        wanted: "LINT 2 SYSMODs, 1 rule broken, 1 finding: this stream is not clean|\
            .. ELEMENTS UA00002 SUP UA00001: DATA D1 of UA00001 is not changed, so its fix is lost \
            (ptfs, line 5; ptfs, line 1)|",
    },
    Case {
        text: "++PTF(UA00001).|++VER(Z038) FMID(HAA1100) PRE(UA00009) SUP(AA00001).|\
            ++PTF(UA00002).|++VER(Z038) FMID(HBB1100) SUP(UA00001).|",
        status: 8,
        wanted: "LINT 2 SYSMODs, 1 rule broken, 3 findings: this stream is not clean|\
            .. REQUISITES UA00002 SUP UA00001: the two have different FMIDs (ptfs, line 3; ptfs, line 1)|\
            .. REQUISITES UA00002 SUP UA00001: PRE UA00009 of UA00001 is in neither PRE nor SUP of UA00002 \
            (ptfs, line 3; ptfs, line 1)|\
            .. REQUISITES UA00002 SUP UA00001: SUP AA00001 of UA00001 is not in SUP of UA00002 \
            (ptfs, line 3; ptfs, line 1)|\
            .. ABSENT UA00001 PRE UA00009: it is not in the stream (ptfs, line 1)|",
    },
    Case {
        text: "++PTF(UA00001).|++VER(Z038) FMID(HAA1100) REQ(UA00009).|++IF FMID(HBB1100) THEN REQ(UB00001).|\
            ++HOLD(UA00001) SYS FMID(HAA1100) REASON(ACTION) COMMENT(DO IT).|\
            ++PTF(UA00002).|++VER(Z038) FMID(HAA1100) SUP(UA00001).|++VER(Z038) FMID(HBB1100).|",
        status: 4,
        wanted: "LINT 2 SYSMODs: this stream is clean|\
            .. ABSENT UA00001 REQ UA00009: it is not in the stream (ptfs, line 1)|\
            .. ABSENT UA00001 ++IF REQ UB00001: it is not in the stream (ptfs, line 1)|\
            .. VERS UA00002 has several ++VERs for Z038: only the first is looked at (ptfs, line 5)|\
            .. HOLD UA00002 SUP UA00001: SYSTEM hold ACTION of UA00001 is not on UA00002 (ptfs, line 5; ptfs, line 1)|",
    },
    Case {
        text: "++PTF(UA00001).|++VER(Z039) FMID(HAA1100).|",
        status: 4,
        wanted: "LINT 1 SYSMOD: this stream is clean|.. EMPTY no SYSMOD has a ++VER for Z038|",
    },
    Case {
        text: "++PTF(UA00001).|++VER(Z038) FMID(HAA1100) PRE(UA00002).|\
            ++PTF(UA00002).|++VER(Z038) FMID(HAA1100) PRE(UA00001).|",
        status: 8,
        wanted: "LINT 1 SYSMOD, 1 fault: what could be read of this stream is clean|\
            .. RECEIVE UA00002: Rc2: the SYSMOD closes a loop of PRE, SUP and FMID (ptfs, line 3)|\
            .. ABSENT UA00001 PRE UA00002: it is not in the stream (ptfs, line 1)|",
    },
    Case {
        text: "++PTF(UA00001).|++VER(Z038) FMID(HAA1100) PRFE(UA00002).|++PTF(UA00002).|++VER(Z038) FMID(HAA1100).|",
        status: 8,
        wanted: "LINT 1 SYSMOD, 2 faults: what could be read of this stream is clean|\
            .. FAULT ++VER(UA00001) PRFE: left out: smpe does not know this operand, and may not drop it: UA00002 \
            (ptfs, line 2)|\
            .. FAULT ++PTF(UA00001): left out: a statement of it can't be carried (ptfs, line 1)|",
    },
    Case {
        text: "++PTF(UA00001).|++VER(Z038) FMID(HAA1100).|++MOD(M1) DISTLIB(A).|OBJ|\
            ++PTF(UA00002).|++VER(Z038) FMID(HAA1100).|++MOD(M1) DISTLIB(A).|OBJ|",
        status: 8,
        wanted: "LINT 2 SYSMODs, 1 rule broken, 1 finding: this stream is not clean|\
            .. UNORDERED UA00001, UA00002: both change MOD M1, and neither is over the other \
            (ptfs, line 1; ptfs, line 5)|",
    },
    Case {
        text: "NOTHING|",
        status: 12,
        wanted: "LINT 0 SYSMODs, 1 fault: nothing could be read|\
            .. REFUSED ptfs line 1: no statement begins there: a statement has ++ in columns 1 and 2|",
    },
];

/// Streams in records of 80 bytes, and the lines about them.
const RECORDS: [Case; 2] = [
    Case {
        text: "++PTF(UA00001).|++VER(Z038) FMID(HAA1100) PRFE(UA00002).|",
        status: 8,
        wanted: "LINT 0 SYSMODs, 3 faults: what could be read of this stream is clean|\
            .. FAULT RECEIVE refuses the file with Mc3 (ptfs, record 2)|\
            .. FAULT ++VER(UA00001) PRFE: left out: smpe does not know this operand, and may not drop it: UA00002 \
            (ptfs, record 2)|\
            .. FAULT ++PTF(UA00001): left out: a statement of it can't be carried (ptfs, record 1)|\
            .. EMPTY no SYSMOD has a ++VER for Z038|",
    },
    Case {
        text: "++PTF(UA00001) REWORK(2024001).|++VER(Z038) FMID(HAA1100).|",
        status: 4,
        wanted: "LINT 1 SYSMOD: this stream is clean|.. RECORDS RECEIVE refuses the file with Mc3 (ptfs, record 1)|",
    },
];

// The text with line ends in place of `|`.
fn lines(alloc: Global, text: &str) -> Result<String, Fail> {
    let mut lines = String::new(alloc);
    for character in text.chars() {
        lines.push(match character {
            '|' => '\n',
            other => other,
        })?;
    }
    Ok(lines)
}

// The lines of the text, up to each `|`, as records.
fn records(alloc: Global, text: &str) -> Result<Vec<u8>, Fail> {
    let mut records = Vec::new(alloc);
    for line in text.split_terminator('|') {
        records.extend_from_slice(format!(in alloc; "{line:80}")?.as_bytes())?;
    }
    Ok(records)
}

// The answer about a file of these bytes, with points in place of the blanks before a finding, and `|` after each line.
fn answer(alloc: Global, bytes: &[u8], form: LintForm) -> Result<(String, u8), Fail> {
    let file = GivenFile {
        name: "ptfs",
        bytes,
    };
    let Some(srel) = Srel::read(b"Z038") else {
        return Err("Z038 is an SREL".into());
    };
    let answer = lint_files(alloc, &[file], srel, form)?;
    let got = str::from_utf8(answer.text.as_slice())?;
    let mut marked = String::new(alloc);
    for line in got.lines() {
        match line.strip_prefix("  ") {
            Some(rest) => {
                marked.push_str(".. ")?;
                marked.push_str(rest)?;
            }
            None => marked.push_str(line)?,
        }
        marked.push('|')?;
    }
    Ok((marked, answer.status))
}

// Whether the answer about these bytes is the case's.
fn check(alloc: Global, case: &Case, bytes: &[u8]) -> Result<(), Fail> {
    let (got, status) = answer(alloc, bytes, LintForm::Text)?;
    if got.as_str() != case.wanted || status != case.status {
        let text = case.text;
        let wanted = case.wanted;
        return Err(format!(in alloc; "{text}\ngot {status} {got}\nwanted {wanted}")?.into());
    }
    Ok(())
}

#[test]
fn each_stream_is_answered(rt: HostRuntime) -> Result<(), Fail> {
    let alloc = rt.alloc();
    for case in &CASES {
        check(alloc, case, lines(alloc, case.text)?.as_bytes())?;
    }
    Ok(())
}

#[test]
fn records_are_also_read_as_receive_reads_them(rt: HostRuntime) -> Result<(), Fail> {
    let alloc = rt.alloc();
    for case in &RECORDS {
        check(alloc, case, records(alloc, case.text)?.as_slice())?;
    }
    Ok(())
}

/// The second stream's answer for programs.
const OBJECT: &str =
    "{\"broken\":1,\"faults\":0,\"findings\":[{\"file\":\"ptfs\",\"id\":null,\"name\":\"D1\",\"number\":1,\
\"operand\":null,\"other\":\"UA00002\",\"other_file\":\"ptfs\",\"other_number\":5,\"other_unit\":\"line\",\
\"rule\":\"UNORDERED\",\
\"sysmod\":\"UA00001\",\"type\":\"DATA\",\"unit\":\"line\",\
\"words\":\"UA00001, UA00002: both change DATA D1, and neither is over the other\"}],\
\"remarks\":0,\"rules\":1,\"status\":8,\"sysmods\":2}|";

#[test]
fn programs_get_one_object(rt: HostRuntime) -> Result<(), Fail> {
    let alloc = rt.alloc();
    let (got, status) = answer(
        alloc,
        lines(alloc, CASES[1].text)?.as_bytes(),
        LintForm::Json,
    )?;
    if got.as_str() != OBJECT || status != 8 {
        return Err(format!(in alloc; "got {status} {got}\nwanted {OBJECT}")?.into());
    }
    Ok(())
}
