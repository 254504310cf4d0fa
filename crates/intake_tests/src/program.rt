//! The program over files in memory: statuses, what is left in the folder, and what is told on standard error.

use fields::{Id, Reason};
use intake_command::{IntakeHost, NamedFile, command, keep_service};
use intake_words::IntakeFault;
use mcs::HoldItem;
use std::alloc::Global;
use std::io::{Error, ErrorKind};
use std::test::Fail;
use std::{io, str};
use sysmods_values::Hold;
use terms::HoldKind;

/// The files that can be read.
const FILES: &[(&str, &[u8])] = &[
    ("empty", b""),
    ("ptf", b"++PTF(UA00001).\n++VER(Z038) FMID(HAA1100).\n"),
    (
        "mod",
        b"++PTF(UA00002).\n++VER(Z038) FMID(HAA1100).\n++MOD(M2) DISTLIB(AMOD).\n",
    ),
    (
        "hold",
        b"++HOLD(UA00001) ERROR FMID(HAA1100) REASON(AA00001).\n",
    ),
    ("bad", b"++HOLD(UA1) ERROR FMID(HAA1100) REASON(AA00001).\n"),
    ("cntl", b" SET BOUNDARY(TGT1).\n"),
    ("rc", b" APPLY PTFS RC(APPLY=8).\n"),
    (
        "group",
        b" APPLY PTFS GROUPEXTEND(NOAPARS) SOURCEID(RSU*).\n",
    ),
    ("listed", b"id kind\nUA1 PTF\n"),
    (
        "known",
        b"id kind sources\nUA00001 PTF RSU2401\nAA00001 APAR\n",
    ),
    (
        "relfile",
        b"++PTF(UA00003).\n++VER(Z038) FMID(HAA1100).\n++DATA(DECK) DISTLIB(A) SYSLIB(B) RELFILE(1).\n",
    ),
    (
        "other",
        b"++PTF(UA00004).\n++VER(Z038) FMID(HAA1100).\n++DATA(DECK) DISTLIB(A) SYSLIB(B) RELFILE(1).\n",
    ),
    ("r/F1/DECK", b"A TEXT\n"),
    ("r/UA00004/F1/DECK", b"ANOTHER TEXT\n"),
    ("gzip", b"\x1F\x8B\x08"),
    ("jcl", b"//STEP EXEC PGM=GIMSMP\n++PTF(UA00001).\n"),
    (
        "holds",
        b"++HOLD(UA00001) ERROR FMID(HAA1100) REASON(AA00001)\n",
    ),
];

/// The words after the program's name, with blanks between; the status, what is left in the folder, and what is told.
const CASES: &str = "\
--out d ptf => 0 ptfin hold remarks -stand-ins
--out d ptf hold => 0 ptfin hold remarks -stand-ins
--out d mod => 4 ptfin hold remarks -stand-ins
--out d --decide mod => 0 ptfin hold stand-ins remarks
--out d --relfile r relfile => 0 ptfin hold remarks -stand-ins
--out d --relfile r other => 0 ptfin hold remarks -stand-ins
--out d --relfile r relfile other => 4 ptfin hold remarks -stand-ins
--out d --relfile s relfile => 4 ptfin hold remarks -stand-ins
--out d --cntl cntl => 0 cntl cntl.remarks
--out d --cntl rc => 12 smpe-intake: rc line 1: APPLY RC: refused: the profile has no such operand: APPLY=8
--out d --cntl group --known known => 0 cntl cntl.remarks
--out d --cntl group --known known --known ptf => 0 cntl cntl.remarks
--out d --cntl group --known listed => 16 smpe-intake: listed line 2: a line has an id, a type and source ids
--out . hold => 16 smpe-intake: ./hold would replace the input hold: give another folder with --out
--out . --cntl cntl => 16 smpe-intake: ./cntl would replace the input cntl: give another folder with --out
--out lost ptf => 16 smpe-intake: cannot read lost/remarks
--out unknown ptf => 16 smpe-intake: cannot read unknown/ptfin
--out theirs ptf => 16 smpe-intake: theirs/hold is not of an earlier run, whose remarks would name it: \
give another folder with --out
--out theirs --cntl cntl => 0 cntl cntl.remarks
--out earlier ptf => 0 ptfin hold remarks -stand-ins
--out earlier --decide ptf => 0 ptfin hold stand-ins remarks
--out earlier none => 16 smpe-intake: cannot read none|smpe-intake: the files in earlier are those of an earlier run
--out d gzip => 16 smpe-intake: gzip: it is compressed by gzip: unpack it first
--out d jcl => 16 smpe-intake: jcl line 1: JCL stands there: give the cards after its DD * without it
--out d holds => 16 smpe-intake: holds line 1: ++HOLD(UA00001): refused: its period is missing
--out d empty => 16 smpe-intake: no statement found
--out d ptf none => 16 smpe-intake: cannot read none
--out full ptf => 16 smpe-intake: cannot write into full
--out d --syslib A=2 ptf => 16 smpe-intake: bad operand: --syslib takes DISTLIB=SYSLIB
--out d bad => 16 smpe-intake: bad line 1: ++HOLD(UA1): refused: a bad id
--help => 0
--version => 0
ptf => 16 shown
--out d --code utf8 ptf => 16 shown
--out d --text --records ptf => 16 smpe-intake: bad operand: --text and --records exclude each other
--out d --cntl cntl ptf => 16 smpe-intake: bad operand: --cntl takes no other FILE
--out d => 16 smpe-intake: bad operand: no FILE is given
";

/// How the remarks of an earlier run begin.
const REMARKS: &[u8] = b"Written by smpe-intake: ptfin hold stand-ins remarks\n";

/// A host in memory: what is left in the folder, what is printed, and what is told on standard error. The folder
/// `earlier` has files of an earlier run, and `theirs` a file `hold` of another's.
#[derive(Drop)]
struct Memory {
    alloc: Global,
    left: Vec<u8>,
    printed: Vec<u8>,
    told: Vec<u8>,
}

impl Memory {
    // A host that nothing was written to.
    fn new(alloc: Global) -> Memory {
        Memory {
            alloc,
            left: Vec::new(alloc),
            printed: Vec::new(alloc),
            told: Vec::new(alloc),
        }
    }
}

impl IntakeHost for Memory {
    ghost does = { λ _ _ _. Unit {0} };

    fn read(&mut self, name: &str) -> io::Result<Vec<u8>> {
        for (known, bytes) in FILES {
            if *known == name {
                return Ok(Vec::from_slice(self.alloc, *bytes)?);
            }
        }
        Err(Error::from(ErrorKind::NotFound))
    }

    fn read_start(&mut self, path: &str) -> io::Result<Option<Vec<u8>>> {
        match path {
            "earlier/remarks" => Ok(Some(Vec::from_slice(self.alloc, REMARKS)?)),
            "lost/remarks" => Err(Error::from(ErrorKind::PermissionDenied)),
            _ => Ok(None),
        }
    }

    fn is_present(&mut self, path: &str) -> io::Result<bool> {
        if path == "unknown/ptfin" {
            return Err(Error::from(ErrorKind::InvalidData));
        }
        Ok(path == "theirs/hold" || path.starts_with("earlier/"))
    }

    fn append_to_draft(
        &mut self,
        folder: &str,
        _name: &'static str,
        _bytes: &[u8],
    ) -> io::Result<()> {
        if folder == "full" {
            return Err(Error::from(ErrorKind::StorageFull));
        }
        Ok(())
    }

    fn discard_drafts(&mut self, _folder: &str) {}

    fn keep(
        &mut self,
        folder: &str,
        files: &[NamedFile],
        removed: &[&'static str],
    ) -> io::Result<()> {
        if folder == "full" {
            return Err(Error::from(ErrorKind::StorageFull));
        }
        for file in files {
            self.left.extend_from_slice(file.name.as_bytes())?;
            self.left.push(b' ')?;
        }
        for name in removed {
            self.left.push(b'-')?;
            self.left.extend_from_slice(name.as_bytes())?;
            self.left.push(b' ')?;
        }
        Ok(())
    }

    fn is_same(&mut self, first: &str, second: &str) -> io::Result<bool> {
        Ok(first.strip_prefix("./").unwrap_or(first) == second)
    }

    fn print(&mut self, text: &[u8]) -> io::Result<()> {
        Ok(self.printed.extend_from_slice(text)?)
    }

    fn tell(&mut self, text: &[u8]) {
        let _ = self.told.extend_from_slice(text);
    }

    fn show(&mut self, error: &clap::Error) -> io::Result<()> {
        if error.use_stderr() {
            self.told.extend_from_slice(b"shown")?;
        }
        Ok(())
    }
}

// The words of a command line: the program's name, and those of the line.
fn words(alloc: Global, line: &str) -> Result<Vec<Vec<u8>>, Fail> {
    let mut words = Vec::new(alloc);
    words.push(Vec::from_slice(alloc, b"smpe-intake")?)?;
    for word in line.as_bytes().split(|b| *b == b' ') {
        words.push(Vec::from_slice(alloc, word)?)?;
    }
    Ok(words)
}

// The status, the names that are left in the folder, and what is told.
fn outcome(alloc: Global, line: &str) -> Result<String, Fail> {
    let mut memory = Memory::new(alloc);
    let status = command(alloc, &mut memory, &Ok(words(alloc, line)?));
    let left = str::from_utf8(&memory.left)?;
    let told = str::from_utf8(&memory.told)?;
    Ok(format!(in alloc; "{status} {left}{told}")?)
}

#[test]
fn answers_its_status(rt: HostRuntime) -> Result<(), Fail> {
    for line in CASES.lines() {
        let (words, wanted) = line.split_once(" => ").ok_or("no arrow in a case")?;
        let got = outcome(rt.alloc(), words)?;
        let wanted = wanted.replace(rt.alloc(), '|', "\n")?;
        assert_eq!(rt; got.as_str().trim_end(), wanted.as_str(), "at {words}");
    }
    Ok(())
}

/// What is printed of a PTF and of one with a module: first what is left out, and then how much there is of each.
const SUMMARY: &str = "LEFTOUT ++PTF(UA00002): ++MOD(M2): no statement of the profile
FORBIDS       1 left out have elements, NPRE or DELETE, which nothing asks for now
SYSMOD        1 carried       1 left out
HOLD          0 carried       0 left out
RELEASE       0 carried       0 left out
ASSIGN        0 carried       0 left out
REMARK        1 left out: no statement of the profile
REMARK        1 left out: a statement of it can't be carried
";

/// The same for a program.
const JSON: &str =
    "{\"left_out\":[{\"statement\":\"++PTF\",\"id\":\"UA00002\",\"cause\":\"++MOD(M2): no statement \
of the profile\"}],\"unsure\":[],\"holds_outside\":0,\"in_comments\":0,\"forbids\":1,\"stand_ins\":0,\"passed_over\":0,\
\"sysmods\":{\"carried\":1,\"left_out\":1},\"holds\":{\"carried\":0,\"left_out\":0},\
\"releases\":{\"carried\":0,\"left_out\":0},\"assigns\":{\"carried\":0,\"left_out\":0},\
\"remarks\":[{\"count\":1,\"deed\":\"left out\",\"reason\":\"no statement of the profile\"},\
{\"count\":1,\"deed\":\"left out\",\"reason\":\"a statement of it can't be carried\"}]}
";

#[test]
fn a_summary_begins_with_what_is_left_out(rt: HostRuntime) -> Result<(), Fail> {
    let alloc = rt.alloc();
    for (line, wanted) in [
        ("--out d ptf mod", SUMMARY),
        ("--out d --summary json ptf mod", JSON),
    ] {
        let mut memory = Memory::new(alloc);
        let _ = command(alloc, &mut memory, &Ok(words(alloc, line)?));
        assert_eq!(rt; str::from_utf8(&memory.printed)?, wanted, "at {line}");
    }
    Ok(())
}

// A hold with this comment, which cards may not be able to say.
fn held(alloc: Global, comment: &str) -> Result<Vec<HoldItem>, Fail> {
    let mut holds = Vec::new(alloc);
    holds.push(HoldItem::Hold(Hold {
        id: Id::read(b"UA00001").ok_or("id")?,
        kind: HoldKind::System,
        reason: Reason::read(b"DOC").ok_or("reason")?,
        fmid: Id::read(b"HAA1100").ok_or("fmid")?,
        class: None,
        date: None,
        comment: Some(String::from_str(alloc, comment)?),
        internal: false,
    }))?;
    Ok(holds)
}

#[test]
fn writes_nothing_that_is_not_read_back(rt: HostRuntime) -> Result<(), Fail> {
    let alloc = rt.alloc();
    for (comment, is_kept) in [
        ("READ IT", true),
        ("READ (IT", false),
        ("READ ((IT))", false),
        ("", false),
    ] {
        let mut memory = Memory::new(alloc);
        let holds = held(alloc, comment)?;
        let kept = keep_service(alloc, &mut memory, "d", &[], &holds, None, Vec::new(alloc));
        assert_eq!(rt; kept.is_ok(), is_kept, "at {comment}");
        assert_eq!(rt;
            matches!(kept, Err(IntakeFault::NotReadBack(_))),
            !is_kept,
            "at {comment}"
        );
        assert_eq!(rt; memory.left.is_empty(), !is_kept, "at {comment}");
    }
    Ok(())
}
