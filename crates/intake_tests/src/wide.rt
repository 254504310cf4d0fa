//! Statements, and what is read of each.

use crate::wide_spelled::{Part, items, read_whole, spelled_file};
use std::alloc::{AllocError, Global};
use std::test::Fail;

/// Headers of SYSMODs, and the items of each file.
const HEADERS: &str = "\
++PTF(UA00001) REWORK(2024138) DESC(FIRST (SMALL) FIX) FILES(2)| RFDSNPFX(IBM) FESN(1234567). => \
; PTF UA00001 -REWORK(2024138) -DESC(FIRST (SMALL) FIX) -FILES(2) -RFDSNPFX(IBM) -FESN(1234567)
++FUNCTION(HAA1100) RFDSNTYPE(X) RFDSNTYP(Y). => ; FUNCTION HAA1100 -RFDSNTYPE(X) -RFDSNTYP(Y)
++APAR(AA00001) WORK FIX(X(Y)).|++USERMOD(MY/MOD). => ; APAR AA00001 unknown:WORK unknown:FIX(X(Y)); USERMOD MY/MOD
++PTF (| UA00001| ) . => ; PTF UA00001
";

/// `++VER`s, and the items of each file.
const VERS: &str = "\
++PTF(A).++VER(Z038). => ; PTF A; behind: PTF A +0
++PTF(A).|++VER(Z038,P115 S222) FMID(F) PRE(A B,C) REQ(D) SUP(E| F) NPRE(G) DELETE(H) VERSION(I,J). => \
; PTF A; VER SREL Z038 P115 S222 FMID(F) PRE A B C REQ D SUP E F NPRE G DELETE H VERSION I J
++PTF(A).|++VER(Z038) PRE(A) PRE(B) REQ() SUP(C(D)) FMID(E F) NPRE NEWS(G) OLD. => \
; PTF A; VER SREL Z038 PRE A again:PRE(B) bad:REQ() bad:SUP(C(D)) bad:FMID(E F) bad:NPRE unknown:NEWS(G) unknown:OLD
++PTF(A).|++VER(Z038) FMID(F).|++VER(Z038) FMID(G). => ; PTF A; VER SREL Z038 FMID(F); VER SREL Z038 FMID(G)
++PTF(A).|++VER FMID(F). => ; PTF A; no name: VER  FMID(F) +0
++PTF(A).|++VER(Z038(X)). => ; PTF A; no name: VER Z038(X) +0
";

/// `++IF`s, and the items of each file.
const IFS: &str = "\
++PTF(A).|++VER(Z038).|++IF FMID(F) REQ(B,C).|++IF FMID(G) THEN REQ(D).|++VER(P115).|++IF FMID(H). => \
; PTF A; VER SREL Z038; IF FMID(F) REQ B C; IF FMID(G) THEN REQ D; VER SREL P115; IF FMID(H)
++PTF(A).|++VER(Z038).|++IF FMID(F) THEN THEN THEN(X) REQ(B) PRE(C). => \
; PTF A; VER SREL Z038; IF FMID(F) THEN REQ B again:THEN again:THEN(X) unknown:PRE(C)
++PTF(A).|++IF FMID(F) THEN REQ(B). => ; PTF A; misplaced: IF  FMID(F) THEN REQ(B) +0
";

/// Holds and releases, and the items of each file.
const HOLDS: &str = "\
++HOLD(A) ERR REASON(R) FMID(F) CLASS(HIPER) DATE(24138) RESOLVER(B). => \
; HOLD A ERROR REASON(R) FMID(F) CLASS(HIPER) DATE(24138) -RESOLVER(B)
++HOLD(A) SYS| COMMENT|   (FIX (UA1   UA2|     (DEEP ((ER)))   )|   /* IS TEXT */  ) USER USER(X). => \
; HOLD A SYSTEM COMMENT(FIX (UA1   UA2 (DEEP ((ER)))   ) /* IS TEXT */) again:USER again:USER(X)
++HOLD(A) FIXCAT CATEGORY(IBM.Device| ,IBM.z) RESOLVER(B) FMID(F) REASON(R).|++HOLD(B) KIND. => \
; HOLD A FIXCAT REASON(R) FMID(F) -CATEGORY(IBM.Device ,IBM.z) -RESOLVER(B); HOLD B unknown:KIND
++RELEASE(A) SYSTEM REASON(R) FMID(F) CLASS(C) DATE(D)| COMMENT(E) RESOLVER(G) CATEGORY(H) LAST(I). => \
; RELEASE A SYSTEM REASON(R) FMID(F) -CLASS(C) -DATE(D) -COMMENT(E) -RESOLVER(G) -CATEGORY(H) unknown:LAST(I)
++PTF(A).|++VER(Z038).|++HOLD(A) SYSTEM.|++HOLD(B) ERROR.|++RELEASE(C) USER.|++HOLD(D) USER. => \
; PTF A; VER SREL Z038; HOLD A SYSTEM; HOLD B ERROR; HOLD D USER; RELEASE C USER
";

/// `++ASSIGN`s, and the items of each file.
const ASSIGNS: &str = "\
++ASSIGN SOURCEID(S) TO(A,B).|++PTF(A).|++ASSIGN SOURCEID(A,B) TO() FOR(C).|++VER(Z038). => \
; PTF A; VER SREL Z038; ASSIGN SOURCEID(S) TO A B; ASSIGN SOURCEID(A,B) bad:TO() unknown:FOR(C)
";

/// Elements, and the items of each file.
const ELEMENTS: &str = "\
++PTF(A).|++MAC(M1) DISTLIB(D) SYSLIB(S) SSI(1) MALIAS(X,Y).| MACRO|/* TEXT */||. (|++VER(Z038). => \
; PTF A; VER SREL Z038; MAC M1 DISTLIB(D) SYSLIB(S) SSI(1) MALIAS(X,Y) +4
++PTF(A).|++MOD(M1) DISTLIB(D) DISTLIB(E) SYSLIB RELFILE(2) LMOD(L).||/* END */|++ZAP(M2) DISTLIB(D).| NAME M2|\
\x20=> ; PTF A; MOD M1 DISTLIB(D) RELFILE(2) LMOD(L) again:DISTLIB(E) bad:SYSLIB +0; ZAP M2 DISTLIB(D) +1
++PTF(A).|++SAMPENU(S1) TXLIB(T).|++PNLJPN(P1) LKLIB(L) FROMDS(DSN(X)).|++HFS(H1) PARM(PATHMODE(0,7)).|X| => \
; PTF A; SAMPENU S1 in TXLIB(T) +0; PNLJPN P1 in LKLIB(L) in FROMDS(DSN(X)) +0; HFS H1 PARM(PATHMODE(0,7)) +1
++PTF(A).|++MAC(M1) DELETE.|++MACUPD(M2).|./ CHANGE NAME=M2| => ; PTF A; MAC M1 DELETE +0; MACUPD M2 +1
";

/// Other statements, and the items of each file.
const OTHERS: &str = "\
++PTF(A).|++JCLIN.|//S EXEC PGM=IEWL,|// PARM='A'|++MOVE(M) DISTLIB(D) TODISTLIB(E).|++DELETE(L) SYSLIB(S). => \
; PTF A; load modules: JCLIN  +2; load modules: MOVE M DISTLIB(D) TODISTLIB(E) +0; load modules: DELETE L SYSLIB(S) +0
++FEATURE(F1) DESCRIPTION(A (B)).|++PTF(A).|++NULL.|++PRODUCT(5650,V1).|++VER(Z038). => \
; PTF A; VER SREL Z038; no service: FEATURE F1 DESCRIPTION(A (B)) +0; no service: NULL  +0; no service: PRODUCT \
5650,V1 +0
++PTF(A).|++SAMPXYZ(S) DISTLIB(D).|TEXT|++VER(Z038). => ; PTF A; VER SREL Z038; unknown: SAMPXYZ S DISTLIB(D) +1
";

/// Files with a faulty statement in a SYSMOD, and the items of each.
const FAULTY: &str = "\
++PTF(A)|++VER(Z038). => ; PTF A; VER SREL Z038; no period: PTF A +0
++PTF(A).|++VER(Z038)|++IF FMID(F) REQ(B). => ; PTF A; no period: VER Z038 +0; misplaced: IF  FMID(F) REQ(B) +0
++PTF(A).|++VER(Z038) PRE(B.|++MOD(C) RELFILE(1). => ; PTF A; MOD C RELFILE(1) +0; open: VER Z038 PRE +0
++PTF(A).|++VER(Z038) PRE(B)). => ; PTF A; parenthesis: VER Z038 PRE(B) +0
++PTF(A).|++VER(Z038) PRE(B)(C). => ; PTF A; parenthesis: VER Z038 PRE(B) +0
++PTF(A).|++VER(Z038) PRE=(B). => ; PTF A; character: VER Z038 PRE(B) +0
++PTF(A).|++VER(Z038) /PRE(B). => ; PTF A; character: VER Z038 PRE(B) +0
++PTF(A).|++VER(Z038).|THIS IS NO COMMENT|++VER(P115). => ; PTF A; VER SREL P115; behind: VER Z038 +0
++PTF(A).|++VER(Z038). THIS| => ; PTF A; behind: VER Z038 +0
++PTF(A).|++VER(Z038). (| => ; PTF A; behind: VER Z038 +0
++PTF(A).|++VER(Z038).| (| => ; PTF A; behind: VER Z038 +0
++PTF.|++VER(Z038). => ; PTF ; VER SREL Z038; no name: PTF  +0
++PTF(A).|++MAC DISTLIB(D). => ; PTF A; no name: MAC  DISTLIB(D) +0
++PTF(A).|++(B). => ; PTF A; parenthesis:   +0
++PTF(A).|++. => ; PTF A; unknown:   +0
";

/// Files that are refused.
const REFUSED: &str = "\
SET BDY(GLOBAL).|++PTF(A). => ; refused: no statement 1
| (|++PTF(A). => ; refused: no statement 2
++PTF(A).|++VER(Z038). /* OPEN|++VER(P115).| => ; refused: open comment 2
/* OPEN|++PTF(A). => ; refused: open comment 1
++VER(Z038). => ; refused: misplaced 1
|++MAC(M1). => ; refused: misplaced 2
++IF FMID(F) REQ(A). => ; refused: misplaced 1
++JCLIN. => ; refused: load modules 1
++NEWS(A). => ; refused: unknown 1
";

/// Statements beside SYSMODs that are at fault, and the items of each file.
const AT_FAULT_BESIDE: &str = "\
++FEATURE(A)|++PTF(A). => ; PTF A; no period: FEATURE A +0
++PTF(A).|++HOLD(A) COMMENT(B.|++PTF(B). => ; PTF A; PTF B; open: HOLD A COMMENT +0
++HOLD(A) ERROR|++HOLD(B) ERROR. => ; HOLD B ERROR; no period: HOLD A ERROR +0
++HOLD ERROR. => ; no name: HOLD  ERROR +0
++RELEASE(A) ERROR).  => ; parenthesis: RELEASE A ERROR +0
++ASSIGN SOURCEID='S' TO(A). => ; character: ASSIGN  SOURCEID S TO(A) +0
++ASSIGN SOURCEID(S) TO(A).|WHAT => ; behind: ASSIGN  SOURCEID(S) TO(A) +0
";

/// The lines of a file, with a bar between two.
pub(crate) fn file_of(alloc: Global, lines: &str) -> Result<Vec<u8>, AllocError> {
    let mut bytes = Vec::new(alloc);
    for byte in lines.as_bytes() {
        bytes.push(if *byte == b'|' { b'\n' } else { *byte })?;
    }
    Ok(bytes)
}

// Each case is a file, by lines with a bar between two, and after an arrow what this part of it is spelled as.
fn check(alloc: Global, cases: &str, part: Part) -> Result<(), Fail> {
    for line in cases.lines() {
        let (lines, wanted) = line.split_once(" => ").ok_or("no arrow in a case")?;
        let bytes = file_of(alloc, lines)?;
        let found = spelled_file(alloc, bytes.as_slice(), part)?;
        let got = found.as_text();
        if got != wanted {
            return Err(Fail::new(format_args!("{lines}: got {got}, wanted {wanted}")));
        }
    }
    Ok(())
}

#[test]
fn statements_are_read_with_their_operands(rt: HostRuntime) -> Result<(), Fail> {
    for cases in [HEADERS, VERS, IFS, HOLDS, ASSIGNS, ELEMENTS, OTHERS] {
        check(rt.alloc(), cases, Part::Items)?;
    }
    Ok(())
}

#[test]
fn a_file_of_comments_has_no_items(rt: HostRuntime) -> Result<(), Fail> {
    assert_eq!(rt; items(rt.alloc(), b"")?.as_text(), "");
    let comments = b"\n\n/* NOTHING\nHERE */\n";
    assert_eq!(rt; items(rt.alloc(), comments)?.as_text(), "");
    Ok(())
}

#[test]
fn a_faulty_statement_is_told_in_its_sysmod(rt: HostRuntime) -> Result<(), Fail> {
    check(rt.alloc(), FAULTY, Part::Items)
}

#[test]
fn a_faulty_statement_outside_sysmods_refuses_the_file(rt: HostRuntime) -> Result<(), Fail> {
    check(rt.alloc(), REFUSED, Part::Items)
}

#[test]
fn a_faulty_statement_beside_sysmods_is_kept_beside_them(rt: HostRuntime) -> Result<(), Fail> {
    check(rt.alloc(), AT_FAULT_BESIDE, Part::Items)
}

/// Files, and their items with what is noted.
const NOTED: &str = "\
++ptf(ua00001) desc(First Fix).|++ver(z038)| fmid(haa1100).|++hold(A) comment(Text).|++MOD(a) RELFILE(1). => \
; PTF UA00001 -DESC(First Fix); VER SREL Z038 FMID(HAA1100); HOLD A COMMENT(Text); MOD A RELFILE(1) +0; lower 1 x 4
++PTF(A) DESC(First). => ; PTF A -DESC(First)
++PTF(A).|/*|++PTF(B).|++PTF(C).|*/|++PTF(D). => ; PTF A; PTF D; in the comment of 2: PTF B; in the comment of 2: PTF C
";

#[test]
fn lower_case_and_commented_statements_are_noted(rt: HostRuntime) -> Result<(), Fail> {
    check(rt.alloc(), NOTED, Part::ItemsAndNotes)
}

/// Cards with a text, a number, a number alone, a number with blanks, and a text after column 72.
const NUMBERED: [&[u8]; 5] = [
    b"++PTF(A) DESC(IS IN COLUMNS 1 TO 72)                                    UA000001",
    b".                                                                       00000002",
    b"                                                                        00000003",
    b"++MOD(M).                                                                    004",
    b" MODULE                                                                 MODMODMO",
];

#[test]
fn texts_after_column_72_are_noted(rt: HostRuntime) -> Result<(), Fail> {
    let mut records = Vec::new(rt.alloc());
    for card in NUMBERED {
        records.extend_from_slice(card)?;
    }
    let found = spelled_file(rt.alloc(), records.as_slice(), Part::ItemsAndNotes)?;
    let wanted = b"; PTF A -DESC(IS IN COLUMNS 1 TO 72); MOD M +1; behind 72 1 x 1";
    assert_eq!(rt; found.text.as_slice(), wanted.as_slice());
    Ok(())
}

// A hold whose COMMENT has so many parentheses in one another, and a second hold.
fn nested_parentheses(alloc: Global, depth: usize) -> Result<Vec<u8>, AllocError> {
    let mut text = Vec::new(alloc);
    text.extend_from_slice(b"++HOLD(A) USER COMMENT\n")?;
    for _ in 0..depth {
        text.extend_from_slice(b"(\n")?;
    }
    for _ in 0..depth {
        text.extend_from_slice(b")\n")?;
    }
    text.extend_from_slice(b".\n++HOLD(B) USER.")?;
    Ok(text)
}

#[test]
fn parentheses_may_be_deep(rt: HostRuntime) -> Result<(), Fail> {
    let text = nested_parentheses(rt.alloc(), 5_000)?;
    let read = read_whole(rt.alloc(), text.as_slice())?;
    assert_eq!(rt; read.holds.len(), 2);
    let comment = match read.holds.first() {
        Some(hold) => hold.comment.as_ref().map_or(0, |text| text.len()),
        None => 0,
    };
    // Each inner parenthesis, with one blank between two.
    assert_eq!(rt; comment, 2 * 9_998 - 1);
    Ok(())
}
