//! SYSMODs, holds and releases: what is carried of them, and what is told. More of it is in `tests/intake.d`.

use crate::narrow_lines::check;
use std::test::Fail;

/// Operands of the header, several SRELs, an `++IF` without THEN, a hold, texts without numbers.
const PLAIN_PTF: &[u8] =
    b"++PTF(UA00001) REWORK(2024001) DESC(A FIX).\n++VER(Z038,P115) FMID(HAA1100) VERSION(HAA1101)\n\
    \x20 PRE(UA00002,UA00003,UA00002) REQ(UA00004) SUP(AA00001).\n++IF FMID(HBB1100) REQ(UB00001).\n\
    ++IF FMID(HBB1101) THEN REQ(UB00002).\n\
    ++HOLD(UA00001) SYS FMID(HAA1100) REASON(DOC) DATE(24001) CLASS(HIPER)\n  COMMENT(READ (THE BOOK) FIRST).\n\
    ++MAC(MACA) DISTLIB(AMACLIB) SYSLIB(MACLIB) SSI(1234) ALIAS(MACB).\n         MACRO\n         MEND\n\
    ++DATA(DATAA) DISTLIB(ADATA) SYSLIB(DATA).\nANY TEXT\n";

const PLAIN_PTF_CARRIED: &str =
    "++PTF(UA00001).\n++VER(P115) FMID(HAA1100) PRE(UA00002 UA00003) REQ(UA00004) SUP(AA00001\n).\n\
    ++IF FMID(HBB1100) THEN REQ(UB00001).\n++IF FMID(HBB1101) THEN REQ(UB00002).\n\
    ++VER(Z038) FMID(HAA1100) PRE(UA00002 UA00003) REQ(UA00004) SUP(AA00001\n).\n\
    ++IF FMID(HBB1100) THEN REQ(UB00001).\n++IF FMID(HBB1101) THEN REQ(UB00002).\n\
    ++HOLD(UA00001) SYSTEM FMID(HAA1100) REASON(DOC) CLASS(HIPER) DATE(\n24001) COMMENT(\n\
    \x20READ [THE BOOK] FIRST).\n++MAC(MACA) DISTLIB(AMACLIB) SYSLIB(MACLIB).\n\
    \x20        MACRO                                                          00000100\n\
    \x20        MEND                                                           00000200\n\
    ++DATA(DATAA) DISTLIB(ADATA) SYSLIB(DATA).\nANY TEXT\n==\n\
    - f line 1: ++PTF(UA00001) REWORK: dropped: it changes no decision: 2024001\n\
    - f line 1: ++PTF(UA00001) DESC: dropped: it changes no decision: A FIX\n\
    - f line 2: ++VER(UA00001) VERSION: dropped: without it more fails and nothing less\n\
    - f line 2: ++VER(UA00001) PRE: carried otherwise: an id that stands there twice is named once\n\
    - f line 8: ++MAC(MACA) SSI: dropped: it changes no decision: 1234\n\
    - f line 8: ++MAC(MACA) ALIAS: dropped: it changes no decision: MACB\n\
    - f line 8: ++MAC(MACA): carried otherwise: the text got numbers\n\
    - f line 6: ++HOLD(UA00001) COMMENT: carried otherwise: inner parentheses became brackets: READ (THE BOOK) \
    FIRST\n";

#[test]
fn a_ptf_is_carried_with_its_operands(rt: HostRuntime) -> Result<(), Fail> {
    check(rt.alloc(), PLAIN_PTF, PLAIN_PTF_CARRIED)
}

/// Holds and releases of each kind, outside SYSMODs and in them.
const HOLDS: &[u8] = b"++HOLD(UA00001) ERR FMID(HAA1100) REASON(AA00001) RESOLVER(UA00002)\n\
    \x20 CLASS(HIPERACTIVE) DATE(2024001) COMMENT(TEXT).\n++RELEASE(UA00001) ERROR FMID(HAA1100) REASON(AA00001).\n\
    ++HOLD(UA00002) SYSTEM FMID(HAA1100) REASON(IPL).\n++HOLD(UA00003) USER FMID(HAA1100) REASON(LATER).\n\
    ++HOLD(UA00004) FIXCAT FMID(HAA1100) REASON(AA00001)\n  CATEGORY(IBM.FUNCTION) RESOLVER(UA00009).\n\
    ++RELEASE(UA00004) FIXCAT FMID(HAA1100) REASON(AA00001).\n++PTF(UA00005).\n++VER(Z038) FMID(HAA1100).\n\
    ++HOLD(UA00005) SYSTEM FMID(HAA1100) REASON(IPL).\n++HOLD(UA00005) ERROR FMID(HAA1100) REASON(AA00005).\n\
    ++HOLD(UA00006) SYSTEM FMID(HAA1100) REASON(DOC).\n\
    ++HOLD(UA00005) FIXCAT FMID(HAA1100) REASON(AA00005) CATEGORY(A).\n++PTF(UA0006).\n\
    ++VER(Z038) FMID(HAA1100).\n++HOLD(UA00006) SYSTEM FMID(HAA1100) REASON(ACTION).\n";

const HOLDS_CARRIED: &str =
    "++PTF(UA00005).\n++VER(Z038) FMID(HAA1100).\n++HOLD(UA00005) SYSTEM FMID(HAA1100) REASON(IPL).\n==\n\
    ++HOLD(UA00001) ERROR FMID(HAA1100) REASON(AA00001) COMMENT(\n TEXT).\n\
    ++RELEASE(UA00001) ERROR FMID(HAA1100) REASON(AA00001).\n++HOLD(UA00002) SYSTEM FMID(HAA1100) REASON(IPL).\n\
    ++HOLD(UA00003) USER FMID(HAA1100) REASON(LATER).\n++HOLD(UA00005) ERROR FMID(HAA1100) REASON(AA00005).\n\
    ++HOLD(UA00006) SYSTEM FMID(HAA1100) REASON(DOC).\n++HOLD(UA00006) SYSTEM FMID(HAA1100) REASON(ACTION).\n\
    - f line 12: ++HOLD(UA00005): carried otherwise: stands in the file of holds\n\
    - f line 13: ++HOLD(UA00006): carried otherwise: stands in the file of holds\n\
    - f line 14: ++HOLD(UA00005) FIXCAT: left out: a FIXCAT hold holds nothing unless it is asked for\n\
    ! f line 15: ++PTF(UA0006): left out: a bad id: UA0006\n\
    ! f line 15: ++PTF(UA0006): left out: a statement of it can't be carried\n\
    - f line 17: ++HOLD(UA00006): carried otherwise: stands in the file of holds\n\
    - f line 1: ++HOLD(UA00001) RESOLVER: dropped: it changes no decision: UA00002\n\
    - f line 1: ++HOLD(UA00001) CLASS: dropped: a bad value: HIPERACTIVE\n\
    - f line 1: ++HOLD(UA00001) DATE: dropped: a bad value: 2024001\n\
    - f line 6: ++HOLD(UA00004) FIXCAT: left out: a FIXCAT hold holds nothing unless it is asked for\n\
    - f line 8: ++RELEASE(UA00004) FIXCAT: left out: a FIXCAT hold holds nothing unless it is asked for\n";

#[test]
fn holds_and_releases_are_carried_or_told(rt: HostRuntime) -> Result<(), Fail> {
    check(rt.alloc(), HOLDS, HOLDS_CARRIED)
}
