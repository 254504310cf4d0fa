//! The words of commands and statements: those that exist here, those that only SMP/E has, and which are alike.

/// The commands.
const COMMANDS: &[&str] = &[
    "SET", "RECEIVE", "REJECT", "APPLY", "ACCEPT", "RESTORE", "LIST", "REPORT",
];

/// The statements.
const STATEMENTS: &[&str] = &[
    "++FUNCTION",
    "++PTF",
    "++APAR",
    "++USERMOD",
    "++VER",
    "++IF",
    "++HOLD",
    "++RELEASE",
    "++ASSIGN",
    "++MAC",
    "++SRC",
    "++CLIST",
    "++DATA",
    "++EXEC",
    "++PARM",
    "++PROC",
    "++MACUPD",
    "++SRCUPD",
];

/// The operands of APPLY and ACCEPT.
const INSTALL_OPERANDS: &[&str] = &[
    "FUNCTIONS",
    "PTFS",
    "APARS",
    "USERMODS",
    "SELECT",
    "EXCLUDE",
    "SOURCEID",
    "FORFMID",
    "GROUP",
    "GROUPEXTEND",
    "BYPASS",
    "CHECK",
];

/// The members of BYPASS.
pub(crate) const BYPASS_MEMBERS: &[&str] = &[
    "ID",
    "PRE",
    "REQ",
    "IFREQ",
    "APPLYCHECK",
    "HOLDSYSTEM",
    "HOLDUSER",
    "HOLDERROR",
    "HOLDCLASS",
];

/// Whether the word begins a command.
pub fn is_command(word: &str) -> bool {
    is_among(COMMANDS, word)
}

/// Whether the word begins a statement.
pub(crate) fn is_statement(word: &str) -> bool {
    is_among(STATEMENTS, word)
}

/// Whether the word begins a SYSMOD of service.
pub(crate) fn is_service(word: &str) -> bool {
    matches!(word, "++PTF" | "++APAR" | "++USERMOD")
}

/// Whether the word begins a SYSMOD.
pub(crate) fn is_header(word: &str) -> bool {
    word == "++FUNCTION" || is_service(word)
}

/// Whether the word begins an update of an element.
pub(crate) fn is_update(word: &str) -> bool {
    matches!(word, "++MACUPD" | "++SRCUPD")
}

/// Whether the word begins the statement of an element.
pub(crate) fn is_element(word: &str) -> bool {
    is_update(word)
        || matches!(
            word,
            "++MAC" | "++SRC" | "++CLIST" | "++DATA" | "++EXEC" | "++PARM" | "++PROC"
        )
}

/// Whether the word names a member of BYPASS.
pub(crate) fn is_bypass_member(word: &str) -> bool {
    is_among(BYPASS_MEMBERS, word)
}

/// The operands of the command or the statement; `None` if there is no such word.
pub(crate) fn operands_of(word: &str) -> Option<&'static [&'static str]> {
    let operands: &[&str] = match word {
        "SET" => &["BDY"],
        "RECEIVE" => &["SYSMODS", "HOLDDATA", "SOURCEID"],
        "REJECT" => &["SELECT"],
        "APPLY" | "ACCEPT" => INSTALL_OPERANDS,
        "RESTORE" => &["SELECT", "GROUP", "CHECK"],
        "LIST" => &["TEXT"],
        "REPORT" => &["ERRSYSMODS"],
        "++VER" => &["FMID", "PRE", "REQ", "SUP", "NPRE", "DELETE"],
        "++IF" => &["FMID", "THEN", "REQ"],
        "++HOLD" => &[
            "ERROR", "SYSTEM", "USER", "FMID", "REASON", "CLASS", "DATE", "COMMENT",
        ],
        "++RELEASE" => &["ERROR", "SYSTEM", "USER", "FMID", "REASON"],
        "++ASSIGN" => &["SOURCEID", "TO"],
        _ if is_header(word) || is_update(word) => &[],
        _ if is_element(word) => &["DISTLIB", "SYSLIB"],
        _ => return None,
    };
    Some(operands)
}

/// The operands without which the statement is at fault, apart from the value of its own word.
pub(crate) fn required_operands(statement: &str) -> &'static [&'static str] {
    match statement {
        "++IF" => &["FMID", "THEN", "REQ"],
        "++HOLD" | "++RELEASE" => &["FMID", "REASON"],
        "++ASSIGN" => &["SOURCEID", "TO"],
        _ if is_element(statement) && !is_update(statement) => &["DISTLIB", "SYSLIB"],
        _ => &[],
    }
}

/// Whether the operand has no list.
pub(crate) fn is_flag(operand: &str) -> bool {
    matches!(
        operand,
        "SYSMODS"
            | "HOLDDATA"
            | "FUNCTIONS"
            | "PTFS"
            | "APARS"
            | "USERMODS"
            | "GROUPEXTEND"
            | "CHECK"
            | "TEXT"
            | "ERRSYSMODS"
            | "ERROR"
            | "SYSTEM"
            | "USER"
            | "THEN"
    )
}

/// The operand or the member of BYPASS that SMP/E writes so; `None` if it has no counterpart.
pub(crate) fn counterpart(word: &str) -> Option<&'static str> {
    Some(match word {
        "BOUNDARY" => "BDY",
        "S" | "SEL" => "SELECT",
        "E" | "EXC" => "EXCLUDE",
        "G" => "GROUP",
        "GROUPEXT" | "GEXT" => "GROUPEXTEND",
        "FUNCTION" | "FUNC" => "FUNCTIONS",
        "PTF" => "PTFS",
        "APAR" => "APARS",
        "USERMOD" => "USERMODS",
        "SYSMOD" => "SYSMODS",
        "SRCID" => "SOURCEID",
        "FMID" => "FORFMID",
        "HOLDSYS" => "HOLDSYSTEM",
        "HOLDERR" => "HOLDERROR",
        "HOLDUSR" => "HOLDUSER",
        _ => return None,
    })
}

/// Whether the word is an operand of SMP/E's commands that has no counterpart here.
pub(crate) fn is_foreign_operand(word: &str) -> bool {
    matches!(
        word,
        "OPTIONS"
            | "RETRY"
            | "COMPRESS"
            | "C"
            | "RC"
            | "REDO"
            | "REUSE"
            | "ASSEM"
            | "NOJCLIN"
            | "NOJCLINREPORT"
            | "JCLINREPORT"
            | "EXSRCID"
            | "LIST"
            | "FROMNETWORK"
            | "FROMNTS"
            | "FROMDISK"
            | "ZONES"
            | "ACTIVE"
            | "PURGE"
            | "NOFMID"
            | "FIXCAT"
            | "MISSINGFIX"
            | "CROSSZONE"
            | "HOLDFIXCAT"
            | "XZIFREQ"
            | "XZGROUP"
            | "NOPURGE"
    )
}

/// Whether the word is an operand of SMP/E's statements that has no counterpart here.
pub(crate) fn is_foreign_statement_operand(word: &str) -> bool {
    matches!(
        word,
        "REWORK"
            | "DESC"
            | "FESN"
            | "FILES"
            | "RFDSNPFX"
            | "RESOLVER"
            | "CATEGORY"
            | "FIXCAT"
            | "VERSION"
            | "PREFIX"
            | "SSI"
            | "ALIAS"
            | "MALIAS"
            | "TALIAS"
            | "DALIAS"
            | "RELFILE"
            | "TXLIB"
            | "LKLIB"
            | "FROMDS"
            | "LMOD"
            | "RMID"
            | "UMID"
            | "ASSEM"
            | "DISTMOD"
            | "DISTSRC"
            | "CSECT"
            | "LEPARM"
            | "RECFM"
            | "LRECL"
    )
}

/// Whether the word begins a statement that only SMP/E has.
pub(crate) fn is_foreign_statement(word: &str) -> bool {
    matches!(
        word,
        "++MOD"
            | "++ZAP"
            | "++JCLIN"
            | "++PROGRAM"
            | "++JAR"
            | "++JARUPD"
            | "++HFS"
            | "++MOVE"
            | "++RENAME"
            | "++DELETE"
            | "++FEATURE"
            | "++PRODUCT"
            | "++NULL"
            | "++HELP"
            | "++MSG"
            | "++PNL"
            | "++SAMP"
            | "++SKL"
            | "++TBL"
    )
}

/// Whether the word begins a command that only SMP/E has.
pub(crate) fn is_foreign_command(word: &str) -> bool {
    matches!(
        word,
        "UCLIN"
            | "ENDUCL"
            | "JCLIN"
            | "LINK"
            | "RESETRC"
            | "BUILDMCS"
            | "CLEANUP"
            | "CONVERT"
            | "DEBUG"
            | "GENERATE"
            | "GZONEMERGE"
            | "LOG"
            | "UNLOAD"
            | "UPGRADE"
            | "ZONECOPY"
            | "ZONEDELETE"
            | "ZONEEDIT"
            | "ZONEEXPORT"
            | "ZONEIMPORT"
            | "ZONEMERGE"
            | "ZONERENAME"
    )
}

/// The command that the word may be a misspelling of; `None` if it is none.
pub(crate) fn meant_command(word: &str) -> Option<&'static str> {
    alike_among(COMMANDS, word)
}

/// The statement that the word may be a misspelling of; `None` if it is none.
pub(crate) fn meant_statement(word: &str) -> Option<&'static str> {
    alike_among(STATEMENTS, word)
}

/// The operand of the command or the statement that the word may be a misspelling of; `None` if it is none.
pub(crate) fn meant_operand(name: &str, word: &str) -> Option<&'static str> {
    alike_among(operands_of(name)?, word)
}

/// The member of BYPASS that the word may be a misspelling of; `None` if it is none.
pub(crate) fn meant_member(word: &str) -> Option<&'static str> {
    alike_among(BYPASS_MEMBERS, word)
}

// Whether the word is one of these.
fn is_among(words: &[&str], word: &str) -> bool {
    words.iter().any(|own| *own == word)
}

// The first of these words that is like the word.
fn alike_among(words: &'static [&'static str], word: &str) -> Option<&'static str> {
    for own in words {
        if are_alike(own.as_bytes(), word.as_bytes()) {
            return Some(own);
        }
    }
    None
}

/// Whether two texts are the same but for capitals, one character or two that are exchanged.
pub(crate) fn are_alike(one: &[u8], other: &[u8]) -> bool {
    let start = common_start(one, other);
    let shorter = one.len().min(other.len());
    let end = common_end(one, other).min(shorter.saturating_sub(start));
    let one_middle = one.get(start..one.len().saturating_sub(end)).unwrap_or(b"");
    let other_middle = other
        .get(start..other.len().saturating_sub(end))
        .unwrap_or(b"");
    match (one_middle.len(), other_middle.len()) {
        (0, 0) | (0, 1) | (1, 0) | (1, 1) => shorter > 1,
        (2, 2) => one_middle.first() == other_middle.last()
            && one_middle.last() == other_middle.first(),
        _ => false,
    }
}

// How many bytes the texts have in common at their beginning.
fn common_start(one: &[u8], other: &[u8]) -> usize {
    let mut count = 0usize;
    for (byte, own) in one.iter().zip(other.iter()) {
        if !byte.eq_ignore_ascii_case(own) {
            break;
        }
        count = count.saturating_add(1);
    }
    count
}

// How many bytes the texts have in common at their end.
fn common_end(one: &[u8], other: &[u8]) -> usize {
    let mut count = 0usize;
    for (byte, own) in one.iter().rev().zip(other.iter().rev()) {
        if !byte.eq_ignore_ascii_case(own) {
            break;
        }
        count = count.saturating_add(1);
    }
    count
}
