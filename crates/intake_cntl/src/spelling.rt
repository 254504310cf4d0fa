//! The words of SMP/E's commands that are carried or dropped. Every other word is named.

use fields::{Class, Id, Reason, Source, ZoneName};

/// What follows the word of an operand, and whether the operand is dropped.
#[derive(Clone, Copy, Debug, PartialEq, Eq)]
pub(crate) enum OperandForm {
    /// It stands alone.
    Flag,
    /// SMP/E's GROUPEXTEND, alone or with NOAPARS and NOUSERMODS.
    GroupExtend,
    /// A list of ids.
    Ids,
    /// A list of source ids.
    Sources,
    /// One source id.
    Source,
    /// The name of a zone.
    Zone,
    /// SMP/E's GROUP, which stands alone beside SELECT, or this program's, which has ids.
    Group,
    /// A list of the checks that are bypassed.
    Bypass,
    /// RECEIVE's list of the checks that are bypassed. All its members are dropped.
    ReceiveBypass,
    /// A list of reasons of holds, or nothing for all of them.
    Reasons,
    /// A list of classes of holds.
    Classes,
    /// It changes no decision.
    Dropped,
}

impl OperandForm {
    /// Whether a list of this form may have such a member.
    pub(crate) fn takes_member(self, member: &[u8]) -> bool {
        match self {
            OperandForm::Ids | OperandForm::Group => Id::read(member).is_some(),
            OperandForm::Sources | OperandForm::Source => Source::read(member).is_some(),
            OperandForm::Zone => ZoneName::read(member).is_some(),
            OperandForm::Reasons => Reason::read(member).is_some(),
            OperandForm::Classes => Class::read(member).is_some(),
            OperandForm::Flag
            | OperandForm::GroupExtend
            | OperandForm::Bypass
            | OperandForm::ReceiveBypass
            | OperandForm::Dropped => false,
        }
    }
}

/// A row of a table of words: a word, the word of the profile for it, and its form.
pub(crate) type SpellingRow = (&'static [u8], &'static [u8], OperandForm);

/// A word of SMP/E.
#[derive(Clone, Copy, Debug)]
pub(crate) struct Spelling {
    pub(crate) word: &'static [u8],
    /// The word of the profile for it.
    pub(crate) full: &'static [u8],
    pub(crate) form: OperandForm,
}

/// The words that a command may have: its own, those of its operands, and those of the members of its BYPASS.
#[derive(Clone, Copy, Debug)]
pub(crate) struct CommandVocabulary {
    pub(crate) word: &'static [u8],
    pub(crate) operands: &'static [SpellingRow],
    pub(crate) members: &'static [SpellingRow],
}

/// The operands of SET.
const SET: &[SpellingRow] = &[
    (b"BDY", b"BDY", OperandForm::Zone),
    (b"BOUNDARY", b"BDY", OperandForm::Zone),
    (b"OPTIONS", b"OPTIONS", OperandForm::Dropped),
];

/// The operands of RECEIVE.
const RECEIVE: &[SpellingRow] = &[
    (b"SYSMODS", b"SYSMODS", OperandForm::Flag),
    (b"SYSMOD", b"SYSMODS", OperandForm::Flag),
    (b"HOLDDATA", b"HOLDDATA", OperandForm::Flag),
    (b"SOURCEID", b"SOURCEID", OperandForm::Source),
    (b"BYPASS", b"BYPASS", OperandForm::ReceiveBypass),
    (b"LIST", b"LIST", OperandForm::Dropped),
    (b"RFPREFIX", b"RFPREFIX", OperandForm::Dropped),
    (b"DELETEPKG", b"DELETEPKG", OperandForm::Dropped),
    (b"COMPRESS", b"COMPRESS", OperandForm::Dropped),
    (b"SIZE", b"SIZE", OperandForm::Dropped),
];

/// The operands of REJECT.
const REJECT: &[SpellingRow] = &[
    (b"SELECT", b"SELECT", OperandForm::Ids),
    (b"S", b"SELECT", OperandForm::Ids),
    (b"COMPRESS", b"COMPRESS", OperandForm::Dropped),
    (b"RETRY", b"RETRY", OperandForm::Dropped),
    (b"SIZE", b"SIZE", OperandForm::Dropped),
];

/// The operands of APPLY and ACCEPT.
const INSTALL: &[SpellingRow] = &[
    (b"FUNCTIONS", b"FUNCTIONS", OperandForm::Flag),
    (b"FUNCTION", b"FUNCTIONS", OperandForm::Flag),
    (b"PTFS", b"PTFS", OperandForm::Flag),
    (b"PTF", b"PTFS", OperandForm::Flag),
    (b"APARS", b"APARS", OperandForm::Flag),
    (b"APAR", b"APARS", OperandForm::Flag),
    (b"USERMODS", b"USERMODS", OperandForm::Flag),
    (b"USERMOD", b"USERMODS", OperandForm::Flag),
    (b"SELECT", b"SELECT", OperandForm::Ids),
    (b"S", b"SELECT", OperandForm::Ids),
    (b"EXCLUDE", b"EXCLUDE", OperandForm::Ids),
    (b"E", b"EXCLUDE", OperandForm::Ids),
    (b"SOURCEID", b"SOURCEID", OperandForm::Sources),
    (b"FORFMID", b"FORFMID", OperandForm::Ids),
    (b"GROUP", b"GROUP", OperandForm::Group),
    (b"G", b"GROUP", OperandForm::Group),
    (b"GROUPEXTEND", b"GROUPEXTEND", OperandForm::GroupExtend),
    (b"GEXT", b"GROUPEXTEND", OperandForm::GroupExtend),
    (b"BYPASS", b"BYPASS", OperandForm::Bypass),
    (b"CHECK", b"CHECK", OperandForm::Flag),
    (b"C", b"CHECK", OperandForm::Flag),
    (b"RETRY", b"RETRY", OperandForm::Dropped),
    (b"COMPRESS", b"COMPRESS", OperandForm::Dropped),
    (b"REUSE", b"REUSE", OperandForm::Dropped),
    (b"ASSEM", b"ASSEM", OperandForm::Dropped),
    (b"NOJCLIN", b"NOJCLIN", OperandForm::Dropped),
    (b"JCLINREPORT", b"JCLINREPORT", OperandForm::Dropped),
    (b"JCLR", b"JCLR", OperandForm::Dropped),
    (b"NOJCLINREPORT", b"NOJCLINREPORT", OperandForm::Dropped),
    (b"NOJCLR", b"NOJCLR", OperandForm::Dropped),
    (b"NOPURGE", b"NOPURGE", OperandForm::Dropped),
    (b"SIZE", b"SIZE", OperandForm::Dropped),
];

/// The operands of RESTORE.
const RESTORE: &[SpellingRow] = &[
    (b"SELECT", b"SELECT", OperandForm::Ids),
    (b"S", b"SELECT", OperandForm::Ids),
    (b"GROUP", b"GROUP", OperandForm::Group),
    (b"G", b"GROUP", OperandForm::Group),
    (b"CHECK", b"CHECK", OperandForm::Flag),
    (b"C", b"CHECK", OperandForm::Flag),
    (b"COMPRESS", b"COMPRESS", OperandForm::Dropped),
    (b"RETRY", b"RETRY", OperandForm::Dropped),
    (b"REUSE", b"REUSE", OperandForm::Dropped),
    (b"SIZE", b"SIZE", OperandForm::Dropped),
];

/// The operands of LIST.
const LIST: &[SpellingRow] = &[(b"TEXT", b"TEXT", OperandForm::Flag)];

/// The operands of REPORT.
const REPORT: &[SpellingRow] = &[
    (b"ERRSYSMODS", b"ERRSYSMODS", OperandForm::Flag),
    (b"NOPUNCH", b"NOPUNCH", OperandForm::Dropped),
];

/// The members of RECEIVE's BYPASS. They change nothing, because RECEIVE here checks neither functions nor zones.
const RECEIVE_MEMBERS: &[SpellingRow] = &[
    (b"FMID", b"FMID", OperandForm::Dropped),
    (b"APPLYCHECK", b"APPLYCHECK", OperandForm::Dropped),
    (b"ACCEPTCHECK", b"ACCEPTCHECK", OperandForm::Dropped),
];

/// The members of APPLY's BYPASS.
const APPLY_MEMBERS: &[SpellingRow] = &[
    (b"PRE", b"PRE", OperandForm::Flag),
    (b"REQ", b"REQ", OperandForm::Flag),
    (b"IFREQ", b"IFREQ", OperandForm::Flag),
    (b"ID", b"ID", OperandForm::Flag),
    (b"HOLDERROR", b"HOLDERROR", OperandForm::Reasons),
    (b"HOLDERR", b"HOLDERROR", OperandForm::Reasons),
    (b"HOLDSYSTEM", b"HOLDSYSTEM", OperandForm::Reasons),
    (b"HOLDSYS", b"HOLDSYSTEM", OperandForm::Reasons),
    (b"HOLDUSER", b"HOLDUSER", OperandForm::Reasons),
    (b"HOLDCLASS", b"HOLDCLASS", OperandForm::Classes),
    (b"HOLDFIXCAT", b"HOLDFIXCAT", OperandForm::Dropped),
];

/// The members of ACCEPT's BYPASS.
const ACCEPT_MEMBERS: &[SpellingRow] = &[
    (b"APPLYCHECK", b"APPLYCHECK", OperandForm::Flag),
    (b"PRE", b"PRE", OperandForm::Flag),
    (b"REQ", b"REQ", OperandForm::Flag),
    (b"IFREQ", b"IFREQ", OperandForm::Flag),
    (b"ID", b"ID", OperandForm::Flag),
    (b"HOLDERROR", b"HOLDERROR", OperandForm::Reasons),
    (b"HOLDERR", b"HOLDERROR", OperandForm::Reasons),
    (b"HOLDSYSTEM", b"HOLDSYSTEM", OperandForm::Reasons),
    (b"HOLDSYS", b"HOLDSYSTEM", OperandForm::Reasons),
    (b"HOLDUSER", b"HOLDUSER", OperandForm::Reasons),
    (b"HOLDCLASS", b"HOLDCLASS", OperandForm::Classes),
    (b"HOLDFIXCAT", b"HOLDFIXCAT", OperandForm::Dropped),
];

/// The commands that are carried.
const COMMANDS: &[CommandVocabulary] = &[
    CommandVocabulary {
        word: b"SET",
        operands: SET,
        members: &[],
    },
    CommandVocabulary {
        word: b"RECEIVE",
        operands: RECEIVE,
        members: RECEIVE_MEMBERS,
    },
    CommandVocabulary {
        word: b"REJECT",
        operands: REJECT,
        members: &[],
    },
    CommandVocabulary {
        word: b"APPLY",
        operands: INSTALL,
        members: APPLY_MEMBERS,
    },
    CommandVocabulary {
        word: b"ACCEPT",
        operands: INSTALL,
        members: ACCEPT_MEMBERS,
    },
    CommandVocabulary {
        word: b"RESTORE",
        operands: RESTORE,
        members: &[],
    },
    CommandVocabulary {
        word: b"LIST",
        operands: LIST,
        members: &[],
    },
    CommandVocabulary {
        word: b"REPORT",
        operands: REPORT,
        members: &[],
    },
];

/// The words that the command may have, or `None` if no such command is carried.
pub(crate) fn vocabulary_of(command: &[u8]) -> Option<CommandVocabulary> {
    COMMANDS
        .iter()
        .find(|vocabulary| vocabulary.word == command)
        .copied()
}

/// How the word is spelled, or `None` if the table lacks it.
pub(crate) fn spelling_of(table: &[SpellingRow], word: &[u8]) -> Option<Spelling> {
    let (word, full, form) = *table.iter().find(|(listed, _, _)| *listed == word)?;
    Some(Spelling { word, full, form })
}
