//! The operands of SMP/E's commands and the members of BYPASS, with their abbreviations.
ghost use Rattle.std.specs.Prelude.{◌≡◌, map};
ghost use Rattle.intake_asked.specs.KnownWords.{known_operands, known_members};

use terms::CommandWord;

/// The operands of APPLY and ACCEPT.
const INSTALL_OPERANDS: &[&[u8]] = &[
    b"FUNCTIONS",
    b"FUNCTION",
    b"PTFS",
    b"PTF",
    b"APARS",
    b"APAR",
    b"USERMODS",
    b"USERMOD",
    b"SELECT",
    b"S",
    b"EXCLUDE",
    b"E",
    b"SOURCEID",
    b"FORFMID",
    b"GROUP",
    b"G",
    b"GROUPEXTEND",
    b"GEXT",
    b"BYPASS",
    b"CHECK",
    b"C",
    b"RETRY",
    b"COMPRESS",
    b"REUSE",
    b"ASSEM",
    b"NOJCLIN",
    b"JCLINREPORT",
    b"JCLR",
    b"NOJCLINREPORT",
    b"NOJCLR",
    b"NOPURGE",
    b"SIZE",
];

/// The operands of RECEIVE.
const RECEIVE_OPERANDS: &[&[u8]] = &[
    b"SYSMODS",
    b"SYSMOD",
    b"HOLDDATA",
    b"SOURCEID",
    b"BYPASS",
    b"LIST",
    b"RFPREFIX",
    b"DELETEPKG",
    b"COMPRESS",
    b"C",
    b"SIZE",
];

/// The operands of RESTORE.
const RESTORE_OPERANDS: &[&[u8]] = &[
    b"SELECT",
    b"S",
    b"GROUP",
    b"G",
    b"CHECK",
    b"C",
    b"COMPRESS",
    b"RETRY",
    b"REUSE",
    b"SIZE",
];

/// The members of APPLY's BYPASS.
const APPLY_MEMBERS: &[&[u8]] = &[
    b"PRE",
    b"REQ",
    b"IFREQ",
    b"ID",
    b"HOLDERROR",
    b"HOLDERR",
    b"HOLDSYSTEM",
    b"HOLDSYS",
    b"HOLDUSER",
    b"HOLDCLASS",
    b"HOLDFIXCAT",
];

/// The members of ACCEPT's BYPASS.
const ACCEPT_MEMBERS: &[&[u8]] = &[
    b"APPLYCHECK",
    b"PRE",
    b"REQ",
    b"IFREQ",
    b"ID",
    b"HOLDERROR",
    b"HOLDERR",
    b"HOLDSYSTEM",
    b"HOLDSYS",
    b"HOLDUSER",
    b"HOLDCLASS",
    b"HOLDFIXCAT",
];

/// The operands that a shop's command of this word may have, also those that change no decision.
pub(crate) fn known_operands(word: CommandWord) -> &'static [&'static [u8]]
    ensures { map (λ name. name.now) result.now ≡ known_operands word }
{
    match word {
        CommandWord::Set => &[b"BDY", b"BOUNDARY", b"OPTIONS"],
        CommandWord::Receive => RECEIVE_OPERANDS,
        CommandWord::Reject => &[b"SELECT", b"S", b"COMPRESS", b"C", b"RETRY", b"SIZE"],
        CommandWord::Apply | CommandWord::Accept => INSTALL_OPERANDS,
        CommandWord::Restore => RESTORE_OPERANDS,
        CommandWord::List => &[b"TEXT"],
        CommandWord::Report => &[b"ERRSYSMODS", b"NOPUNCH"],
    }
}

/// The members that the BYPASS of a shop's command of this word may have.
pub(crate) fn known_members(word: CommandWord) -> &'static [&'static [u8]]
    ensures { map (λ name. name.now) result.now ≡ known_members word }
{
    match word {
        CommandWord::Receive => &[b"FMID", b"APPLYCHECK", b"ACCEPTCHECK"],
        CommandWord::Apply => APPLY_MEMBERS,
        CommandWord::Accept => ACCEPT_MEMBERS,
        CommandWord::Set
        | CommandWord::Reject
        | CommandWord::Restore
        | CommandWord::List
        | CommandWord::Report => &[],
    }
}
