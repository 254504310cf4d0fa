//! The names of the operands of each command, and of the members of its BYPASS.
ghost use Rattle.std.specs.Prelude.{◌≡◌, map};
ghost use Rattle.terms.specs.CommandForms.{operands_of, members_of};

use terms::CommandWord;

/// The operands of APPLY and ACCEPT.
const INSTALL_OPERANDS: &[&[u8]] = &[
    b"FUNCTIONS",
    b"PTFS",
    b"APARS",
    b"USERMODS",
    b"SELECT",
    b"EXCLUDE",
    b"SOURCEID",
    b"FORFMID",
    b"GROUP",
    b"GROUPEXTEND",
    b"BYPASS",
    b"CHECK",
];

/// The members of APPLY's BYPASS.
const APPLY_MEMBERS: &[&[u8]] = &[
    b"PRE",
    b"REQ",
    b"IFREQ",
    b"ID",
    b"HOLDERROR",
    b"HOLDSYSTEM",
    b"HOLDUSER",
    b"HOLDCLASS",
];

/// The members of ACCEPT's BYPASS.
const ACCEPT_MEMBERS: &[&[u8]] = &[
    b"APPLYCHECK",
    b"PRE",
    b"REQ",
    b"IFREQ",
    b"ID",
    b"HOLDERROR",
    b"HOLDSYSTEM",
    b"HOLDUSER",
    b"HOLDCLASS",
];

/// The operands that a command may have.
pub fn operands_of(word: CommandWord) -> &'static [&'static [u8]]
    ensures { map (λ name. name.now) result.now ≡ operands_of word }
{
    match word {
        CommandWord::Set => &[b"BDY"],
        CommandWord::Receive => &[b"SYSMODS", b"HOLDDATA", b"SOURCEID"],
        CommandWord::Reject => &[b"SELECT"],
        CommandWord::Apply | CommandWord::Accept => INSTALL_OPERANDS,
        CommandWord::Restore => &[b"SELECT", b"GROUP", b"CHECK"],
        CommandWord::List => &[b"TEXT"],
        CommandWord::Report => &[b"ERRSYSMODS"],
    }
}

/// The members that the BYPASS of a command may have.
pub fn members_of(word: CommandWord) -> &'static [&'static [u8]]
    ensures { map (λ name. name.now) result.now ≡ members_of word }
{
    match word {
        CommandWord::Apply => APPLY_MEMBERS,
        CommandWord::Accept => ACCEPT_MEMBERS,
        CommandWord::Set
        | CommandWord::Receive
        | CommandWord::Reject
        | CommandWord::Restore
        | CommandWord::List
        | CommandWord::Report => &[],
    }
}
