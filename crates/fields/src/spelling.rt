//! How kinds, types and codes are spelled in files, tables and reports. Each has one word, which is both written and
//! read.
ghost use Rattle.std.specs.Prelude.{◌≡◌, ◌≢◌, ◌++◌, codes, IfSome, IfNone};
ghost use Rattle.terms.specs.declared.kinds.Kind.{Kind};
ghost use Rattle.terms.specs.declared.kinds.HoldKind.{HoldKind};
ghost use Rattle.terms.specs.declared.kinds.ElemType.{ElemType};
ghost use Rattle.terms.specs.declared.kinds.ZoneKind.{ZoneKind};
ghost use Rattle.terms.specs.declared.codes.CommandWord.{CommandWord};
ghost use Rattle.terms.specs.Spelling.{kind_text, hold_text, type_text, zone_kind_text, statement_code_text};
ghost use Rattle.terms.specs.Spelling.{command_code_text, word_text};
ghost use Rattle.terms.specs.Spelling.{test_text, need_text, refusal_text};
ghost use Rattle.terms.specs.Statements.{statement_text};

use terms::{
    CommandCode, CommandWord, ElemType, HoldKind, IdRefusal, Kind, NeedKind, StatementCode,
    StatementWord, Test, ZoneKind,
};

/// The word for a SYSMOD's type.
pub fn kind_text(kind: Kind) -> &'static [u8]
    ensures { result.now ≡ kind_text kind }
{
    match kind {
        Kind::Function => b"FUNCTION",
        Kind::Ptf => b"PTF",
        Kind::Apar => b"APAR",
        Kind::Usermod => b"USERMOD",
    }
}

/// The SYSMOD's type for this word.
pub fn read_kind(text: &[u8]) -> Option<Kind>
    ensures found { IfSome result (λ found. kind_text found ≡ text.now) }
    ensures none { IfNone result ((other : Kind) → kind_text other ≢ text.now) }
{
    match text {
        b"FUNCTION" => Some(Kind::Function),
        b"PTF" => Some(Kind::Ptf),
        b"APAR" => Some(Kind::Apar),
        b"USERMOD" => Some(Kind::Usermod),
        _ => None,
    }
}

/// The word for a hold's kind.
pub fn hold_text(hold: HoldKind) -> &'static [u8]
    ensures { result.now ≡ hold_text hold }
{
    match hold {
        HoldKind::Error => b"ERROR",
        HoldKind::System => b"SYSTEM",
        HoldKind::User => b"USER",
    }
}

/// The hold's kind for this word.
pub fn read_hold(text: &[u8]) -> Option<HoldKind>
    ensures found { IfSome result (λ found. hold_text found ≡ text.now) }
    ensures none { IfNone result ((other : HoldKind) → hold_text other ≢ text.now) }
{
    match text {
        b"ERROR" => Some(HoldKind::Error),
        b"SYSTEM" => Some(HoldKind::System),
        b"USER" => Some(HoldKind::User),
        _ => None,
    }
}

/// The word for an element's type.
pub fn type_text(elem_type: ElemType) -> &'static [u8]
    ensures { result.now ≡ type_text elem_type }
{
    match elem_type {
        ElemType::Mac => b"MAC",
        ElemType::Src => b"SRC",
        ElemType::Clist => b"CLIST",
        ElemType::Data => b"DATA",
        ElemType::Exec => b"EXEC",
        ElemType::Parm => b"PARM",
        ElemType::Proc => b"PROC",
    }
}

/// The element's type for this word.
pub fn read_type(text: &[u8]) -> Option<ElemType>
    ensures found { IfSome result (λ found. type_text found ≡ text.now) }
    ensures none { IfNone result ((other : ElemType) → type_text other ≢ text.now) }
{
    match text {
        b"MAC" => Some(ElemType::Mac),
        b"SRC" => Some(ElemType::Src),
        b"CLIST" => Some(ElemType::Clist),
        b"DATA" => Some(ElemType::Data),
        b"EXEC" => Some(ElemType::Exec),
        b"PARM" => Some(ElemType::Parm),
        b"PROC" => Some(ElemType::Proc),
        _ => None,
    }
}

/// The word for a zone's kind.
pub fn zone_kind_text(zone_kind: ZoneKind) -> &'static [u8]
    ensures { result.now ≡ zone_kind_text zone_kind }
{
    match zone_kind {
        ZoneKind::Target => b"target",
        ZoneKind::Distribution => b"distribution",
    }
}

/// The zone's kind for this word.
pub fn read_zone_kind(text: &[u8]) -> Option<ZoneKind>
    ensures found { IfSome result (λ found. zone_kind_text found ≡ text.now) }
    ensures none { IfNone result ((other : ZoneKind) → zone_kind_text other ≢ text.now) }
{
    // Not a `match`, because the prover gives up on one over a text as long as `distribution`.
    if text == b"target".as_slice() {
        Some(ZoneKind::Target)
    } else if text == b"distribution".as_slice() {
        Some(ZoneKind::Distribution)
    } else {
        None
    }
}

/// The word with which a statement begins, without its `++`.
pub fn statement_text(word: StatementWord) -> &'static [u8]
    ensures { codes "++" ++ result.now ≡ statement_text word }
{
    match word {
        StatementWord::Header(kind) => kind_text(kind),
        StatementWord::Ver => b"VER",
        StatementWord::If => b"IF",
        StatementWord::Hold => b"HOLD",
        StatementWord::Release => b"RELEASE",
        StatementWord::Assign => b"ASSIGN",
        StatementWord::Replace(elem_type) => type_text(elem_type),
        StatementWord::UpdateMac => b"MACUPD",
        StatementWord::UpdateSrc => b"SRCUPD",
    }
}

/// The code for a fault of a PTFIN or hold file.
pub fn statement_code_text(code: StatementCode) -> &'static [u8]
    ensures { result.now ≡ statement_code_text code }
{
    match code {
        StatementCode::BadStatementForm => b"Mc1",
        StatementCode::UnknownStatementWord => b"Mc2",
        StatementCode::BadStatementOperand => b"Mc3",
        StatementCode::WrongPlace => b"Mc4",
        StatementCode::BadText => b"Mc5",
        StatementCode::OverLimit => b"Mc6",
    }
}

/// The code for a fault of a command file.
pub fn command_code_text(code: CommandCode) -> &'static [u8]
    ensures { result.now ≡ command_code_text code }
{
    match code {
        CommandCode::UnknownCommand => b"Cn1",
        CommandCode::BadCommandOperand => b"Cn2",
        CommandCode::OperandTwice => b"Cn3",
        CommandCode::NoSingleList => b"Cn4",
        CommandCode::BadCommandForm => b"Cn5",
    }
}

/// The word with which a command begins.
pub fn word_text(word: CommandWord) -> &'static [u8]
    ensures { result.now ≡ word_text word }
{
    match word {
        CommandWord::Set => b"SET",
        CommandWord::Receive => b"RECEIVE",
        CommandWord::Reject => b"REJECT",
        CommandWord::Apply => b"APPLY",
        CommandWord::Accept => b"ACCEPT",
        CommandWord::Restore => b"RESTORE",
        CommandWord::List => b"LIST",
        CommandWord::Report => b"REPORT",
    }
}

/// The command that begins with this word.
pub fn read_word(text: &[u8]) -> Option<CommandWord>
    ensures found { IfSome result (λ found. word_text found ≡ text.now) }
    ensures none { IfNone result ((other : CommandWord) → word_text other ≢ text.now) }
{
    match text {
        b"SET" => Some(CommandWord::Set),
        b"RECEIVE" => Some(CommandWord::Receive),
        b"REJECT" => Some(CommandWord::Reject),
        b"APPLY" => Some(CommandWord::Apply),
        b"ACCEPT" => Some(CommandWord::Accept),
        b"RESTORE" => Some(CommandWord::Restore),
        b"LIST" => Some(CommandWord::List),
        b"REPORT" => Some(CommandWord::Report),
        _ => None,
    }
}

/// The code for a test.
pub fn test_text(test: Test) -> &'static [u8]
    ensures { result.now ≡ test_text test }
{
    match test {
        Test::HeldBySystem => b"J1",
        Test::HeldByUser => b"J2",
        Test::ForbiddenByNpre => b"J3",
        Test::OwnedByAnother => b"J4",
        Test::Regression => b"J5",
        Test::NothingToUpdate => b"J6",
        Test::NotInTarget => b"J7",
        Test::ChainDeleted => b"J8",
        Test::InClash => b"J9",
        Test::AlreadyAccepted => b"J10",
        Test::HasDelete => b"J11",
        Test::OtherLevel => b"J12",
        Test::SeveralFit => b"J13",
    }
}

/// The word for the kind of a need.
pub fn need_text(need: NeedKind) -> &'static [u8]
    ensures { result.now ≡ need_text need }
{
    match need {
        NeedKind::Fmid => b"FMID",
        NeedKind::Pre => b"PRE",
        NeedKind::Req => b"REQ",
        NeedKind::Ifreq => b"IFREQ",
        NeedKind::HoldError => b"HOLDERROR",
        NeedKind::Orphan => b"ORPHAN",
        NeedKind::Elem => b"ELEM",
        NeedKind::Dep => b"DEP",
    }
}

/// The code for the refusal of an id.
pub fn refusal_text(refusal: IdRefusal) -> &'static [u8]
    ensures { result.now ≡ refusal_text refusal }
{
    match refusal {
        IdRefusal::MakesLoop => b"Rc2",
        IdRefusal::WrongRole => b"Rc3",
        IdRefusal::NoRoom => b"Rc4",
        IdRefusal::NoHold => b"Rl1",
        IdRefusal::Internal => b"Rl2",
        IdRefusal::AppliedSomewhere => b"Rj1",
        IdRefusal::UnknownSysmod => b"Rj2",
    }
}

/// A text of this crate, to be printed: all of them are ASCII.
pub fn as_str(text: &[u8]) -> &str {
    str::from_utf8(text).unwrap_or("")
}
