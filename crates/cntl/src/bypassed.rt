//! The operand BYPASS and its members.
ghost use Rattle.std.specs.Prelude.{ℕ, Bool, List, codes, IfOk, IfErr, OnErr};
ghost use Rattle.terms.specs.Types as terms;
ghost use Rattle.terms.specs.Forms.{IsClass, IsReason};
ghost use Rattle.terms.specs.Words as grammar;
ghost use Rattle.terms.specs.Words.{HasMembers, IsShort};
ghost use Rattle.terms.specs.Operands.{operand, HasFlag, HasSorted};
ghost use Rattle.terms.specs.CommandForms.{members_of, HasShort, HasReasons, HasBypassed, HasBypass};
ghost use Rattle.rec80.specs.Cursors.{text_of};
ghost use Rattle.rec80.specs.Views.{word_of, words_of};
ghost use Rattle.rec80.specs.Failing.{Excludes};
ghost use Rattle.fields.specs.Choices.{reasons_in};
ghost use Rattle.cntl.specs.Singles.{AreSingle};

use crate::operand_values::short_list;
use crate::tables::members_of;
use fields::{Bypass, Class, ClassList, Reason, ReasonList, Reasons};
use rec80::{BadOperand, OperandError, Text, Word, are_members, flag, named_member, operand};
use std::alloc::Global;
use terms::{CommandWord, HoldKind};

// Whether there is a member of that name. The error is that it has a list.
fn member_flag(list: &Text<'_>, name: &[u8]) -> Result<bool, BadOperand>
    ensures ok { (ms : List grammar.Word) → HasMembers (text_of list.now) ms
        → IfOk result (λ flag. HasFlag (operand name.now ms) flag) }
    ensures bad { (ms : List grammar.Word) → HasMembers (text_of list.now) ms → OnErr result ((flag : Bool)
        → HasFlag (operand name.now ms) flag → ⊥) }
{
    flag(&named_member(list, name))
}

// The reasons in the list of a member, all of which have to suit holds of this kind.
fn read_reason_list(
    alloc: Global,
    kind: HoldKind,
    member: &Word<'_>,
) -> Result<ReasonList, OperandError>
    ensures ok { IfOk result (λ list. HasSorted (IsReason kind) (word_of member.now) list × IsShort list) }
    ensures bad { IfErr result (λ e. Excludes e ((values : List (List ℕ))
        × (HasSorted (IsReason kind) (word_of member.now) values × IsShort values))) }
{
    let reasons = short_list::<Reason>(alloc, member)?;
    if !reasons.iter().all(|reason| reason.suits(kind)) {
        return Err(OperandError::Bad);
    }
    Ok(reasons)
}

// The reasons of the member of that name, or all of them if it has no list.
fn read_reasons(
    alloc: Global,
    kind: HoldKind,
    list: &Text<'_>,
    name: &[u8],
) -> Result<Reasons, OperandError>
    ensures ok { (ms : List grammar.Word) → HasMembers (text_of list.now) ms
        → IfOk result (λ r. HasReasons kind (operand name.now ms) (reasons_in r)) }
    ensures bad { (ms : List grammar.Word) → HasMembers (text_of list.now) ms
        → IfErr result (λ e. Excludes e ((r : terms.Reasons) × HasReasons kind (operand name.now ms) r)) }
{
    let Some(member) = named_member(list, name) else {
        return Ok(Reasons::None);
    };
    if member.list.is_none() {
        return Ok(Reasons::Any);
    }
    Ok(Reasons::These(read_reason_list(alloc, kind, &member)?))
}

// The classes of HOLDCLASS, or none if it is absent.
fn read_classes(alloc: Global, list: &Text<'_>) -> Result<ClassList, OperandError>
    ensures ok { (ms : List grammar.Word) → HasMembers (text_of list.now) ms
        → IfOk result (λ classes. HasShort IsClass (operand (codes "HOLDCLASS") ms) classes) }
    ensures bad { (ms : List grammar.Word) → HasMembers (text_of list.now) ms → IfErr result (λ e. Excludes e
        ((classes : List (List ℕ)) × HasShort IsClass (operand (codes "HOLDCLASS") ms) classes)) }
{
    match named_member(list, b"HOLDCLASS") {
        Some(member) => short_list::<Class>(alloc, &member),
        None => Ok(ClassList::new(alloc)),
    }
}

// What the members of the list of BYPASS say.
fn read_members(alloc: Global, list: &Text<'_>) -> Result<Bypass, OperandError>
    ensures ok { (ms : List grammar.Word) → HasMembers (text_of list.now) ms → IfOk result (λ b. HasBypassed ms b) }
    ensures bad { (ms : List grammar.Word) → HasMembers (text_of list.now) ms
        → IfErr result (λ e. Excludes e ((b : terms.Bypass) × HasBypassed ms b)) }
{
    Ok(Bypass {
        pre: member_flag(list, b"PRE")?,
        req: member_flag(list, b"REQ")?,
        ifreq: member_flag(list, b"IFREQ")?,
        same_id: member_flag(list, b"ID")?,
        applycheck: member_flag(list, b"APPLYCHECK")?,
        holderror: read_reasons(alloc, HoldKind::Error, list, b"HOLDERROR")?,
        holdsystem: read_reasons(alloc, HoldKind::System, list, b"HOLDSYSTEM")?,
        holduser: read_reasons(alloc, HoldKind::User, list, b"HOLDUSER")?,
        holdclass: read_classes(alloc, list)?,
    })
}

/// The value of BYPASS. The caller has made sure that no member occurs twice. Without BYPASS nothing is bypassed.
/// Returns `Memory` if memory runs out, and `Bad` if BYPASS has no list, a member that the command's BYPASS may not
/// have, or a member of another form.
pub fn read_bypass(
    alloc: Global,
    word: CommandWord,
    words: &[Word<'_>],
) -> Result<Bypass, OperandError>
    ensures ok { AreSingle word (words_of words.now)
        → IfOk result (λ b. HasBypass word (operand (codes "BYPASS") (words_of words.now)) b) }
    ensures bad { IfErr result (λ e. Excludes e
        ((b : terms.Bypass) × HasBypass word (operand (codes "BYPASS") (words_of words.now)) b)) }
{
    let Some(found) = operand(words, b"BYPASS") else {
        return Ok(Bypass::none(alloc));
    };
    let Some(list) = found.list else {
        return Err(OperandError::Bad);
    };
    if !are_members(members_of(word), &list) {
        return Err(OperandError::Bad);
    }
    read_members(alloc, &list)
}
