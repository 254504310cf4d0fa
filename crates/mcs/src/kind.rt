//! The kind of a hold.
ghost use Rattle.std.specs.Prelude.{◌≡◌, IfSome, IfNone};
ghost use Rattle.terms.specs.declared.kinds.HoldKind.{HoldKind as AnyKind};
ghost use Rattle.terms.specs.HoldStatements.{HasKind};
ghost use Rattle.rec80.specs.Views.{words_of};
ghost use Rattle.mcs.specs.Holds.{kind_from};

use rec80::{Word, flag, operand};
use terms::HoldKind;

// The kind whose flag is set, if just one flag is.
fn kind_from(error: bool, system: bool, user: bool) -> Option<HoldKind>
    ensures { result ≡ kind_from error system user }
{
    match (error, system, user) {
        (true, false, false) => Some(HoldKind::Error),
        (false, true, false) => Some(HoldKind::System),
        (false, false, true) => Some(HoldKind::User),
        _ => None,
    }
}

/// The kind of the hold, if just one of ERROR, SYSTEM and USER is among the operands and has no list.
pub fn read_hold_kind(words: &[Word<'_>]) -> Option<HoldKind>
    ensures some { IfSome result (λ kind. HasKind (words_of words.now) kind) }
    ensures none { IfNone result ((kind : AnyKind)
        → HasKind (words_of words.now) kind → ⊥) }
{
    let Ok(error) = flag(&operand(words, b"ERROR")) else {
        return None;
    };
    let Ok(system) = flag(&operand(words, b"SYSTEM")) else {
        return None;
    };
    let Ok(user) = flag(&operand(words, b"USER")) else {
        return None;
    };
    kind_from(error, system, user)
}
