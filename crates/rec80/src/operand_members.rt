//! The members of a list as values.
ghost use Rattle.std.specs.Prelude.{◌≡◌, ℕ, List, All, map, IfOk, IfErr, IfSome, IfNone};
ghost use Rattle.terms.specs.Words.{HasMembers, plain};
ghost use Rattle.rec80.specs.Cursors.{text_of};
ghost use Rattle.rec80.specs.Views.{word_of};
ghost use Rattle.rec80.specs.Failing.{Excludes};

use crate::member::Member;
use crate::operand_errors::OperandError;
use crate::text::Text;
use crate::words::Word;
use std::alloc::Global;

// The value of a member that has no list of its own.
fn read_member<T: Member>(member: &Word<'_>) -> Option<T>
    ensures good { IfSome result (λ x. (word_of member.now ≡ plain (T.text x)) × T.form (T.text x)) }
    ensures none { IfNone result ((m : List ℕ) → word_of member.now ≡ plain m → T.form m → ⊥) }
{
    if member.list.is_some() {
        return None;
    }
    T::read(member.word)
}

/// The members of a list, in its order. Returns `Memory` if memory runs out, and `Bad` if the text is not a list of
/// such members.
pub(crate) fn read_members<T: Member>(
    alloc: Global,
    list: &Text<'_>,
) -> Result<Vec<T>, OperandError>
    ensures members { IfOk result (λ read. HasMembers (text_of list.now) (map plain (map T.text read.items))) }
    ensures only { IfOk result (λ read. (ms : List (List ℕ)) → HasMembers (text_of list.now) (map plain ms)
        → ms ≡ map T.text read.items) }
    ensures forms { IfOk result (λ read. All T.form (map T.text read.items)) }
    ensures bad { IfErr result (λ e. Excludes e ((ms : List (List ℕ)) × HasMembers (text_of list.now) (map plain ms)
        × All T.form ms)) }
{
    let mut read = Vec::new(alloc);
    let mut members = list.members();
    while let Some(member) = members.next_member()? {
        let Some(value) = read_member(&member) else {
            return Err(OperandError::Bad);
        };
        read.push(value)?;
    }
    Ok(read)
}
