//! Lists whose members have known names.
ghost use Rattle.std.specs.Prelude.{◌≡◌, true, false, List, map};
ghost use Rattle.std.specs.List.{list_any};
ghost use Rattle.std.specs.Str.{bytes_eq};
ghost use Rattle.terms.specs.Lookups.{is_in};
ghost use Rattle.terms.specs.Words as grammar;
ghost use Rattle.terms.specs.Words.{HasMembers};
ghost use Rattle.rec80.specs.Cursors.{text_of};
ghost use Rattle.rec80.specs.Left.{AreNamed};

use crate::text::Text;

// The answer of `is_among`, in terms of the slices. The prover finds a chain of iterators only in this form.
fn is_one_of(names: &[&[u8]], text: &[u8]) -> bool
    ensures { result ≡ list_any (λ name. bytes_eq text.now name.now) names.now }
{
    names.iter().any(|name| text == *name)
}

/// Whether the text is one of the names.
pub fn is_among(names: &[&[u8]], text: &[u8]) -> bool
    ensures { result ≡ is_in (map (λ name. name.now) names.now) text.now }
{
    is_one_of(names, text)
}

/// Whether the list consists of members of these names.
pub fn are_members(names: &[&[u8]], list: &Text<'_>) -> bool
    ensures named { result ≡ true → (ms : List grammar.Word) × HasMembers (text_of list.now) ms
        × AreNamed (map (λ name. name.now) names.now) ms }
    ensures other { result ≡ false → (ms : List grammar.Word) → HasMembers (text_of list.now) ms
        → AreNamed (map (λ name. name.now) names.now) ms → ⊥ }
{
    let mut left = list.members();
    while let Ok(found) = left.next_member() {
        let Some(member) = found else {
            return true;
        };
        if !is_among(names, member.word) {
            return false;
        }
    }
    false
}
