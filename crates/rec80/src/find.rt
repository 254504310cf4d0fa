//! An operand among words, and a member in a list, by its name.
ghost use Rattle.std.specs.Prelude.{◌≡◌, ◌↔◌, ◌<◌, [], ◌∷◌, List, length, map, filter, find, IsTrue, All};
ghost use Rattle.std.specs.Prelude.{option_map, option_copied, IfSome, IfNone};
ghost use Rattle.std.specs.List.{list_any};
ghost use Rattle.std.specs.Str.{bytes_eq};
ghost use Rattle.terms.specs.Lookups.{is_in};
ghost use Rattle.terms.specs.Words as grammar;
ghost use Rattle.terms.specs.Words.{HasMembers};
ghost use Rattle.terms.specs.Operands.{operand, is_often, AreOperands};
ghost use Rattle.rec80.specs.Cursors.{text_of};
ghost use Rattle.rec80.specs.Lists.{LeavesMembers, members_text};
ghost use Rattle.rec80.specs.Views.{word_of, words_of};

use crate::among::is_among;
use crate::members::Members;
use crate::text::Text;
use crate::words::Word;

// The first word of that name.
fn find_word<'w, 'a>(words: &'w [Word<'a>], name: &[u8]) -> Option<&'w Word<'a>>
    ensures { option_copied result ≡ find (λ w. bytes_eq w.word.now name.now) words.now }
{
    words.iter().find(|word| word.word == name)
}

/// The operand of that name among the words, if there is one.
pub fn operand<'a>(words: &[Word<'a>], name: &[u8]) -> Option<Word<'a>>
    ensures { option_map word_of result ≡ operand name.now (words_of words.now) }
{
    find_word(words, name).copied()
}

// How many words have that name.
fn count_of(words: &[Word<'_>], name: &[u8]) -> usize
    ensures { result ≡ length (filter (λ w. bytes_eq name.now w.word.now) words.now) }
{
    words.iter().filter(|word| name == word.word).count()
}

// Whether at least two words have that name.
fn is_twice(words: &[Word<'_>], name: &[u8]) -> bool
    ensures { result ≡ is_often 2 (map (λ w. w.word) (words_of words.now)) name.now }
{
    count_of(words, name) >= 2
}

/// Whether one of the names occurs twice.
pub(crate) fn any_twice(words: &[Word<'_>], names: &[&[u8]]) -> bool
    ensures { result ≡ list_any (λ name. is_often 2 (map (λ w. w.word) (words_of words.now)) name.now) names.now }
{
    names.iter().any(|name| is_twice(words, name))
}

// Whether each word has one of the names.
fn are_known(words: &[Word<'_>], names: &[&[u8]]) -> bool
    ensures { IsTrue result ↔ All (λ w. IsTrue (is_in (map (λ name. name.now) names.now) w.word.now)) words.now }
{
    words.iter().all(|word| is_among(names, word.word))
}

/// Whether the words are operands of these names only, each at most once.
pub(crate) fn are_operands(words: &[Word<'_>], names: &[&[u8]]) -> bool
    ensures { IsTrue result ↔ AreOperands (map (λ name. name.now) names.now) (words_of words.now) }
{
    are_known(words, names) && !any_twice(words, names)
}

// Takes the next member. Returns `None` if none is left, and also if what is left is not a list of members.
fn take_member<'a>(left: &mut Members<'a>) -> Option<Word<'a>>
    ensures member { IfSome result (λ m. (ms : List grammar.Word) → LeavesMembers left.old ms
        → (more : List grammar.Word) × (ms ≡ word_of m ∷ more) × LeavesMembers left.new more) }
    ensures none { IfNone result ((ms : List grammar.Word) → LeavesMembers left.old ms → ms ≡ []) }
    ensures shorter { IfSome result (λ m. length (members_text left.new) < length (members_text left.old)) }
{
    let Ok(found) = left.next_member() else {
        return None;
    };
    found
}

/// The member of that name in a list, if there is one. If the text is not a list of members, the answer may be
/// anything.
pub fn named_member<'a>(list: &Text<'a>, name: &[u8]) -> Option<Word<'a>>
    ensures { (ms : List grammar.Word) → HasMembers (text_of list.now) ms
        → option_map word_of result ≡ operand name.now ms }
{
    let mut left = list.members();
    while let Some(member) = take_member(&mut left) {
        if member.word == name {
            return Some(member);
        }
    }
    None
}
