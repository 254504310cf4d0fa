//! The members of a list, one after the other.
ghost use Rattle.std.specs.Prelude.{◌≡◌, ◌<◌, length, ◌++◌, ℕ, false, List, Option, [], ◌∷◌, All, true, IfOk, IfSome};
ghost use Rattle.std.specs.Prelude.{IfNone, OnErr, MatchOption, option_map};
ghost use Rattle.terms.specs.Words.{is_inner_byte, TakesInner, Stops, IsBefore, TakesNext};
ghost use Rattle.terms.specs.Words as grammar;
ghost use Rattle.terms.specs.Forms.{AreBlanks};
ghost use Rattle.terms.proofs.Members.{BeginsMember};
ghost use Rattle.rec80.specs.Cursors.{text_of};
ghost use Rattle.rec80.specs.Lists.{SkipsBlanks, LeavesMembers, members_text};
ghost use Rattle.rec80.specs.Views.{word_of};

use crate::members::{Members, NoMembers, split_member_word};
use crate::text::Text;
use crate::words::Word;

// The text after the blanks.
fn skip_blanks<'a>(text: &Text<'a>) -> Text<'a>
    ensures { SkipsBlanks (text_of text.now) (text_of result) }
{
    let mut at = *text;
    while let Some((byte, next)) = at.next_byte() {
        if byte != b' ' {
            return at;
        }
        at = next;
    }
    at
}

// The text before the first parenthesis, and the text after it.
fn split_at_paren<'a>(inside: &Text<'a>) -> (Text<'a>, Text<'a>)
    ensures cut { text_of inside.now ≡ text_of result.0 ++ text_of result.1 }
    ensures each { All (λ b. is_inner_byte b ≡ true) (text_of result.0) }
    ensures stops { Stops is_inner_byte (text_of result.1) }
{
    let mut at = *inside;
    let mut len = 0;
    while let Some((byte, next)) = at.next_byte() {
        if byte == b'(' || byte == b')' {
            return (inside.front(len), at);
        }
        len += 1;
        at = next;
    }
    (inside.front(len), at)
}

// The text after the byte, if it begins with the byte.
fn skip_byte<'a>(text: &Text<'a>, byte: u8) -> Option<Text<'a>>
    ensures found { IfSome result (λ next. text_of text.now ≡ byte ∷ text_of next) }
    ensures none { IfNone result ((next : List ℕ) → text_of text.now ≡ byte ∷ next → ⊥) }
{
    let (first, next) = text.next_byte()?;
    if first == byte { Some(next) } else { None }
}

// A member's own list, if it has one, and the text after it. None if a list begins and is not closed.
fn member_list<'a>(after_name: &Text<'a>) -> Option<(Option<Text<'a>>, Text<'a>)>
    ensures list { IfSome result (λ x. TakesInner (text_of after_name.now) (option_map text_of x.0) (text_of x.1)) }
    ensures none { IfNone result ((list : Option (List ℕ)) (after : List ℕ)
        → TakesInner (text_of after_name.now) list after → ⊥) }
{
    let after_blanks = skip_blanks(after_name);
    let Some(inside) = skip_byte(&after_blanks, b'(') else {
        return Some((None, *after_name));
    };
    let (list, close) = split_at_paren(&inside);
    let after = skip_byte(&close, b')')?;
    Some((Some(list), after))
}

// The place where the next member begins, if one may begin there.
fn member_start<'a>(rest: &Text<'a>, first: bool) -> Option<Text<'a>>
    ensures start { IfSome result (λ t. (gap : List ℕ) × (text_of rest.now ≡ gap ++ text_of t) × IsBefore first gap) }
    ensures only { (gap next : List ℕ) → text_of rest.now ≡ gap ++ next → IsBefore first gap → BeginsMember next
        → MatchOption result ⊥ (λ t. next ≡ text_of t) }
{
    let after_blanks = skip_blanks(rest);
    if first {
        return Some(after_blanks);
    }
    if let Some(next) = skip_byte(&after_blanks, b',') {
        return Some(skip_blanks(&next));
    }
    skip_byte(rest, b' ')?;
    Some(after_blanks)
}

// The next member, and the text after it.
fn split_next_member<'a>(rest: &Text<'a>, first: bool) -> Option<(Word<'a>, Text<'a>)>
    ensures member { IfSome result (λ x. TakesNext first (text_of rest.now) (word_of x.0) (text_of x.1)) }
    ensures none { IfNone result ((m : grammar.Word) (after : List ℕ) → TakesNext first (text_of rest.now) m after
        → ⊥) }
{
    let start = member_start(rest, first)?;
    let (word, after_name) = split_member_word(&start)?;
    let (list, after) = member_list(&after_name)?;
    Some((Word { word, list }, after))
}

// Whether only blanks are left.
fn is_blank(rest: &Text) -> bool
    ensures blank { result ≡ true → AreBlanks (text_of rest.now) }
    ensures not_blank { result ≡ false → AreBlanks (text_of rest.now) → ⊥ }
{
    skip_blanks(rest).is_end()
}

impl<'a> Members<'a> {
    /// Takes the next member with its own list, if there is one. Returns an error, and changes nothing, if the
    /// remaining text is not a list of members.
    pub fn next_member(&mut self) -> Result<Option<Word<'a>>, NoMembers>
        ensures member { IfOk result (λ found. IfSome found (λ m. (ms : List grammar.Word)
            → LeavesMembers self.new ms → LeavesMembers self.old (word_of m ∷ ms))) }
        ensures only { IfOk result (λ found. IfSome found (λ m. (ms : List grammar.Word) → LeavesMembers self.old ms
            → (rest : List grammar.Word) × (ms ≡ word_of m ∷ rest) × LeavesMembers self.new rest)) }
        ensures end { IfOk result (λ found. IfNone found (LeavesMembers self.old [])) }
        ensures end_only { IfOk result (λ found. IfNone found ((ms : List grammar.Word) → LeavesMembers self.old ms
            → ms ≡ [])) }
        ensures bad { OnErr result ((ms : List grammar.Word) → LeavesMembers self.old ms → ⊥) }
        ensures err { OnErr result (self.new ≡ self.old) }
        ensures shorter { IfOk result (λ found. IfSome found (λ m. length (members_text self.new) < length
            (members_text self.old))) }
    {
        if !self.first && is_blank(&self.rest) {
            return Ok(None);
        }
        let Some((member, after)) = split_next_member(&self.rest, self.first) else {
            return Err(NoMembers);
        };
        self.rest = after;
        self.first = false;
        Ok(Some(member))
    }
}
