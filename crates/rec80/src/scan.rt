//! Where a comment or a list in parentheses ends.
ghost use Rattle.std.specs.Prelude.{◌≡◌, ◌<◌, ◌&&◌, ◌==◌, ◌∷◌, ◌++◌, false, slice_index};
ghost use Rattle.std.specs.Prelude.{is_some, MatchOption, IfSome, Some, None};
ghost use Rattle.terms.specs.Statement.{behind_close, behind_list};
ghost use Rattle.rec80.specs.Cursors.{rest_of, IsAhead, text_of};

use crate::cursor::Cursor;
use crate::text::Text;

/// The place after the byte and the one that comes next, if these are `first` and `second`.
pub fn skip_pair<'a>(byte: u8, next: &Cursor<'a>, first: u8, second: u8) -> Option<Cursor<'a>>
    requires { 0 < second }
    ensures found { is_some result ≡ (byte == first && slice_index (rest_of next.now) 0 == second) }
    ensures after { IfSome result (λ x. rest_of next.now ≡ second ∷ rest_of x) }
    ensures ahead { IfSome result (λ x. IsAhead next.now x) }
{
    if byte != first {
        return None;
    }
    let (other, after) = next.next_byte()?;
    if other == second { Some(after) } else { None }
}

/// The place after the first `*/`, if there is one.
#[tactic(auto, using(crate::proofs::Places::ahead_trans))]
pub fn skip_comment<'a>(inside: &Cursor<'a>) -> Option<Cursor<'a>>
    ensures end { MatchOption result (behind_close (rest_of inside.now) ≡ None)
        (λ x. behind_close (rest_of inside.now) ≡ Some (rest_of x)) }
    ensures ahead { IfSome result (λ x. IsAhead inside.now x) }
{
    let mut at = *inside;
    while let Some((byte, next)) = at.next_byte() {
        if let Some(after) = skip_pair(byte, &next, b'*', b'/') {
            return Some(after);
        }
        at = next;
    }
    None
}

/// The text up to the parenthesis that closes it, and the place after that. None if no parenthesis closes it, or if a
/// third level opens.
pub fn split_parens<'a>(inside: &Cursor<'a>) -> Option<(Text<'a>, Cursor<'a>)>
    ensures end { MatchOption result (behind_list false (rest_of inside.now) ≡ None)
        (λ x. behind_list false (rest_of inside.now) ≡ Some (rest_of x.1)) }
    ensures text { IfSome result (λ x. rest_of inside.now ≡ text_of x.0 ++ 41 ∷ rest_of x.1) }
    ensures ahead { IfSome result (λ x. IsAhead inside.now x.1) }
{
    let mut at = *inside;
    let mut len = 0;
    let mut inner = false;
    while let Some((byte, next)) = at.next_byte() {
        if byte == b')' && !inner {
            return Some((inside.text(len), next));
        }
        if byte == b'(' && inner {
            return None;
        }
        if byte == b'(' || byte == b')' {
            inner = !inner;
        }
        len += 1;
        at = next;
    }
    None
}
