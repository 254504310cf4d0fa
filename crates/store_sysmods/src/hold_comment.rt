//! The comment of a hold.

ghost use Rattle.std.specs.Prelude.{◌↔◌, ◌&&◌, nat_le, reverse, IsTrue, All};
ghost use Rattle.terms.specs.Forms.{BeginsDark};
ghost use Rattle.store_schema.specs.Forms.{IsComment, IsPaired};

/// The greatest number of characters in a comment.
const LONGEST_COMMENT: usize = 200;

// Whether there is a first character, and it is not a blank.
fn begins_with_nonblank(text: &[u8]) -> bool
    ensures { IsTrue result ↔ BeginsDark text.now }
{
    match text {
        [first, ..] => *first != b' ',
        [] => false,
    }
}

// Whether there is a last character, and it is not a blank.
fn ends_with_nonblank(text: &[u8]) -> bool
    ensures { IsTrue result ↔ BeginsDark (reverse text.now) }
{
    match text {
        [.., last] => *last != b' ',
        [] => false,
    }
}

// Whether all characters are printable: from the blank to the tilde.
fn is_printable(text: &[u8]) -> bool
    ensures { IsTrue result ↔ All (λ b. IsTrue (nat_le 32 b && nat_le b 126)) text.now }
{
    text.iter().all(|byte| (b' '..=b'~').contains(byte))
}

// Whether each parenthesis has its partner, and no pair is inside another.
fn is_paired(text: &[u8]) -> bool
    ensures { IsTrue result ↔ IsPaired text.now }
{
    let mut inner = false;
    for byte in text {
        if *byte == b'(' {
            if inner {
                return false;
            }
            inner = true;
        } else if *byte == b')' {
            if !inner {
                return false;
            }
            inner = false;
        }
    }
    !inner
}

/// Whether the text is a comment: printable characters, at most 200, with no blank at an end and with paired
/// parentheses.
pub(crate) fn is_comment(text: &[u8]) -> bool
    ensures { IsTrue result ↔ IsComment text.now }
{
    text.len() <= LONGEST_COMMENT
        && begins_with_nonblank(text)
        && ends_with_nonblank(text)
        && is_printable(text)
        && is_paired(text)
}
