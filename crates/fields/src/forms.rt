//! Tests of the characters that fields are made of.
ghost use Rattle.std.specs.Prelude.{◌≡◌, ◌↔◌, IsTrue};
ghost use Rattle.std.specs.Str.Parse.{digits_value};
ghost use Rattle.terms.specs.Forms.{is_letter, is_digit, is_id_byte, IsRun, IsDayOfYear};

// Whether the byte is one of A to Z.
pub(crate) fn is_letter(b: u8) -> bool
    ensures { result ≡ is_letter b }
{
    b.is_ascii_uppercase()
}

// Whether the byte is one of 0 to 9.
pub(crate) fn is_digit(b: u8) -> bool
    ensures { result ≡ is_digit b }
{
    b.is_ascii_digit()
}

// Whether ids, names and classes may have the byte.
fn is_id_byte(b: u8) -> bool
    ensures { result ≡ is_id_byte b }
{
    is_letter(b) || is_digit(b) || matches!(b, b'$' | b'#' | b'@')
}

// Whether the text has from `least` to `most` bytes, and ids may have each of them.
pub(crate) fn is_run_of_id_bytes(text: &[u8], least: usize, most: usize) -> bool
    ensures { IsTrue result ↔ IsRun is_id_byte least most text.now }
{
    least <= text.len() && text.len() <= most && text.iter().all(|b| is_id_byte(*b))
}

// Whether the text consists of `count` digits.
pub(crate) fn are_digits(text: &[u8], count: usize) -> bool
    ensures { IsTrue result ↔ IsRun is_digit count count text.now }
{
    text.len() == count && text.iter().all(|b| is_digit(*b))
}

// Whether the text is a day of the year, from 001 to 366.
pub(crate) fn is_day(text: &[u8]) -> bool
    ensures { IsTrue result ↔ IsDayOfYear text.now }
{
    are_digits(text, 3) && (1..=366).contains(&day_number(text))
}

// The number that three digits spell.
fn day_number(text: &[u8]) -> u16
    requires { IsRun is_digit 3 3 text.now }
    ensures { result ≡ digits_value 10 text.now }
{
    let digit = |place: usize| u16::from(text[place] - b'0');
    digit(0) * 100 + digit(1) * 10 + digit(2)
}
