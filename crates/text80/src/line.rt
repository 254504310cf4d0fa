//! A record of 80 bytes, and its number.
ghost use Rattle.std.specs.Prelude.{◌≡◌, ◌<◌, ◌%◌, length, IfOk, IfSome, IfNone};
ghost use Rattle.std.specs.Str.Parse.{digits_value};
ghost use Rattle.terms.specs.Texts.{HasLines, IsNumber, IsNumberedLine, number_of, is_control};

use std::alloc::{AllocError, Global};
use std::marker::Model;

/// The length of a record.
pub const RECORD: usize = 80;

/// How many columns of a record hold its text. The others, at its end, hold its number.
pub(crate) const TEXT_COLUMNS: usize = 72;

/// How many digits a number has.
pub(crate) const NUMBER_DIGITS: usize = 8;

/// A record of a text.
#[derive(Clone, Copy, Debug, PartialEq, Eq)]
pub struct Line([u8; RECORD]);

impl Model for Line {
    ghost use Rattle.std.specs.Prelude.{List, ℕ};

    ghost Value = { List ℕ };

    ghost view = { λ line. line.0 };

    ghost inverse = { λ bytes. record { 0 = bytes } };
}

impl Line {
    /// A record of these bytes.
    pub fn new(bytes: [u8; RECORD]) -> Line
        ensures { result ≡ bytes }
    {
        Line(bytes)
    }

    /// The 80 bytes.
    pub fn bytes(&self) -> &[u8]
        ensures bytes { result.now ≡ self.now }
        ensures len { length result.now ≡ 80 }
    {
        &self.0
    }

    /// The number in columns 73 to 80, if these are eight digits.
    pub fn number(&self) -> Option<u32>
        ensures some { IfSome result (λ n. IsNumberedLine self.now × (n ≡ number_of self.now)) }
        ensures bound { IfSome result (λ n. n < 100000000) }
        ensures none { IfNone result (¬ IsNumberedLine self.now) }
    {
        let (_, number) = self.0.split_at(TEXT_COLUMNS);
        number_in(number)
    }

    /// The number of a record that is known to have one.
    pub(crate) fn known_number(&self) -> u32
        requires { IsNumberedLine self.now }
        ensures { result ≡ number_of self.now }
    {
        self.number().unwrap()
    }

    /// Whether the record begins with `./`, as CHANGE and DELETE records do.
    pub fn is_control(&self) -> bool
        ensures { result ≡ is_control self.now }
    {
        self.0.starts_with(b"./")
    }
}

/// The number that the text spells, if it is eight digits.
pub(crate) fn number_in(text: &[u8]) -> Option<u32>
    ensures some { IfSome result (λ n. IsNumber text.now × (n ≡ digits_value 10 text.now)) }
    ensures bound { IfSome result (λ n. n < 100000000) }
    ensures none { IfNone result (¬ IsNumber text.now) }
{
    if text.len() != NUMBER_DIGITS {
        return None;
    }
    let mut number = 0;
    for digit in text {
        if !digit.is_ascii_digit() {
            return None;
        }
        number = number * 10 + u32::from(*digit - b'0');
    }
    Some(number)
}

/// The records of the bytes, 80 bytes each, one after the other.
pub fn lines_of(alloc: Global, bytes: &[u8]) -> Result<Vec<Line>, AllocError>
    requires { length bytes.now % 80 ≡ 0 }
    ensures { IfOk result (λ lines. HasLines bytes.now lines.items) }
{
    let mut lines = Vec::with_capacity(alloc, bytes.len() / RECORD)?;
    let mut rest = bytes;
    while !rest.is_empty() {
        let (front, back) = rest.split_at(RECORD);
        let mut line = [0; RECORD];
        line.copy_from_slice(front);
        lines.push(Line(line))?;
        rest = back;
    }
    Ok(lines)
}

/// The bytes of the records, one after the other.
pub fn bytes_of(alloc: Global, lines: &[Line]) -> Result<Vec<u8>, AllocError>
    ensures { IfOk result (λ bytes. HasLines bytes.items lines.now) }
{
    let mut bytes = Vec::new(alloc);
    for line in lines {
        bytes.extend_from_slice(line.bytes())?;
    }
    Ok(bytes)
}
