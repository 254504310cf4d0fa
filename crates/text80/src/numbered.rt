//! Numbered texts.
ghost use Rattle.std.specs.Prelude.{◌≡◌, ◌<◌, ◌≤◌, [], IfOk, IfErr};
ghost use Rattle.terms.specs.Texts.{IsNumbered, IsNumberedLine, IsNumberedFault, number_of};
ghost use Rattle.text80.specs.Rising.{IsNumberFault};

use crate::line::Line;
use std::alloc::{AllocError, Global};
use std::marker::Model;
use terms::{TextCode, TextFault};

/// A numbered text: eight digits in columns 73 to 80 of each record, and the numbers rise.
#[derive(Debug, Drop)]
pub struct Numbered {
    pub(crate) lines: Vec<Line>,
}

impl Model for Numbered {
    ghost use Rattle.std.specs.Prelude.{List, ℕ};
    ghost use Rattle.terms.specs.Texts.{IsNumbered};

    ghost Value = { List (List ℕ) };

    ghost view = { λ text. text.lines.items };

    ghost invariant = { λ text. IsNumbered text.lines.items };
}

impl Numbered {
    /// An empty text.
    pub fn empty(alloc: Global) -> Numbered
        ensures { result ≡ [] }
    {
        Numbered {
            lines: Vec::new(alloc),
        }
    }

    /// The records as a numbered text. The error names the first bad record, counted from 1: `NoNumber` if it has no
    /// number, `NumberOutOfOrder` if its number does not rise.
    pub fn read(lines: Vec<Line>) -> Result<Numbered, TextFault>
        ensures text { IfOk result (λ text. text ≡ lines.items) }
        ensures fault { IfErr result (IsNumberedFault lines.items) }
    {
        let mut least = 0;
        for (i, line) in lines.iter().enumerate() {
            match rising_number(line, least, TextCode::NumberOutOfOrder) {
                Ok(number) => least = number + 1,
                Err(code) => return Err(TextFault {
                    number: i + 1,
                    code,
                }),
            }
        }
        Ok(Numbered { lines })
    }

    /// A numbered text of records that are known to be one, without a check.
    pub fn known(lines: Vec<Line>) -> Numbered
        requires { IsNumbered lines.items }
        ensures { result ≡ lines.items }
    {
        Numbered { lines }
    }

    /// The records.
    pub fn lines(&self) -> &[Line]
        ensures lines { result.now ≡ self.now }
        ensures numbered { IsNumbered self.now }
    {
        &self.lines
    }

    /// The records, by value.
    pub fn into_lines(self) -> Vec<Line>
        ensures lines { result.items ≡ self }
        ensures numbered { IsNumbered result.items }
    {
        self.lines
    }
}

impl Clone for Numbered {
    ghost is_clone = { λ text copy. copy ≡ text };

    fn clone(&self) -> Result<Numbered, AllocError> {
        let lines = self.lines.clone()?;
        Ok(Numbered { lines })
    }
}

/// The number of a record, which must not be below the least that is allowed. The error is `NoNumber` if it has none,
/// and `disorder` if it is below.
pub(crate) fn rising_number(line: &Line, least: u32, disorder: TextCode) -> Result<u32, TextCode>
    ensures numbered { IfOk result (λ n. IsNumberedLine line.now × (n ≡ number_of line.now)) }
    ensures from { IfOk result (λ n. least ≤ n) }
    ensures bound { IfOk result (λ n. n < 100000000) }
    ensures fault { IfErr result (IsNumberFault line.now least disorder) }
{
    match line.number() {
        None => Err(TextCode::NoNumber),
        Some(number) if number < least => Err(disorder),
        Some(number) => Ok(number),
    }
}
