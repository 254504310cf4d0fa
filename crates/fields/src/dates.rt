//! The date on which a zone applied or accepted a SYSMOD.
ghost use Rattle.std.specs.Prelude.{◌≡◌, ◌↔◌, IsSome, IfSome, ◌≤◌, IsTrue};
ghost use Rattle.terms.specs.Forms.{IsDottedDate, dotted_date, last_digit};

use crate::attest::Attest;
use crate::forms::{are_digits, is_day};
use crate::padded::Short;
use crate::rising_lists::Field;
use std::marker::Model;

/// The date of APPLY or ACCEPT, `yy.ddd`. A contract sees it as its six bytes.
#[derive(Clone, Copy, Debug, PartialEq, Eq, PartialOrd, Ord, Hash)]
pub struct YyDdd {
    text: Short<6>,
}

impl Model for YyDdd {
    ghost use Rattle.std.specs.Prelude.{ℕ, List};
    ghost use Rattle.terms.specs.Forms.{IsDottedDate};

    ghost Value = { List ℕ };

    ghost view = { λ a. a.text };

    ghost invariant = { λ a. IsDottedDate a.text };

    ghost inverse = { λ text. record { text = text } };
}

impl Field for YyDdd {
    ghost use Rattle.std.proofs.lemmas.Map.Lookups.{exact_bytes};

    ghost exact = { exact_bytes };
}

impl Attest for YyDdd {
    ghost use Rattle.terms.specs.Forms.{IsDottedDate};

    ghost form = { IsDottedDate };

    fn attest(&self) {
        let _ = self.as_bytes();
    }
}

impl YyDdd {
    /// The date that the text spells, if it is two digits of a year, a period and a day from 001 to 366.
    pub fn read(text: &[u8]) -> Option<YyDdd>
        ensures form { IsSome result ↔ IsDottedDate text.now }
        ensures same { IfSome result (λ read. read ≡ text.now) }
    {
        if !is_dotted_date(text) {
            return None;
        }
        Some(YyDdd {
            text: Short::new(text),
        })
    }

    /// Its text.
    pub fn as_bytes(&self) -> &[u8]
        ensures same { result.now ≡ self.now }
        ensures form { IsDottedDate result.now }
    {
        self.text.as_bytes()
    }

    /// The date of a day, which counts from 1 within its year.
    pub fn new(year: u16, day: u16) -> YyDdd
        requires first { 1 ≤ day }
        requires last { day ≤ 366 }
        ensures { result ≡ dotted_date year day }
    {
        let text = [
            last_digit(year / 10),
            last_digit(year),
            b'.',
            last_digit(day / 100),
            last_digit(day / 10),
            last_digit(day),
        ];
        YyDdd {
            text: Short::new(&text),
        }
    }
}

// The last digit of the number, as a character.
fn last_digit(n: u16) -> u8
    ensures { result ≡ last_digit n }
{
    b'0' + (n % 10) as u8
}

// Whether the text is `yy.ddd`.
fn is_dotted_date(text: &[u8]) -> bool
    ensures { IsTrue result ↔ IsDottedDate text.now }
{
    text.len() == 6 && are_digits(&text[..2], 2) && text[2] == b'.' && is_day(&text[3..])
}
