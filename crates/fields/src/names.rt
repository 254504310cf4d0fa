//! Names of elements, libraries and zones, and SRELs.
ghost use Rattle.std.specs.Prelude.{◌≡◌, ◌↔◌, IsSome, IfSome, IsTrue, codes};
ghost use Rattle.terms.specs.Forms.{IsName, IsZoneName, IsSrel};

use crate::attest::Attest;
use crate::forms::{are_digits, is_digit, is_letter, is_run_of_id_bytes};
use crate::padded::Short;
use crate::rising_lists::Field;
use crate::spelling::as_str;
use std::fmt;
use std::marker::Model;

/// The name of an element or a library. A contract sees it as its bytes.
#[derive(Clone, Copy, Debug, PartialEq, Eq, PartialOrd, Ord, Hash)]
pub struct Name {
    text: Short<8>,
}

impl Model for Name {
    ghost use Rattle.std.specs.Prelude.{ℕ, List};
    ghost use Rattle.terms.specs.Forms.{IsName};

    ghost Value = { List ℕ };

    ghost view = { λ a. a.text };

    ghost invariant = { λ a. IsName a.text };

    ghost inverse = { λ text. record { text = text } };
}

impl Field for Name {
    ghost use Rattle.std.proofs.lemmas.Map.Lookups.{exact_bytes};

    ghost exact = { exact_bytes };
}

impl Name {
    /// The name that the text spells, if it has 1 to 8 characters of ids and begins with no digit.
    pub fn read(text: &[u8]) -> Option<Name>
        ensures form { IsSome result ↔ IsName text.now }
        ensures same { IfSome result (λ read. read ≡ text.now) }
    {
        if !is_run_of_id_bytes(text, 1, 8) || is_digit(text[0]) {
            return None;
        }
        Some(Name {
            text: Short::new(text),
        })
    }

    /// Its text.
    pub fn as_bytes(&self) -> &[u8]
        ensures same { result.now ≡ self.now }
        ensures form { IsName result.now }
    {
        self.text.as_bytes()
    }
}

impl fmt::Display for Name {
    fn fmt<W: fmt::Write>(&self, f: &mut fmt::Formatter<W>) -> fmt::Result {
        f.write_str(as_str(self.as_bytes()))
    }
}

/// The name of a zone. A contract sees it as its bytes.
#[derive(Clone, Copy, Debug, PartialEq, Eq, PartialOrd, Ord, Hash)]
pub struct ZoneName {
    text: Short<7>,
}

impl Model for ZoneName {
    ghost use Rattle.std.specs.Prelude.{ℕ, List};
    ghost use Rattle.terms.specs.Forms.{IsZoneName};

    ghost Value = { List ℕ };

    ghost view = { λ a. a.text };

    ghost invariant = { λ a. IsZoneName a.text };

    ghost inverse = { λ text. record { text = text } };
}

impl Field for ZoneName {
    ghost use Rattle.std.proofs.lemmas.Map.Lookups.{exact_bytes};

    ghost exact = { exact_bytes };
}

impl Attest for ZoneName {
    ghost use Rattle.terms.specs.Forms.{IsZoneName};

    ghost form = { IsZoneName };

    fn attest(&self) {
        let _ = self.as_bytes();
    }
}

impl ZoneName {
    /// The name that the text spells, if it has 1 to 7 characters of ids and begins with a letter.
    pub fn read(text: &[u8]) -> Option<ZoneName>
        ensures form { IsSome result ↔ IsZoneName text.now }
        ensures same { IfSome result (λ read. read ≡ text.now) }
    {
        if !is_run_of_id_bytes(text, 1, 7) || !is_letter(text[0]) {
            return None;
        }
        Some(ZoneName {
            text: Short::new(text),
        })
    }

    /// Its text.
    pub fn as_bytes(&self) -> &[u8]
        ensures same { result.now ≡ self.now }
        ensures form { IsZoneName result.now }
    {
        self.text.as_bytes()
    }

    /// Whether it is the name of the global zone.
    pub fn is_global(&self) -> bool
        ensures { IsTrue result ↔ (self.now ≡ codes "GLOBAL") }
    {
        self.as_bytes() == b"GLOBAL".as_slice()
    }
}

/// A system release (SREL), which relates `++VER`s to zones. A contract sees it as its four bytes.
#[derive(Clone, Copy, Debug, PartialEq, Eq, PartialOrd, Ord, Hash)]
pub struct Srel {
    text: Short<4>,
}

impl Model for Srel {
    ghost use Rattle.std.specs.Prelude.{ℕ, List};
    ghost use Rattle.terms.specs.Forms.{IsSrel};

    ghost Value = { List ℕ };

    ghost view = { λ a. a.text };

    ghost invariant = { λ a. IsSrel a.text };

    ghost inverse = { λ text. record { text = text } };
}

impl Field for Srel {
    ghost use Rattle.std.proofs.lemmas.Map.Lookups.{exact_bytes};

    ghost exact = { exact_bytes };
}

impl Attest for Srel {
    ghost use Rattle.terms.specs.Forms.{IsSrel};

    ghost form = { IsSrel };

    fn attest(&self) {
        let _ = self.as_bytes();
    }
}

impl Srel {
    /// The SREL that the text spells, if it is a letter and three digits.
    pub fn read(text: &[u8]) -> Option<Srel>
        ensures form { IsSome result ↔ IsSrel text.now }
        ensures same { IfSome result (λ read. read ≡ text.now) }
    {
        if !is_srel(text) {
            return None;
        }
        Some(Srel {
            text: Short::new(text),
        })
    }

    /// Its text.
    pub fn as_bytes(&self) -> &[u8]
        ensures same { result.now ≡ self.now }
        ensures form { IsSrel result.now }
    {
        self.text.as_bytes()
    }
}

// Whether the text is a letter and three digits.
fn is_srel(text: &[u8]) -> bool
    ensures { IsTrue result ↔ IsSrel text.now }
{
    match text {
        [letter, digits @ ..] => is_letter(*letter) && are_digits(digits, 3),
        [] => false,
    }
}
