//! The parts of a hold.
ghost use Rattle.std.specs.Prelude.{◌≡◌, ◌↔◌, IsSome, IfSome, IsTrue};
ghost use Rattle.terms.specs.Forms.{IsClass, IsId, IsReason, IsDate};

use crate::forms::{are_digits, is_day, is_run_of_id_bytes};
use crate::ids::Id;
use crate::padded::Short;
use crate::rising_lists::Field;
use std::marker::Model;
use terms::HoldKind;

/// The reason of a hold, for an ERROR hold an id. A contract sees it as its bytes.
#[derive(Clone, Copy, Debug, PartialEq, Eq, PartialOrd, Ord, Hash)]
pub struct Reason {
    text: Short<7>,
}

impl Model for Reason {
    ghost use Rattle.std.specs.Prelude.{ℕ, List};
    ghost use Rattle.terms.specs.Forms.{IsClass};

    ghost Value = { List ℕ };

    ghost view = { λ a. a.text };

    ghost invariant = { λ a. IsClass a.text };

    ghost inverse = { λ text. record { text = text } };
}

impl Field for Reason {
    ghost use Rattle.std.proofs.lemmas.Map.Lookups.{exact_bytes};

    ghost exact = { exact_bytes };
}

impl Reason {
    /// The reason that the text spells, if it has 1 to 7 characters of ids.
    pub fn read(text: &[u8]) -> Option<Reason>
        ensures form { IsSome result ↔ IsClass text.now }
        ensures same { IfSome result (λ read. read ≡ text.now) }
    {
        if !is_run_of_id_bytes(text, 1, 7) {
            return None;
        }
        Some(Reason {
            text: Short::new(text),
        })
    }

    /// Its text.
    pub fn as_bytes(&self) -> &[u8]
        ensures same { result.now ≡ self.now }
        ensures form { IsClass result.now }
    {
        self.text.as_bytes()
    }

    /// Whether it has the form of an id, as the reason of an ERROR hold must.
    pub fn is_id(&self) -> bool
        ensures { IsTrue result ↔ IsId self.now }
    {
        self.as_id().is_some()
    }

    /// Whether a hold of the kind may have this reason. The reason of an ERROR hold must be an id.
    pub fn suits(self, kind: HoldKind) -> bool
        ensures { IsTrue result ↔ IsReason kind self }
    {
        match kind {
            HoldKind::Error => self.is_id(),
            HoldKind::System | HoldKind::User => true,
        }
    }

    /// The id that it is, if it has the form of one.
    pub fn as_id(&self) -> Option<Id>
        ensures form { IsSome result ↔ IsId self.now }
        ensures same { IfSome result (λ id. id ≡ self.now) }
    {
        Id::read(self.as_bytes())
    }
}

/// The date of a hold, `yyddd`. A contract sees it as its five digits.
#[derive(Clone, Copy, Debug, PartialEq, Eq, PartialOrd, Ord, Hash)]
pub struct HoldDate {
    text: Short<5>,
}

impl Model for HoldDate {
    ghost use Rattle.std.specs.Prelude.{ℕ, List};
    ghost use Rattle.terms.specs.Forms.{IsDate};

    ghost Value = { List ℕ };

    ghost view = { λ a. a.text };

    ghost invariant = { λ a. IsDate a.text };

    ghost inverse = { λ text. record { text = text } };
}

impl Field for HoldDate {
    ghost use Rattle.std.proofs.lemmas.Map.Lookups.{exact_bytes};

    ghost exact = { exact_bytes };
}

impl HoldDate {
    /// The date that the text spells, if it is two digits of a year and a day from 001 to 366.
    pub fn read(text: &[u8]) -> Option<HoldDate>
        ensures form { IsSome result ↔ IsDate text.now }
        ensures same { IfSome result (λ read. read ≡ text.now) }
    {
        if !is_date(text) {
            return None;
        }
        Some(HoldDate {
            text: Short::new(text),
        })
    }

    /// Its text.
    pub fn as_bytes(&self) -> &[u8]
        ensures same { result.now ≡ self.now }
        ensures form { IsDate result.now }
    {
        self.text.as_bytes()
    }
}

// Whether the text is `yyddd`.
fn is_date(text: &[u8]) -> bool
    ensures { IsTrue result ↔ IsDate text.now }
{
    match text.split_at_checked(2) {
        Some((year, day)) => are_digits(year, 2) && is_day(day),
        None => false,
    }
}
