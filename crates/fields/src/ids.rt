//! Ids of SYSMODs, source ids and classes of holds.
ghost use Rattle.std.specs.Prelude.{◌≡◌, ◌↔◌, IsSome, IfSome};
ghost use Rattle.terms.specs.Forms.{IsId, IsSource, IsClass};

use crate::forms::is_run_of_id_bytes;
use crate::padded::Short;
use crate::rising_lists::Field;
use crate::spelling::as_str;
use std::fmt;
use std::marker::Model;

/// A SYSMOD's id. A contract sees it as its seven bytes.
#[derive(Clone, Copy, Debug, PartialEq, Eq, PartialOrd, Ord, Hash)]
pub struct Id {
    text: Short<7>,
}

impl Model for Id {
    ghost use Rattle.std.specs.Prelude.{ℕ, List};
    ghost use Rattle.terms.specs.Forms.{IsId};

    ghost Value = { List ℕ };

    ghost view = { λ a. a.text };

    ghost invariant = { λ a. IsId a.text };

    ghost inverse = { λ text. record { text = text } };
}

impl Field for Id {
    ghost use Rattle.std.proofs.lemmas.Map.Lookups.{exact_bytes};

    ghost exact = { exact_bytes };
}

impl Id {
    /// The id that the text spells, if it has seven characters, each of which an id may have.
    pub fn read(text: &[u8]) -> Option<Id>
        ensures form { IsSome result ↔ IsId text.now }
        ensures same { IfSome result (λ read. read ≡ text.now) }
    {
        if !is_run_of_id_bytes(text, 7, 7) {
            return None;
        }
        Some(Id {
            text: Short::new(text),
        })
    }

    /// Its text.
    pub fn as_bytes(&self) -> &[u8]
        ensures same { result.now ≡ self.now }
        ensures form { IsId result.now }
    {
        self.text.as_bytes()
    }
}

impl fmt::Display for Id {
    fn fmt<W: fmt::Write>(&self, f: &mut fmt::Formatter<W>) -> fmt::Result {
        f.write_str(as_str(self.as_bytes()))
    }
}

/// A source id, by which commands choose SYSMODs. A contract sees it as its bytes.
#[derive(Clone, Copy, Debug, PartialEq, Eq, PartialOrd, Ord, Hash)]
pub struct Source {
    text: Short<64>,
}

impl Model for Source {
    ghost use Rattle.std.specs.Prelude.{ℕ, List};
    ghost use Rattle.terms.specs.Forms.{IsSource};

    ghost Value = { List ℕ };

    ghost view = { λ a. a.text };

    ghost invariant = { λ a. IsSource a.text };

    ghost inverse = { λ text. record { text = text } };
}

impl Field for Source {
    ghost use Rattle.std.proofs.lemmas.Map.Lookups.{exact_bytes};

    ghost exact = { exact_bytes };
}

impl Source {
    /// The source id that the text spells, if it has 1 to 64 characters of ids.
    pub fn read(text: &[u8]) -> Option<Source>
        ensures form { IsSome result ↔ IsSource text.now }
        ensures same { IfSome result (λ read. read ≡ text.now) }
    {
        if !is_run_of_id_bytes(text, 1, 64) {
            return None;
        }
        Some(Source {
            text: Short::new(text),
        })
    }

    /// Its text.
    pub fn as_bytes(&self) -> &[u8]
        ensures same { result.now ≡ self.now }
        ensures form { IsSource result.now }
    {
        self.text.as_bytes()
    }
}

/// The class of a hold. A contract sees it as its bytes.
#[derive(Clone, Copy, Debug, PartialEq, Eq, PartialOrd, Ord, Hash)]
pub struct Class {
    text: Short<7>,
}

impl Model for Class {
    ghost use Rattle.std.specs.Prelude.{ℕ, List};
    ghost use Rattle.terms.specs.Forms.{IsClass};

    ghost Value = { List ℕ };

    ghost view = { λ a. a.text };

    ghost invariant = { λ a. IsClass a.text };

    ghost inverse = { λ text. record { text = text } };
}

impl Field for Class {
    ghost use Rattle.std.proofs.lemmas.Map.Lookups.{exact_bytes};

    ghost exact = { exact_bytes };
}

impl Class {
    /// The class that the text spells, if it has 1 to 7 characters of ids.
    pub fn read(text: &[u8]) -> Option<Class>
        ensures form { IsSome result ↔ IsClass text.now }
        ensures same { IfSome result (λ read. read ≡ text.now) }
    {
        if !is_run_of_id_bytes(text, 1, 7) {
            return None;
        }
        Some(Class {
            text: Short::new(text),
        })
    }

    /// Its text.
    pub fn as_bytes(&self) -> &[u8]
        ensures same { result.now ≡ self.now }
        ensures form { IsClass result.now }
    {
        self.text.as_bytes()
    }
}
