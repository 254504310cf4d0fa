//! A text of a few bytes that its value holds in place, with equality and order by its bytes.
ghost use Rattle.std.specs.Prelude.{◌≡◌, ◌<◌, ◌≤◌, ◌^◌, length, All, Some, List, ℕ, refl};
ghost use Rattle.std.specs.Hash as fed;
ghost use Rattle.std.specs.Ordering.{nat_cmp};
ghost use Rattle.std.specs.Cmp.Lexicographic.{slice_cmp, nat_list_eq_equiv, nat_list_cmp_total, texts_ties, texts_po};
ghost use Rattle.std.specs.Cmp.{partial_equiv_from_equiv};
ghost use Rattle.std.specs.Cmp.Rules.{hashing};
ghost use Rattle.std.specs.Str.{bytes_eq};
ghost use Rattle.std.proofs.Common.{rules};
ghost use Rattle.fields.specs.ShortNumbers.{number_of};

use std::cmp::Ordering;
use std::hash::{Hash, Hasher};
use std::marker::Model;

/// A text of at most `N` bytes. A contract sees it as its bytes.
#[derive(Clone, Copy, Debug)]
pub(crate) struct Short<const N: usize> {
    // The text, padded with zeros.
    bytes: [u8; N],
    len: u8,
}

impl<const N: usize> Model for Short<N> {
    ghost use Rattle.std.specs.Prelude.{ℕ, List, take, length, refl};

    ghost Value = { List ℕ };

    ghost use Rattle.fields.specs.Padded.{padded, IsPadded, padded_take, length_text};

    ghost view = { λ s. take s.len s.bytes };

    ghost invariant = { λ s. IsPadded N s.bytes s.len };

    ghost inverse = { λ text. record { bytes = padded N text; len = length text } };

    ghost inverse_ok = { λ a h. Prim.rw (padded_take N a.len a.bytes h, length_text N a.len a.bytes h) refl };
}

impl<const N: usize> Short<N> {
    // A copy of the text, padded with zeros.
    pub(crate) fn new(text: &[u8]) -> Self
        requires fits { length text.now ≤ N }
        requires short { N < 2 ^ 8 }
        ensures { result ≡ text.now }
    {
        let mut bytes = [0; N];
        bytes[..text.len()].copy_from_slice(text);
        Short {
            bytes,
            len: text.len() as u8,
        }
    }

    // Its bytes, without the padding.
    pub(crate) fn as_bytes(&self) -> &[u8]
        ensures { result.now ≡ self.now }
    {
        &self.bytes[..usize::from(self.len)]
    }

    // The seven bytes with their padding, then the length, as one number. Equality and order of ids and reasons use it,
    // because comparing two numbers is faster than comparing two texts.
    fn number(&self) -> u64
        requires { N ≡ 7 }
        ensures same { result ≡ number_of self.now }
        ensures fits { length self.now ≤ 7 }
        ensures bytes { All (λ b. b < 256) self.now }
    {
        let text = self.as_bytes();
        let bytes = &self.bytes;
        u64::from_be_bytes([
            bytes[0],
            bytes[1],
            bytes[2],
            bytes[3],
            bytes[4],
            bytes[5],
            bytes[6],
            text.len() as u8,
        ])
    }
}

impl<const N: usize> PartialEq for Short<N> {
    ghost eq = { bytes_eq };

    ghost laws = { partial_equiv_from_equiv nat_list_eq_equiv };

    fn eq(&self, other: &Self) -> bool {
        if N == 7 {
            return self.number() == other.number();
        }
        self.as_bytes() == other.as_bytes()
    }
}

impl<const N: usize> Eq for Short<N> {
    ghost laws = { nat_list_eq_equiv };
}

impl<const N: usize> PartialOrd for Short<N> {
    ghost partial_cmp = { λ x y. Some (slice_cmp nat_cmp x y) };

    ghost laws = { texts_po };

    fn partial_cmp(&self, other: &Self) -> Option<Ordering> {
        Some(self.cmp(other))
    }
}

impl<const N: usize> Ord for Short<N> {
    ghost cmp = { slice_cmp nat_cmp };

    ghost total = { nat_list_cmp_total };

    ghost matches_partial_cmp = { λ x y. refl };

    ghost matches_eq = { texts_ties };

    fn cmp(&self, other: &Self) -> Ordering {
        if N == 7 {
            return self.number().cmp(&other.number());
        }
        self.as_bytes().cmp(other.as_bytes())
    }
}

impl<const N: usize> Hash for Short<N> {
    ghost hash_input = { fed.slice fed.u8 };

    ghost respects_eq = { Prim.search (hashing, rules) };

    fn hash<H: Hasher>(&self, state: &mut H) {
        self.as_bytes().hash(state);
    }
}
