//! The number of a `++VER`.
ghost use Rattle.std.specs.Prelude.{◌≡◌, ◌+◌, ◌<◌, ◌≤◌, ◌^◌};

use std::marker::Model;

/// The place of a `++VER` among those of its SYSMOD for one SREL, counted from 1. A contract sees it as that number. It
/// fits into an integer column of a table.
#[derive(Clone, Copy, Debug, PartialEq, Eq)]
pub struct VerNumber {
    value: usize,
}

impl Model for VerNumber {
    ghost use Rattle.std.specs.Prelude.{◌<◌, ◌≤◌, ◌^◌, ℕ};

    ghost Value = { ℕ };

    ghost view = { λ n. n.value };

    ghost invariant = { λ n. (1 ≤ n.value) × (n.value < 2 ^ 63) };

    ghost inverse = { λ value. record { value = value } };
}

impl VerNumber {
    /// The number of the first `++VER`.
    pub const FIRST: VerNumber = VerNumber { value: 1 };

    /// The number with this value.
    pub fn new(value: usize) -> VerNumber
        requires first { 1 ≤ value }
        requires fits { value < 2 ^ 63 }
        ensures { result ≡ value }
    {
        VerNumber { value }
    }

    /// The number of the `++VER` at this place, counted from 0.
    pub fn at_place(place: usize) -> VerNumber
        requires { place + 1 < 2 ^ 63 }
        ensures { result ≡ place + 1 }
    {
        VerNumber { value: place + 1 }
    }

    /// The number, counted from 1.
    pub fn get(self) -> usize
        ensures value { result ≡ self }
        ensures first { 1 ≤ result }
        ensures fits { result < 2 ^ 63 }
    {
        self.value
    }
}
