//! The numbered system: candidates, which of them are eligible, and their needs.
ghost use Rattle.std.specs.Prelude.{◌≡◌, ◌<◌, ◌≤◌, ◌+◌, ◌^◌, ◌++◌, ◌∷◌, [], ◌↔◌, length, map, All, AllPairs};
ghost use Rattle.std.specs.Prelude.{IfOk, IfErr, IsErrAnd, OnOk, OnErr, IsTrue};
ghost use Rattle.solve.specs.NeedView.{numbered};
ghost use Rattle.solve.specs.System.{IsNeed, IsSystem};
ghost use Rattle.solve.specs.Refused.{IsRefused};
ghost use Rattle.solve.specs.declared.error.SystemError.TheVariants.{TooMany};

use crate::error::SystemError;
use std::alloc::{AllocError, Global};
use std::marker::Model;

/// One need of the candidate `of`: each number in `any` serves it.
#[derive(Drop)]
pub struct Need {
    pub of: u32,
    pub any: Vec<u32>,
}

// Whether each number is above the one before it.
fn rises(list: &[u32]) -> bool
    ensures { IsTrue result ↔ AllPairs (λ a b. a < b) list.now }
{
    for i in 1..list.len() {
        if list[i - 1] >= list[i] {
            return false;
        }
    }
    true
}

// Whether a system of `size` candidates admits the need.
fn is_valid_need(size: u32, of: u32, any: &[u32]) -> bool
    ensures { IsTrue result ↔ IsNeed size (record { of = of; any = any.now }) }
{
    of < size && any.iter().all(|y| *y < size) && rises(any)
}

// Whether a system of `size` candidates admits all the needs.
fn are_valid_needs(size: u32, needs: &[Need]) -> bool
    ensures { IsTrue result ↔ All (λ need. IsNeed size (numbered need)) needs.now }
{
    needs
        .iter()
        .all(|need| is_valid_need(size, need.of, &need.any))
}

/// Candidates below a number, which of them are eligible, and what they need.
#[derive(Drop)]
pub struct System {
    size: u32,
    eligible: Vec<bool>,
    needs: Vec<Need>,
}

impl Model for System {
    ghost use Rattle.solve.specs.System.{System as ASystem, IsSystem};

    ghost Value = { ASystem };

    ghost use Rattle.solve.specs.Viewed.{system};

    ghost view = { system };

    ghost invariant = { λ s. IsSystem (system s) };
}

impl System {
    /// A system with these flags and no needs yet.
    pub fn new(alloc: Global, eligible: Vec<bool>) -> Result<System, SystemError>
        ensures ok { IfOk result (λ s. s ≡ record {
          size = length eligible.items;
          eligible = eligible.items;
          needs = [];
        }) }
        ensures err { IfErr result (IsRefused (length eligible.items) []) }
    {
        System::from_needs(eligible, Vec::new(alloc))
    }

    /// A system with these flags and needs. Returns `TooMany` if there are more flags than a `u32` counts, and
    /// `BadNeed` if one of the needs is not valid.
    pub fn from_needs(eligible: Vec<bool>, needs: Vec<Need>) -> Result<System, SystemError>
        ensures ok { IfOk result (λ s. s ≡ record {
          size = length eligible.items;
          eligible = eligible.items;
          needs = map numbered needs.items;
        }) }
        ensures err { IfErr result (IsRefused (length eligible.items) (map numbered needs.items)) }
    {
        let Ok(size) = u32::try_from(eligible.len()) else {
            return Err(SystemError::TooMany);
        };
        if !are_valid_needs(size, &needs) {
            return Err(SystemError::BadNeed);
        }
        Ok(System {
            size,
            eligible,
            needs,
        })
    }

    /// How many candidates there are.
    pub fn size(&self) -> u32
        ensures size { result ≡ self.now.size }
        ensures valid { IsSystem self.now }
    {
        self.size
    }

    /// Which candidates are eligible.
    pub fn eligible(&self) -> &[bool]
        ensures flags { result.now ≡ self.now.eligible }
        ensures len { length result.now ≡ self.now.size }
    {
        &self.eligible
    }

    /// The needs.
    pub fn needs(&self) -> &[Need]
        ensures needs { map numbered result.now ≡ self.now.needs }
        ensures valid { All (λ need. IsNeed self.now.size (numbered need)) result.now }
    {
        &self.needs
    }

    /// Adds a candidate, the next number, with no need yet. An error changes nothing.
    pub fn add_candidate(&mut self, eligible: bool) -> Result<(), SystemError>
        ensures ok { OnOk result (self.new ≡ record {
          size = self.old.size + 1;
          eligible = self.old.eligible ++ eligible ∷ [];
          needs = self.old.needs;
        }) }
        ensures err { OnErr result (self.new ≡ self.old) }
        ensures many { IsErrAnd result (λ e. e ≡ TooMany) ↔ (2 ^ 32 ≤ self.old.size + 1) }
    {
        let Some(size) = self.size.checked_add(1) else {
            return Err(SystemError::TooMany);
        };
        self.eligible.push(eligible)?;
        self.size = size;
        Ok(())
    }

    /// Whether a need may be added: it is about candidates, and its list rises.
    pub fn admits(&self, of: u32, any: &[u32]) -> bool
        ensures { IsTrue result ↔ IsNeed self.now.size (record { of = of; any = any.now }) }
    {
        is_valid_need(self.size, of, any)
    }

    /// Adds a need; `admits` tests whether it may. An error changes nothing.
    pub fn add_need(&mut self, need: Need) -> Result<(), AllocError>
        requires { IsNeed self.old.size (numbered need) }
        ensures ok { OnOk result (self.new
            ≡ record self.old { needs = self.old.needs ++ numbered need ∷ [] }) }
        ensures err { OnErr result (self.new ≡ self.old) }
    {
        self.needs.push(need)?;
        Ok(())
    }
}
