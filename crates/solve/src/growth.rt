//! The least set that contains its start and is closed under rules.
ghost use Rattle.std.specs.Prelude.{◌≡◌, ◌++◌, ◌∷◌, [], ◌↔◌, IfOk, OnOk, OnErr, IsTrue, length, map};
ghost use Rattle.std.specs.Prelude.{not};
ghost use Rattle.solve.specs.Least.{IsRule, IsLeast};
ghost use Rattle.solve.specs.Rules.{as_rule};

use crate::error::SystemError;
use crate::solver::Solver;
use crate::system::{Need, System};
use crate::worklist::Worklist;
use std::alloc::{AllocError, Global};
use std::marker::Model;

/// Once a set contains all of `these`, it contains `that`.
#[derive(Drop)]
pub struct Rule {
    pub these: Vec<u32>,
    pub that: u32,
}

/// The numbers with which a set starts, and the rules by which it grows.
///
/// The complement of the least such set is a greatest one: a number is eligible if the set does not start with it, and
/// stays out while one of `these` is out in each rule for it.
#[derive(Drop)]
pub struct Rules {
    outside: System,
}

impl Model for Rules {
    ghost use Rattle.solve.specs.System.{IsSystem};
    ghost use Rattle.solve.specs.Least.{Growth, growth_of};

    ghost Value = { Growth };

    ghost view = { λ r. growth_of r.outside };

    ghost invariant = { λ r. IsSystem r.outside };
}

// Each flag turned into its opposite.
fn negate_flags(alloc: Global, flags: &[bool]) -> Result<Vec<bool>, AllocError>
    ensures { IfOk result (λ turned. turned.items ≡ map not flags.now) }
{
    flags.iter().map(|flag| !*flag).collect(alloc)
}

impl Rules {
    /// A set of numbers below `start.len()` that starts with the flagged ones, and no rules yet.
    pub fn new(alloc: Global, start: &[bool]) -> Result<Rules, SystemError>
        ensures { IfOk result (λ rules. rules ≡ record { start = start.now; rules = [] }) }
    {
        let eligible = negate_flags(alloc, start)?;
        let outside = System::new(alloc, eligible)?;
        Ok(Rules { outside })
    }

    /// How many numbers there are.
    pub fn size(&self) -> u32
        ensures { result ≡ length self.now.start }
    {
        self.outside.size()
    }

    /// Adds the next number, and whether the set starts with it. An error changes nothing.
    pub fn add_number(&mut self, starts: bool) -> Result<(), SystemError>
        ensures ok { OnOk result (self.new ≡ record self.old { start = self.old.start ++ starts ∷ [] }) }
        ensures err { OnErr result (self.new ≡ self.old) }
    {
        self.outside.add_candidate(!starts)
    }

    /// Whether a rule may be added: it is about numbers below `size`, and its list rises.
    pub fn admits(&self, these: &[u32], that: u32) -> bool
        ensures { IsTrue result ↔ IsRule (length self.now.start) (record { these = these.now; that = that }) }
    {
        self.outside.admits(that, these)
    }

    /// Adds a rule; `admits` tests whether it may. An error changes nothing.
    pub fn add_rule(&mut self, rule: Rule) -> Result<(), AllocError>
        requires { IsRule (length self.old.start) (as_rule rule) }
        ensures ok { OnOk result (self.new ≡ record self.old { rules = self.old.rules ++ as_rule rule ∷ [] }) }
        ensures err { OnErr result (self.new ≡ self.old) }
    {
        self.outside.add_need(Need {
            of: rule.that,
            any: rule.these,
        })
    }
}

/// The least set that contains its start and is closed under the rules.
pub fn least(alloc: Global, rules: &Rules) -> Result<Vec<bool>, AllocError>
    ensures { IfOk result (λ set. IsLeast rules.now set.items) }
{
    let out = Worklist.greatest(alloc, &rules.outside)?;
    negate_flags(alloc, out.flags())
}
