//! Going over holds.
ghost use Rattle.std.specs.Prelude.{◌≡◌, length};
ghost use Rattle.std.specs.Iterator.{at_most};
ghost use Rattle.std.specs.Map.{values_of};
ghost use Rattle.std.specs.Map.Iter.{TakesFirst, deref};

use crate::key::HoldKey;
use std::collections::btree_map::Range;
use std::marker::Model;
use sysmods_values::Hold;

/// Holds in the order of their keys. A contract sees it as the list of the remaining holds.
#[derive(Drop)]
pub struct Iter<'a> {
    entries: Range<'a, HoldKey, Hold>,
}

impl<'a> Model for Iter<'a> {
    ghost use Rattle.std.specs.Prelude.{List};
    ghost use Rattle.std.specs.Map.{values_of};
    ghost use Rattle.terms.specs.Types as terms;

    ghost Value = { List terms.Hold };

    ghost view = { λ a. values_of a.entries };
}

impl<'a> Iter<'a> {
    /// The holds of these entries.
    pub(crate) fn new(entries: Range<'a, HoldKey, Hold>) -> Iter<'a>
        ensures { result ≡ values_of entries.entry }
    {
        Iter { entries }
    }
}

impl<'a> Iterator for Iter<'a> {
    type Item = &'a Hold;

    ghost next_gives = { TakesFirst deref };

    ghost remaining = { λ s. at_most (length s) };

    fn next(&mut self) -> Option<&'a Hold> {
        match self.entries.next() {
            Some((_, hold)) => Some(hold),
            None => None,
        }
    }
}
