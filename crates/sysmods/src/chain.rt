//! The chain of an id.
ghost use Rattle.std.specs.Prelude.{◌≡◌};
ghost use Rattle.std.specs.Iterator.{YieldsFirst, item_count};
ghost use Rattle.sysmods.specs.Choices.{choice};
ghost use Rattle.terms.specs.Over.{chain};

use crate::ver_choice::VerChoice;
use fields::{Attest, Id};
use std::marker::Model;

/// The walk from an id to its FMID, and on from FMID to FMID, by the `++VER`s that count. A contract sees it as the
/// list of the remaining ids.
#[derive(Drop)]
pub struct Chain<'a, 'b> {
    vers: &'a VerChoice<'b>,
    next: Option<Id>,
    steps_left: usize,
}

impl<'a, 'b> Model for Chain<'a, 'b> {
    ghost use Rattle.std.specs.Prelude.{List};
    ghost use Rattle.terms.specs.Types as terms;

    ghost Value = { List terms.Id };

    ghost use Rattle.sysmods.specs.Choices.{choice};
    ghost use Rattle.terms.specs.Over.{chain_from};

    ghost view = { λ a. chain_from a.steps_left (choice a.vers.now) a.next };
}

impl<'a, 'b> Chain<'a, 'b> {
    /// The walk that begins at the id. It takes at most one step more than there are SYSMODs.
    pub(crate) fn new(vers: &'a VerChoice<'b>, id: Id) -> Chain<'a, 'b>
        ensures { result ≡ chain vers.now.global.now (choice vers.now) id }
    {
        // So adding 1 to the number of SYSMODs does not overflow.
        vers.global().attest();
        Chain {
            vers,
            next: Some(id),
            steps_left: vers.global().len() + 1,
        }
    }
}

impl<'a, 'b> Iterator for Chain<'a, 'b> {
    type Item = Id;

    ghost next_gives = { YieldsFirst (λ s. s) };

    ghost remaining = { item_count (λ s. s) };

    fn next(&mut self) -> Option<Id> {
        if self.steps_left == 0 {
            return None;
        }
        let id = self.next?;
        self.steps_left -= 1;
        self.next = self.vers.fmid(id);
        Some(id)
    }
}
