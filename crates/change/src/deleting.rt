//! What DELETE takes out of a zone, and which SYSMOD has deleted an id.
ghost use Rattle.std.specs.Prelude.{◌≡◌, IfOk};
ghost use Rattle.terms.specs.Lookups.{IsZone};
ghost use Rattle.zones.specs.Gone.{left_of};
ghost use Rattle.change.specs.Deleting.{AreDeletions, first_deleter, delby_left};
ghost use Rattle.change.specs.Entries.{old_entry};

use fields::{Id, IdList};
use std::alloc::{AllocError, Global};
use zones::{Entry, TakesOut, ZoneLess, entry_less};

/// Kept SYSMODs, and the zone less what they name in DELETE by the `++VER`s that count.
#[derive(Clone, Copy)]
pub(crate) struct Deleting<'a, 'b> {
    pub(crate) left: ZoneLess<'a, 'b>,
    pub(crate) kept: &'a [Id],
}

impl<'a, 'b> Deleting<'a, 'b> {
    /// The DELBY of the id after the install: the one that the zone has, otherwise the first kept SYSMOD that
    /// deletes the id.
    pub(crate) fn delby(&self, id: Id) -> Option<Id>
        requires { AreDeletions self.now }
        ensures { result ≡ delby_left self.now id }
    {
        match self.left.zone.entry(id).and_then(|entry| entry.delby) {
            Some(deleter) => Some(deleter),
            None => self.first_deleter(id),
        }
    }

    // For a function that DELETE takes out, the first kept SYSMOD whose DELETE names an id of the function's chain. For
    // any other id, the first kept SYSMOD whose DELETE names the id.
    fn first_deleter(&self, id: Id) -> Option<Id>
        requires { AreDeletions self.now }
        ensures { result ≡ first_deleter self.now id }
    {
        let vers = self.left.vers;
        if vers.global().is_function(id) && self.left.takes_out(id) {
            return self
                .kept
                .iter()
                .copied()
                .find(|k| vers.chain_contains_any(id, vers.del(*k)));
        }
        // Few ids are ever named in DELETE, so this spares the search.
        if !self.left.dels.contains(&id) {
            return None;
        }
        self.kept
            .iter()
            .copied()
            .find(|k| vers.del(*k).contains(&id))
    }
}

/// The id's entry in the zone less the deletions, or an empty entry if the zone has none for the id.
pub(crate) fn entry_left(alloc: Global, left: &ZoneLess, id: Id) -> Result<Entry, AllocError>
    ensures entry { IfOk result (λ e. e ≡ old_entry (left_of left.now) id) }
    ensures form { IsZone left.now.zone.now }
{
    match left.zone.entry(id) {
        Some(entry) => entry_less(alloc, left, entry),
        None => Ok(Entry {
            id,
            applied: None,
            supby: IdList::new(alloc),
            delby: None,
            waived: IdList::new(alloc),
        }),
    }
}
