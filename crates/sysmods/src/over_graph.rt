//! Which ids lead to which by PRE, SUP and FMID, in numbers.
ghost use Rattle.std.specs.Prelude.{◌≡◌, ◌↔◌, [], IsTrue, IfOk};
ghost use Rattle.indexmap.specs.IndexMap.{keys, values};
ghost use Rattle.terms.specs.Over.{IsOver};
ghost use Rattle.sysmods.specs.Choices.{choice};
ghost use Rattle.sysmods.specs.Graphs.{AreNumbers, IsGraph};

use crate::descent::leads_down;
use crate::ver_choice::VerChoice;
use fields::Id;
use indexmap::IndexMap;
use std::alloc::{AllocError, Global};

/// Ids in an order such that each comes after all that it names. An id's number is its place in this order, and its
/// value has the numbers of the ids that it names. So a search compares no ids, and goes from each number to lower
/// ones.
#[derive(Drop)]
pub(crate) struct OverGraph {
    nodes: IndexMap<Id, Vec<usize>>,
}

/// The numbers of some ids, or the first of these ids that has no number.
#[derive(Drop)]
enum NumbersFound {
    Known(Vec<usize>),
    Missing(Id),
}

// The numbers of these ids, or the first of them that has none.
fn find_numbers(
    alloc: Global,
    nodes: &IndexMap<Id, Vec<usize>>,
    ids: &[Id],
) -> Result<NumbersFound, AllocError>
    ensures { IfOk result (AreNumbers (keys nodes.now) ids.now) }
{
    let mut numbers = Vec::with_capacity(alloc, ids.len())?;
    for id in ids {
        let Some(number) = nodes.get_index_of(id) else {
            return Ok(NumbersFound::Missing(*id));
        };
        numbers.push(number)?;
    }
    Ok(NumbersFound::Known(numbers))
}

impl OverGraph {
    /// A graph without ids.
    pub(crate) fn new(alloc: Global) -> Self
        ensures { result.nodes.entries ≡ [] }
    {
        OverGraph {
            nodes: IndexMap::new(alloc),
        }
    }

    // Gives the id a number, if it has none and all ids that it names have one. If one of these is missing, the call
    // returns it, and it has to be added before.
    fn add_unless_missing(
        &mut self,
        alloc: Global,
        vers: &VerChoice<'_>,
        id: Id,
    ) -> Result<Option<Id>, AllocError>
        requires { IsGraph (choice vers.now) (keys self.old.nodes) (values self.old.nodes) }
        ensures { IsGraph (choice vers.now) (keys self.new.nodes) (values self.new.nodes) }
    {
        if self.nodes.contains_key(&id) {
            return Ok(None);
        }
        let mut named = Vec::new(alloc);
        vers.append_named(id, &mut named)?;
        match find_numbers(alloc, &self.nodes, named.as_slice())? {
            NumbersFound::Known(numbers) => {
                drop(self.nodes.insert(id, numbers)?);
                Ok(None)
            }
            NumbersFound::Missing(other) => Ok(Some(other)),
        }
    }

    /// Gives the id a number, after all ids to which it leads. The path from the id to one without a number has no id
    /// twice, because SYSMODs make no loop. No clause says that the id has a number afterwards, so `over` searches
    /// without numbers if it has none.
    pub(crate) fn add_with_named(
        &mut self,
        alloc: Global,
        vers: &VerChoice<'_>,
        id: Id,
    ) -> Result<(), AllocError>
        requires { IsGraph (choice vers.now) (keys self.old.nodes) (values self.old.nodes) }
        ensures { IsGraph (choice vers.now) (keys self.new.nodes) (values self.new.nodes) }
    {
        let mut path = vec![in alloc; id]?;
        // A path is never this long. The bound shows that the loop ends.
        'path: for _ in 0..u64::MAX {
            let Some(last) = path.last() else {
                break;
            };
            match self.add_unless_missing(alloc, vers, *last)? {
                Some(named) => path.push(named)?,
                None => drop(path.pop()),
            }
        }
        Ok(())
    }

    /// Whether x is over z. It searches the numbers if x has one, which it has after `add_with_named`, and otherwise
    /// the ids.
    pub(crate) fn over(
        &self,
        alloc: Global,
        vers: &VerChoice<'_>,
        x: Id,
        z: Id,
    ) -> Result<bool, AllocError>
        requires { IsGraph (choice vers.now) (keys self.now.nodes) (values self.now.nodes) }
        ensures { IfOk result (λ over. IsTrue over ↔ IsOver (choice vers.now) x z) }
    {
        let Some(high) = self.nodes.get_index_of(&x) else {
            return vers.over(alloc, x, z);
        };
        let Some(low) = self.nodes.get_index_of(&z) else {
            return Ok(false);
        };
        if high <= low {
            return Ok(false);
        }
        leads_down(alloc, self.nodes.values().as_slice(), high, low)
    }
}
