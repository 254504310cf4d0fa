//! Pairs of a SYSMOD and one that it needs.
ghost use Rattle.undo.specs.Pairs.{AreOwn};

use fields::{Id, IdList};

/// The pairs whose first id is in the list and whose second id is another one, each pair once and in order.
pub(crate) fn member_pairs(ids: &IdList, mut pairs: Vec<(Id, Id)>) -> Vec<(Id, Id)>
    ensures { AreOwn ids.now pairs.items result.items }
{
    pairs.retain(|pair| ids.contains(pair.0) && pair.0 != pair.1);
    pairs.sort_unstable();
    pairs.dedup();
    pairs
}
