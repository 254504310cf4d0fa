//! Pairs of ids, chosen or grouped by their first ids.
ghost use Rattle.std.specs.Prelude.{◌≡◌, IfOk, filter};
ghost use Rattle.terms.specs.Lookups.{is_in};
ghost use Rattle.change.specs.Pairs.{AreGrouped};

use fields::{Id, IdList};
use sorted::multi_map::{MultiMap, add};
use std::alloc::{AllocError, Global};
use std::collections::BTreeMap;

/// The pairs whose first id is one of these.
pub(crate) fn pairs_with_first_in(
    alloc: Global,
    ids: &IdList,
    pairs: &[(Id, Id)],
) -> Result<Vec<(Id, Id)>, AllocError>
    ensures { IfOk result (λ found. found.items ≡ filter (λ p. is_in ids.now p.0) pairs.now) }
{
    pairs
        .iter()
        .filter(|pair| ids.contains(pair.0))
        .copied()
        .collect(alloc)
}

/// For each first id, the list of its second ids.
pub(crate) fn group_pairs(alloc: Global, pairs: &[(Id, Id)]) -> Result<MultiMap<Id, Id>, AllocError>
    ensures { IfOk result (AreGrouped pairs.now) }
{
    let mut groups = BTreeMap::new(alloc);
    for pair in pairs {
        add(alloc, &mut groups, pair.0, pair.1)?;
    }
    Ok(groups)
}
