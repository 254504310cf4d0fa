//! What the SYSMODs that go on supersede.
ghost use Rattle.std.specs.Prelude.{IfOk, OnOk};
ghost use Rattle.std.specs.Ordering.{nat_cmp};
ghost use Rattle.std.specs.Cmp.Lexicographic.{slice_cmp};
ghost use Rattle.sorted.specs.MultiMap.{Gains, Holds, OneOf};
ghost use Rattle.sysmods.specs.Choices.{choice};
ghost use Rattle.smpe_summary.specs.Superseding.{SupersedesBy};

use fields::Id;
use sorted::multi_map::{MultiMap, add_to_all};
use std::alloc::{AllocError, Global};
use std::collections::BTreeMap;
use sysmods::VerChoice;

// Lists the SYSMOD under each id that it supersedes, directly or through others.
fn add_superseder(
    alloc: Global,
    vers: &VerChoice<'_>,
    id: Id,
    supers: &mut MultiMap<Id, Id>,
) -> Result<(), AllocError>
    ensures { OnOk result (Gains (slice_cmp nat_cmp) supers.old supers.new (SupersedesBy (choice vers.now) id)) }
{
    let superseded = vers.sup_all(alloc, id)?;
    add_to_all(alloc, supers, superseded.as_slice(), id)
}

/// For each id, those of these SYSMODs that supersede it.
pub(crate) fn superseders(
    alloc: Global,
    vers: &VerChoice<'_>,
    ids: &[Id],
) -> Result<MultiMap<Id, Id>, AllocError>
    ensures { IfOk result (λ supers. Holds (slice_cmp nat_cmp) supers
        (OneOf ids.now (SupersedesBy (choice vers.now)))) }
{
    let mut supers = BTreeMap::new(alloc);
    for id in ids {
        add_superseder(alloc, vers, *id, &mut supers)?;
    }
    Ok(supers)
}
