//! Which SYSMODs change each element.
ghost use Rattle.std.specs.Prelude.{IfOk};
ghost use Rattle.zones.specs.Grouping.{AreByElement};

use fields::{Attest, Id, Name};
use sorted::multi_map::{MultiMap, add};
use std::alloc::{AllocError, Global};
use std::collections::BTreeMap;
use sysmods::GlobalZone;
use terms::ElemType;

/// The elements that these SYSMODs change, each with those of them that change it, in their order.
pub fn changers_by_element(
    alloc: Global,
    global: &GlobalZone,
    ids: &[Id],
) -> Result<MultiMap<(ElemType, Name), Id>, AllocError>
    ensures { IfOk result (AreByElement global.now ids.now) }
{
    global.attest();
    let mut changers = BTreeMap::new(alloc);
    for id in ids {
        let changes = global.changes_of(*id);
        for change in changes {
            add(alloc, &mut changers, (change.elem_type, change.name), *id)?;
        }
    }
    Ok(changers)
}
