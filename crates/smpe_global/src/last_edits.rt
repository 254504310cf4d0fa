//! Edits of sources that later edits replace.
ghost use Rattle.std.specs.Prelude.{IfOk};
ghost use Rattle.smpe_global.specs.LastEdits.{IsLast, MakesSame};

use fields::Id;
use std::alloc::{AllocError, Global};
use std::collections::BTreeSet;
use sysmods::GlobalEdit;

// Whether the edit is the last that replaces its SYSMOD's sources, or replaces none. `later` has the ids of the SYSMODs
// whose sources later edits replace, and the edit adds its own.
fn is_last(edit: &GlobalEdit, later: &mut BTreeSet<Id>) -> Result<bool, AllocError>
    ensures { IfOk result (λ last. IsLast edit.now later.old.keys later.new.keys last) }
{
    match edit {
        GlobalEdit::ReplaceSources(sysmod) => Ok(later.insert(sysmod.id)?),
        _ => Ok(true),
    }
}

/// The edits without those that replace sources that a later one replaces. So the store writes the sources of a SYSMOD
/// once, however many `++ASSIGN`s name it.
pub(crate) fn last_edits(
    alloc: Global,
    mut edits: Vec<GlobalEdit>,
) -> Result<Vec<GlobalEdit>, AllocError>
    ensures { IfOk result (λ last. MakesSame edits.items last.items) }
{
    let mut later = BTreeSet::new(alloc);
    let mut last = Vec::new(alloc);
    while let Some(edit) = edits.pop() {
        if is_last(&edit, &mut later)? {
            last.push(edit)?;
        }
    }
    last.reverse();
    Ok(last)
}
