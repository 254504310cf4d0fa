//! The edits that write a received SYSMOD into the tables.
ghost use Rattle.std.specs.Prelude.{IfOk};
ghost use Rattle.smpe_global.specs.Edits.{AreEditsOf};

use sorted::TryClone;
use std::alloc::{AllocError, Global};
use sysmods::GlobalEdit;
use sysmods_values::Sysmod;

/// The edits that write a received SYSMOD and its holds. They do not carry its statements, which the store finds in the
/// new global zone.
pub(crate) fn sysmod_edits(alloc: Global, sysmod: &Sysmod) -> Result<Vec<GlobalEdit>, AllocError>
    ensures { IfOk result (λ edits. AreEditsOf sysmod.now edits.items) }
{
    let mut edits = Vec::new(alloc);
    let sources = Vec::from_slice(alloc, sysmod.sources.as_slice())?;
    edits.push(GlobalEdit::InsertSysmod(sysmod.id, sources))?;
    let holds = sysmod.holds.as_slice();
    for hold in holds {
        edits.push(GlobalEdit::PutHold(hold.try_clone(alloc)?))?;
    }
    Ok(edits)
}
