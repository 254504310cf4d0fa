//! The SYSMODs of the stream, and the `++VER` of each that counts.
ghost use Rattle.std.specs.Prelude.{◌≡◌, ◌↔◌, List, ℕ, map, is_some, Contains, IfOk};
ghost use Rattle.terms.specs.Stream.{IsInStream, ver_for};
ghost use Rattle.sysmods.specs.Choices.{choice};

use fields::{Id, Srel};
use sorted::Table;
use std::alloc::{AllocError, Global};
use sysmods::{GlobalZone, VerChoice};

/// The first `++VER` of each SYSMOD for the SREL.
pub(crate) fn first_vers<'a>(alloc: Global, global: &'a GlobalZone, srel: Srel) -> VerChoice<'a>
    ensures global { result.global.now ≡ global.now }
    ensures first { choice result ≡ ver_for global.now srel }
{
    let kept = Table::new(alloc);
    let fitting = Table::new(alloc);
    VerChoice::new(global, srel, kept, fitting)
}

/// Whether the id is a SYSMOD of the stream.
pub(crate) fn is_in_stream(vers: &VerChoice<'_>, id: Id) -> bool
    ensures { result ≡ is_some (choice vers.now id) }
{
    vers.ver(id).is_some()
}

// The ids of all received SYSMODs.
fn received_ids(alloc: Global, global: &GlobalZone) -> Result<Vec<Id>, AllocError>
    ensures { IfOk result (λ ids. ids.items ≡ map (λ s. s.id) global.now.sysmods) }
{
    let mut ids = Vec::new(alloc);
    for sysmod in global.sysmods() {
        ids.push(sysmod.id)?;
    }
    Ok(ids)
}

/// The SYSMODs of the stream, rising.
pub(crate) fn stream_ids(alloc: Global, vers: &VerChoice<'_>) -> Result<Vec<Id>, AllocError>
    ensures { IfOk result (λ ids. (x : List ℕ) → Contains ids.items x ↔ IsInStream (choice vers.now) x) }
{
    let mut ids = received_ids(alloc, vers.global())?;
    ids.retain(|id| is_in_stream(vers, *id));
    Ok(ids)
}
