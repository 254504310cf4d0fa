//! The definition of a zone in the store.
ghost use Rattle.sqlite.specs.Held.{state};
ghost use Rattle.sqlite.specs.State.{HasCleanDisk};
ghost use Rattle.machine.specs.State.{State};
ghost use Rattle.store.specs.Kept.{Keeps};
ghost use Rattle.store.specs.CallEnds.{Follows};
ghost use Rattle.smpe_jobs.specs.ZoneDefinitions.{GoesDefine, EndsDefine, definition};
ghost use Rattle.smpe_jobs.specs.Ending.{KeepsClosed};

use crate::zone_error::ZoneError;
use crate::zone_faults::first_fault;
use fields::{Attest, Srel, ZoneName};
use sqlite::Alter;
use std::alloc::Global;
use store::{Change, Store};
use terms::ZoneKind;

// Adds a zone without entries. Returns `Refused` with the first that applies of `NameTaken`, `WrongRelated`,
// `OtherSrel` and `TooMany`, `Memory` if memory runs out, and `Store` with `Fault` if the database fails, or with
// `NoState` if the rows of zones stand for none.
fn add_zone<S: Alter>(
    store: &mut Store<S>,
    name: ZoneName,
    kind: ZoneKind,
    srel: Srel,
    related: Option<ZoneName>,
) -> Result<(), ZoneError>
    ensures ends { HasCleanDisk (state S.Store store.new) → (s : State) → Keeps S.Store store.old s
        → EndsDefine S.Store store.old store.new s (definition name kind srel related) result }
    ensures goes { GoesDefine S.Store store.old store.new (definition name kind srel related) result }
{
    let heads = store.zone_heads()?;
    if let Some(fault) = first_fault(heads.as_slice(), name, kind, srel, &related) {
        return Err(ZoneError::Refused(fault));
    }
    store.commit(&Change::NewZone(name, kind, srel, related))?;
    Ok(())
}

/// Adds a zone without entries. This is `add_zone` with two promises more: what it leaves follows from the store before
/// it (`follows`), and closed zones stay closed (`closed`). Returns `Refused` with the first that applies of
/// `NameTaken`, `WrongRelated`, `OtherSrel` and `TooMany`, `Memory` if memory runs out, and `Store` with `Fault` if the
/// database fails, or with `NoState` if the rows of zones stand for none.
pub fn define_zone<S: Alter>(
    store: &mut Store<S>,
    name: ZoneName,
    kind: ZoneKind,
    srel: Srel,
    related: Option<ZoneName>,
) -> Result<(), ZoneError>
    ensures follows { Follows S.Store store.old store.new }
    ensures ends { HasCleanDisk (state S.Store store.new) → (s : State) → Keeps S.Store store.old s
        → EndsDefine S.Store store.old store.new s (definition name kind srel related) result }
    ensures goes { GoesDefine S.Store store.old store.new (definition name kind srel related) result }
    ensures closed { KeepsClosed S.Store store.old store.new }
{
    // (for the clause `closed`: the name and the SREL have their forms)
    name.attest();
    srel.attest();
    add_zone(store, name, kind, srel, related)
}
