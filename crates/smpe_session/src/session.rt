//! What a job has in memory.
ghost use Rattle.std.specs.Prelude.{◌≡◌, None, IfOk};
ghost use Rattle.sqlite.specs.Held.{state};
ghost use Rattle.sqlite.specs.State.{HasCleanDisk};
ghost use Rattle.store_rows.specs.Reads.{OnlyReads};
ghost use Rattle.store_schema.specs.Tables.{store_schema};
ghost use Rattle.store.specs.Whole.{ShowsGlobal};
ghost use Rattle.smpe_session.specs.Sessions.{HasBegun};
ghost use Rattle.smpe_session.specs.Uses.{UsesStore};

use fields::ZoneName;
use indexmap::IndexMap;
use report::Outcome;
use sqlite::Alter;
use std::alloc::Global;
use store::{Store, StoreError};
use sysmods::GlobalZone;
use zones::Zone;

/// What a job has in memory of the tables: the global zone, its boundary, and the zones at which its commands have
/// looked so far. These are the zones that a SET has named, other zones at which an ACCEPT or RESTORE has looked, and
/// after a REJECT all zones.
#[derive(Drop)]
pub struct Session {
    pub global: GlobalZone,
    pub zones: IndexMap<ZoneName, Zone>,
    pub boundary: Option<ZoneName>,
}

/// The result of a command.
#[derive(Drop)]
pub enum Performed {
    /// Its outcome.
    Told(Outcome<'static>),
    /// It is a LIST: `Session::list` has its outcome.
    Lists { text: bool },
}

impl Session {
    /// Begins a job: it loads the global zone, and there is no boundary. Returns `Memory` if memory runs out, `Fault`
    /// if the database fails, and `NoState` if the rows stand for no state.
    pub fn begin<S: Alter>(alloc: Global, store: &mut Store<S>) -> Result<Session, StoreError>
        ensures uses { UsesStore S.Store store.old store.new (λ _. ⊥)
            (λ s ended. HasBegun S.Store store.old store.new s ended) result }
        ensures rows { HasCleanDisk (state S.Store store.new)
            → IfOk result (λ session. ShowsGlobal S.Store store.old session.global) }
        ensures reads { OnlyReads S.Store store_schema StoreError.NoState StoreError.Fault store.old store.new result }
        ensures boundary { IfOk result (λ session. session.boundary ≡ None) }
    {
        let global = store.load_global()?;
        Ok(Session {
            global,
            zones: IndexMap::new(alloc),
            boundary: None,
        })
    }
}
