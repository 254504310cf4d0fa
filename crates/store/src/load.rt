//! The contents of a store's tables, read back.

ghost use Rattle.std.specs.Prelude.{◌≡◌, map, IfOk};
ghost use Rattle.sqlite.specs.Held.{state};
ghost use Rattle.sqlite.specs.State.{HasCleanDisk};
ghost use Rattle.store_zones.specs.Found.{zone_in, head_of};
ghost use Rattle.store.specs.Loads.{Loads, store_error, told};
ghost use Rattle.store.specs.View.{ShowsCommitted};
ghost use Rattle.store.specs.Whole.{ShowsGlobal, ShowsHeads, ShowsZone};

use crate::global_load::load_global;
use crate::open::Store;
use fields::ZoneName;
use sqlite::Alter;
use store_rows::ReadError;
use store_schema::{Schema, StoreError};
use store_zones::ZoneHead;
use sysmods::GlobalZone;
use zones_maps::Zone;

// The store's error for a load that failed: `NoState` for `BadRow`, as rows that stand for nothing stand for no state.
fn store_error(error: ReadError) -> StoreError
    ensures { result ≡ store_error error }
{
    match error {
        ReadError::Memory => StoreError::Memory,
        ReadError::Fault => StoreError::Fault,
        ReadError::BadRow => StoreError::NoState,
    }
}

/// What was loaded, or the store's error: `Memory` and `Fault` stay, and `BadRow` becomes `NoState`.
pub fn map_read_error<T>(read: Result<T, ReadError>) -> Result<T, StoreError>
    ensures { result ≡ told read }
{
    match read {
        Ok(value) => Ok(value),
        Err(error) => Err(store_error(error)),
    }
}

impl<S: Alter> Store<S> {
    /// The global zone, even if the rows of zones stand for none. Returns `Memory` if memory runs out, `Fault` if the
    /// database fails, and `NoState` if the rows of the global zone stand for none.
    pub fn load_global(&mut self) -> Result<GlobalZone, StoreError>
        ensures loads { Loads S.Store self.old self.new (λ i global. global ≡ i.global) result }
        ensures rows { HasCleanDisk (state S.Store self.new) → IfOk result (ShowsGlobal S.Store self.old) }
        ensures shown { ShowsCommitted S.Store self.old }
    {
        // Outside a transaction, the connection shows what it last committed, which is a database.
        prove!(self.conn.is_autocommit());
        let _ = self.conn.schema();
        map_read_error(load_global(self.alloc, &mut self.conn))
    }

    /// The zone of this name, or `None` if there is none. Returns `Memory` if memory runs out, `Fault` if the database
    /// fails, and `NoState` if its rows stand for no zone.
    pub fn load_zone(&mut self, name: ZoneName) -> Result<Option<Zone>, StoreError>
        ensures loads { Loads S.Store self.old self.new (λ i zone. zone ≡ zone_in i name) result }
        ensures rows { HasCleanDisk (state S.Store self.new) → IfOk result (ShowsZone S.Store self.old name) }
    {
        // Outside a transaction, the connection shows what it last committed.
        prove!(self.conn.is_autocommit());
        map_read_error(store_zones::load_zone(self.alloc, &mut self.conn, Schema::Third, name))
    }

    /// All zones without their entries and elements, rising by name. Returns `Memory` if memory runs out, `Fault` if
    /// the database fails, and `NoState` if the rows stand for no zones that are related as they must be.
    pub fn zone_heads(&mut self) -> Result<Vec<ZoneHead>, StoreError>
        ensures loads { Loads S.Store self.old self.new (λ i heads. heads.items ≡ map head_of i.zones) result }
        ensures rows { HasCleanDisk (state S.Store self.new)
            → IfOk result (λ heads. ShowsHeads S.Store self.old heads.items) }
    {
        // Outside a transaction, the connection shows what it last committed.
        prove!(self.conn.is_autocommit());
        map_read_error(store_zones::zone_heads(self.alloc, &mut self.conn))
    }

    /// The names of all zones, rising. Returns `Memory` if memory runs out, `Fault` if the database fails, and
    /// `NoState` if the rows stand for no zones that are related as they must be.
    pub fn zone_names(&mut self) -> Result<Vec<ZoneName>, StoreError>
        ensures { Loads S.Store self.old self.new (λ i names. names.items ≡ map (λ z. z.name) i.zones) result }
    {
        // Outside a transaction, the connection shows what it last committed.
        prove!(self.conn.is_autocommit());
        map_read_error(store_zones::zone_names(self.alloc, &mut self.conn))
    }
}
