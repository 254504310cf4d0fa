//! All rows of a schema's tables, read to make sure that they stand for a state. Each call returns `BadRow` if the rows
//! that it reads stand for none, `Memory` if memory runs out, and `Fault` if the disk fails or the tables are others.

ghost use Rattle.std.specs.Prelude.{◌≡◌, List, Some, OnOk, IfOk, IsErrOf, IsSome, IsTrue};
ghost use Rattle.sqlite.specs.Held.{state};
ghost use Rattle.sqlite.specs.State.{HasCleanDisk};
ghost use Rattle.store_rows.specs.Reads.{OnlyReads};
ghost use Rattle.store_rows.specs.Rows.{Contents, HasContents};
ghost use Rattle.store_schema.specs.Earlier.{schema_under, StandsUnder};
ghost use Rattle.store_schema.specs.Inventory.{Inventory};
ghost use Rattle.store_migration.specs.TakenOver.{heads_under};
ghost use Rattle.store_zones.specs.Found.{zone_in};
ghost use Rattle.store_zones.specs.Held.{HoldsUnder};
ghost use Rattle.terms.specs.Types as terms;
ghost use Rattle.store_migration.specs.Checked.{Checks, ChecksZones};
ghost use Rattle.store.specs.Whole.{HoldsGlobal, HoldsZones};

use crate::head::{Head, heads_with_moving_sources};
use fields::ZoneName;
use sqlite::{Alter, Connection};
use std::alloc::Global;
use store::{assemble_global, load_global_lists};
use store_rows::ReadError;
use store_schema::Schema;
use store_zones::{ZoneHead, load_zone, zone_heads};

// Reads the whole global zone, and returns the heads of the SYSMODs whose sources move. Returns `BadRow` if the rows
// stand for no global zone.
fn check_global<S: Alter>(
    alloc: Global,
    conn: &mut Connection<S>,
    schema: Schema,
) -> Result<Vec<Head>, ReadError>
    ensures found { HasCleanDisk (state S.Store conn.new) → (i : Inventory)
        → StandsUnder schema i (state S.Store conn.old).now
        → IfOk result (λ heads. heads.items ≡ heads_under schema i) }
    ensures none { HasCleanDisk (state S.Store conn.new) → IsErrOf result ReadError.BadRow → (i : Inventory)
        → ¬ StandsUnder schema i (state S.Store conn.old).now }
    ensures rows { HasCleanDisk (state S.Store conn.new) → OnOk result ((contents : Contents)
        → HasContents (schema_under schema) contents (state S.Store conn.old).now
        → (global : terms.Global) × HoldsGlobal schema contents global) }
    ensures reads { OnlyReads S.Store (schema_under schema) ReadError.BadRow ReadError.Fault conn.old conn.new result }
{
    let lists = load_global_lists(alloc, conn, schema)?;
    let heads = heads_with_moving_sources(alloc, schema, lists.sysmods.as_slice())?;
    assemble_global(alloc, lists)?;
    Ok(heads)
}

// Reads the zone of this name. Returns `BadRow` if there is none, or if its rows stand for no zone.
fn check_zone<S: Alter>(
    alloc: Global,
    conn: &mut Connection<S>,
    schema: Schema,
    name: ZoneName,
) -> Result<(), ReadError>
    ensures none { HasCleanDisk (state S.Store conn.new) → IsErrOf result ReadError.BadRow → (i : Inventory)
        → IsSome (zone_in i name) → ¬ StandsUnder schema i (state S.Store conn.old).now }
    ensures rows { HasCleanDisk (state S.Store conn.new) → OnOk result ((contents : Contents)
        → HasContents (schema_under schema) contents (state S.Store conn.old).now
        → (zone : terms.Zone) × HoldsUnder schema contents name (Some zone)) }
    ensures reads { OnlyReads S.Store (schema_under schema) ReadError.BadRow ReadError.Fault conn.old conn.new result }
{
    match load_zone(alloc, conn, schema, name)? {
        Some(_zone) => Ok(()),
        None => Err(ReadError::BadRow),
    }
}

// Reads the zone of each head, one after the other. Returns `BadRow` if the rows of one stand for no zone.
fn check_each_zone<S: Alter>(
    alloc: Global,
    conn: &mut Connection<S>,
    schema: Schema,
    heads: &[ZoneHead],
) -> Result<(), ReadError>
    ensures { (HasCleanDisk (state S.Store conn.old) → IsTrue (state S.Store conn.old).is_open)
        → ChecksZones S.Store schema heads.now conn.old conn.new result }
{
    for head in heads {
        check_zone(alloc, conn, schema, head.name)?;
    }
    Ok(())
}

// Loads the heads of all zones, and reads the zone of each. Returns `BadRow` if the rows stand for no zones.
fn check_zones<S: Alter>(
    alloc: Global,
    conn: &mut Connection<S>,
    schema: Schema,
) -> Result<(), ReadError>
    ensures none { HasCleanDisk (state S.Store conn.new) → IsErrOf result ReadError.BadRow → (i : Inventory)
        → ¬ StandsUnder schema i (state S.Store conn.old).now }
    ensures rows { HasCleanDisk (state S.Store conn.new) → OnOk result ((contents : Contents)
        → HasContents (schema_under schema) contents (state S.Store conn.old).now
        → (zones : List terms.NamedZone) × HoldsZones schema contents zones) }
    ensures reads { OnlyReads S.Store (schema_under schema) ReadError.BadRow ReadError.Fault conn.old conn.new result }
{
    let heads = zone_heads(alloc, conn)?;
    check_each_zone(alloc, conn, schema, heads.as_slice())
}

/// Reads all rows of the schema's tables, and returns the heads of the SYSMODs whose sources move. Returns `BadRow` if
/// the rows stand for no state, `Memory` if memory runs out, and `Fault` if the disk fails or the tables are others.
pub(crate) fn check_all<S: Alter>(
    alloc: Global,
    conn: &mut Connection<S>,
    schema: Schema,
) -> Result<Vec<Head>, ReadError>
    ensures { Checks S.Store schema conn.old conn.new result }
{
    let heads = check_global(alloc, conn, schema)?;
    check_zones(alloc, conn, schema)?;
    Ok(heads)
}
