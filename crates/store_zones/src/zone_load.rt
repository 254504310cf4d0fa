//! A zone, from the rows of its tables that name it.

ghost use Rattle.std.specs.Prelude.{◌≡◌, Some, List, Option, IfOk, IsErrOf};
ghost use Rattle.sqlite.specs.Held.{state};
ghost use Rattle.sqlite.specs.State.{HasCleanDisk};
ghost use Rattle.store_rows.specs.Reads.{OnlyReads};
ghost use Rattle.store_rows.specs.Rows.{Contents, HasContents};
ghost use Rattle.store_schema.specs.Earlier.{schema_under, StandsUnder};
ghost use Rattle.store_schema.specs.Inventory.{Inventory};
ghost use Rattle.store_zones.specs.Found.{zone_in, MayBeZone};
ghost use Rattle.store_zones.specs.Held.{HoldsHead, HoldsNumbered, HoldsUnder};
ghost use Rattle.terms.specs.Types.{Entry as EntryTerm, Zone as ZoneTerm, a_zone};

use crate::head::{ZoneHead, load_zone_head};
use crate::installed_vers::EntryNumber;
use crate::items::load_items;
use crate::numbering::number_entries;
use fields::ZoneName;
use sorted::Table;
use sqlite::{Alter, Connection};
use std::alloc::Global;
use store_rows::ReadError;
use store_schema::Schema;
use zones_maps::{Element, Entry, Zone};

// The zone of these parts. Returns `BadRow` if no zone may have them together.
fn assemble_zone(
    head: ZoneHead,
    entries: Table<Entry>,
    elements: Table<Element>,
) -> Result<Zone, ReadError>
    ensures same { IfOk result (λ zone. zone ≡ a_zone head.kind head.srel head.related entries elements) }
    ensures may_be { IfOk result (λ zone. MayBeZone head.kind head.related entries) }
    ensures none { IsErrOf result ReadError.BadRow → ¬ MayBeZone head.kind head.related entries }
    ensures fault { IsErrOf result ReadError.Fault → ⊥ }
{
    let zone = Zone::from_tables(head.kind, head.srel, head.related, entries, elements);
    zone.ok_or(ReadError::BadRow)
}

// The entries of the zone of this name, with the numbers of the `++VER`s that installed them, from the tables of this
// schema. Earlier schemas have no numbers, so all are 1.
fn load_entries<S: Alter>(
    alloc: Global,
    conn: &mut Connection<S>,
    schema: Schema,
    name: &ZoneName,
) -> Result<Table<Entry>, ReadError>
    ensures rows { HasCleanDisk (state S.Store conn.new) → (contents : Contents)
        → HasContents (schema_under schema) contents (state S.Store conn.old).now
        → IfOk result (HoldsNumbered schema contents name.now) }
    ensures no_rows { HasCleanDisk (state S.Store conn.new) → IsErrOf result ReadError.BadRow → (contents : Contents)
        → HasContents (schema_under schema) contents (state S.Store conn.old).now
        → (entries : List EntryTerm) → ¬ HoldsNumbered schema contents name.now entries }
    ensures reads { OnlyReads S.Store (schema_under schema) ReadError.BadRow ReadError.Fault conn.old conn.new result }
{
    let entries = load_items::<S, Entry>(alloc, conn, name)?;
    match schema {
        Schema::First | Schema::Second => Ok(entries),
        Schema::Third => {
            let numbers = load_items::<S, EntryNumber>(alloc, conn, name)?;
            number_entries(alloc, entries, numbers)
        }
    }
}

// The zone with this head, from the tables of this schema.
fn load_rest_of_zone<S: Alter>(
    alloc: Global,
    conn: &mut Connection<S>,
    schema: Schema,
    head: ZoneHead,
) -> Result<Zone, ReadError>
    ensures rows { HasCleanDisk (state S.Store conn.new) → (contents : Contents)
        → HasContents (schema_under schema) contents (state S.Store conn.old).now
        → HoldsHead contents head.name (Some head)
        → IfOk result (λ zone. HoldsUnder schema contents head.name (Some zone)) }
    ensures no_rows { HasCleanDisk (state S.Store conn.new) → IsErrOf result ReadError.BadRow
        → (contents : Contents) → HasContents (schema_under schema) contents (state S.Store conn.old).now
        → HoldsHead contents head.name (Some head) → (zone : ZoneTerm)
        → ¬ HoldsUnder schema contents head.name (Some zone) }
    ensures reads { OnlyReads S.Store (schema_under schema) ReadError.BadRow ReadError.Fault conn.old conn.new result }
{
    let entries = load_entries(alloc, conn, schema, &head.name)?;
    let elements = load_items::<S, Element>(alloc, conn, &head.name)?;
    assemble_zone(head, entries, elements)
}

/// The zone of this name, if there is one, in the tables of this schema. Under earlier schemas each entry was installed
/// by the first `++VER` of the SREL. Returns `BadRow` if its rows stand for no zone, `Memory` if memory runs out, and
/// `Fault` if the disk fails or the tables are others.
pub fn load_zone<S: Alter>(
    alloc: Global,
    conn: &mut Connection<S>,
    schema: Schema,
    name: ZoneName,
) -> Result<Option<Zone>, ReadError>
    ensures rows { HasCleanDisk (state S.Store conn.new) → (contents : Contents)
        → HasContents (schema_under schema) contents (state S.Store conn.old).now
        → IfOk result (HoldsUnder schema contents name) }
    ensures no_rows { HasCleanDisk (state S.Store conn.new) → IsErrOf result ReadError.BadRow → (contents : Contents)
        → HasContents (schema_under schema) contents (state S.Store conn.old).now
        → (zone : Option ZoneTerm) → ¬ HoldsUnder schema contents name zone }
    ensures found { HasCleanDisk (state S.Store conn.new) → (i : Inventory)
        → StandsUnder schema i (state S.Store conn.old).now → IfOk result (λ zone. zone ≡ zone_in i name) }
    ensures none { HasCleanDisk (state S.Store conn.new) → IsErrOf result ReadError.BadRow → (i : Inventory)
        → ¬ StandsUnder schema i (state S.Store conn.old).now }
    ensures reads { OnlyReads S.Store (schema_under schema) ReadError.BadRow ReadError.Fault conn.old conn.new result }
{
    let Some(head) = load_zone_head(alloc, conn, &name)? else {
        return Ok(None);
    };
    Ok(Some(load_rest_of_zone(alloc, conn, schema, head)?))
}
