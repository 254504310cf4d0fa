//! The table of zones, each without its entries and elements.

ghost use Rattle.std.specs.Prelude.{◌≡◌, ◌≢◌, List, Option, map, IfOk, OnOk, OnErr, IsErrOf};
ghost use Rattle.std.specs.Option.{option_to_list};
ghost use Rattle.sqlite.specs.Held.{state};
ghost use Rattle.sqlite.specs.State.{HasCleanDisk};
ghost use Rattle.store_rows.specs.Calls.{RunsInside};
ghost use Rattle.store_rows.specs.Inside.{Continues, Turns};
ghost use Rattle.store_rows.specs.Reads.{OnlyReads};
ghost use Rattle.store_rows.specs.Rows.{Contents, HasContents, in_table, with_row};
ghost use Rattle.store_schema.specs.declared.schema.Schema.{Schema};
ghost use Rattle.store_schema.specs.Earlier.{schema_under, StandsUnder};
ghost use Rattle.store_schema.specs.Inventory.{Inventory};
ghost use Rattle.store_schema.specs.Rows.{zone_row};
ghost use Rattle.store_schema.specs.Tables.{zone as zone_table, store_schema};
ghost use Rattle.terms.specs.Types.{is_target};
ghost use Rattle.store_zones.specs.declared.head.ZoneHead.{ZoneHead as AZoneHead};
ghost use Rattle.store_zones.specs.Calls.{zone_calls};
ghost use Rattle.store_zones.specs.Found.{head_of};
ghost use Rattle.store_zones.specs.Held.{HoldsHead, HoldsHeads};
ghost use Rattle.store_zones.specs.Related.{AreRelated};
ghost use Rattle.store_zones.specs.Zones.{AddsZone, empty_zone};

use crate::related::require_related;
use crate::zone_rows::into_table;
use fields::spelling::zone_kind_text;
use fields::{Srel, ZoneName};
use sorted::{Keyed, TryClone};
use sqlite::{Alter, Connection, Error, Row, Transaction};
use sqlite_value::value::ValueRef;
use std::alloc::{AllocError, Global};
use store_rows::{FromRow, ReadError, insert};
use store_schema::{Columns, Query, load_query, text_or_null, zone_columns};
use terms::ZoneKind;

const SELECT: &str = zone_columns!(select_text "ORDER BY name");

const SELECT_NAMED: &str = zone_columns!(select_text "WHERE name = ?1 ORDER BY name");

const INSERT: &str = zone_columns!(insert_text);

// ---- as it is read

/// A zone without its entries and elements.
#[derive(Clone, Copy, Debug, PartialEq, Eq)]
pub struct ZoneHead {
    pub name: ZoneName,
    pub kind: ZoneKind,
    pub srel: Srel,
    pub related: Option<ZoneName>,
}

impl Keyed for ZoneHead {
    type Key = ZoneName;

    ghost key_of = { λ head. head.name };

    fn key(&self) -> ZoneName {
        self.name
    }
}

impl TryClone for ZoneHead {
    fn try_clone(&self, _alloc: Global) -> Result<Self, AllocError> {
        Ok(*self)
    }
}

// Whether zones of this kind are target zones, which name a related zone.
fn is_target(kind: ZoneKind) -> bool
    ensures { result ≡ is_target kind }
{
    matches!(kind, ZoneKind::Target)
}

/// Reads the rows of zones.
struct ZoneHeads;

impl FromRow for ZoneHeads {
    ghost use Rattle.store_zones.specs.Heads.{head_row, HasHeadForms};

    type Item = ZoneHead;

    ghost row_of = { head_row };

    ghost has_form = { HasHeadForms };

    fn read(_alloc: Global, row: &Row) -> Result<ZoneHead, ReadError>
        ensures read { IfOk result (λ head. (row.now ≡ head_row head) × HasHeadForms head) }
        ensures none { IsErrOf result ReadError.BadRow → (head : AZoneHead) → HasHeadForms head
            → row.now ≢ head_row head }
        ensures fault { IsErrOf result ReadError.Fault → ⊥ }
    {
        let mut columns = Columns::new(row);
        let name = columns.zone_name()?;
        let kind = columns.zone_kind()?;
        let srel = columns.srel()?;
        let related = columns.optional()?;
        columns.expect_end()?;
        if name.is_global() || related.is_some() != is_target(kind) {
            return Err(ReadError::BadRow);
        }
        Ok(ZoneHead {
            name,
            kind,
            srel,
            related,
        })
    }
}

/// All rows of zones.
struct AllHeads;

impl Query for AllHeads {
    ghost use Rattle.std.specs.Prelude.{⊤};
    ghost use Rattle.store_schema.specs.Tables.{zone};

    type Rows = ZoneHeads;

    ghost table = { zone };

    ghost at = { 6 };

    ghost width = { 0 };

    ghost knows = { λ r. ⊤ };

    fn select_sql() -> &'static str {
        SELECT
    }
}

/// The rows of one name.
struct NamedHeads;

impl Query for NamedHeads {
    ghost use Rattle.std.specs.Prelude.{⊤};
    ghost use Rattle.store_schema.specs.Tables.{zone};

    type Rows = ZoneHeads;

    ghost table = { zone };

    ghost at = { 6 };

    ghost width = { 1 };

    ghost knows = { λ r. ⊤ };

    fn select_sql() -> &'static str {
        SELECT_NAMED
    }
}

// The only one of these heads, or none if there is none. Returns `BadRow` if there are more.
fn only_head(heads: &[ZoneHead]) -> Result<Option<ZoneHead>, ReadError>
    ensures one { IfOk result (λ head. heads.now ≡ option_to_list head) }
    ensures more { OnErr result ((head : Option ZoneHead) → heads.now ≢ option_to_list head) }
    ensures fault { IsErrOf result ReadError.Fault → ⊥ }
{
    match heads {
        [] => Ok(None),
        [head] => Ok(Some(*head)),
        _ => Err(ReadError::BadRow),
    }
}

/// The head of the zone of this name, if there is one. Returns `BadRow` if its row is not a head.
pub(crate) fn load_zone_head<S: Alter>(
    alloc: Global,
    conn: &mut Connection<S>,
    name: &ZoneName,
) -> Result<Option<ZoneHead>, ReadError>
    ensures rows { HasCleanDisk (state S.Store conn.new) → (r : Schema) (contents : Contents)
        → HasContents (schema_under r) contents (state S.Store conn.old).now
        → IfOk result (HoldsHead contents name.now) }
    ensures no_rows { HasCleanDisk (state S.Store conn.new) → IsErrOf result ReadError.BadRow → (r : Schema)
        → (contents : Contents) → HasContents (schema_under r) contents (state S.Store conn.old).now
        → (head : Option AZoneHead) → ¬ HoldsHead contents name.now head }
    ensures reads { (r : Schema) → OnlyReads S.Store (schema_under r) ReadError.BadRow ReadError.Fault conn.old
        conn.new result }
{
    let heads = load_query::<S, NamedHeads>(alloc, conn, &[ValueRef::Text(name.as_bytes())])?;
    only_head(heads.as_slice())
}

/// The heads of all zones, by name. A target zone names a distribution zone of its SREL that no other one names.
/// Returns `BadRow` if a row is not a head, or the rows are not related in this way, `Memory` if memory runs out, and
/// `Fault` if the disk fails or the tables are others.
pub fn zone_heads<S: Alter>(
    alloc: Global,
    conn: &mut Connection<S>,
) -> Result<Vec<ZoneHead>, ReadError>
    ensures rows { HasCleanDisk (state S.Store conn.new) → (r : Schema) (contents : Contents)
        → HasContents (schema_under r) contents (state S.Store conn.old).now
        → IfOk result (λ heads. HoldsHeads contents heads.items) }
    ensures no_rows { HasCleanDisk (state S.Store conn.new) → IsErrOf result ReadError.BadRow → (r : Schema)
        → (contents : Contents) → HasContents (schema_under r) contents (state S.Store conn.old).now
        → (heads : List AZoneHead) → ¬ HoldsHeads contents heads }
    ensures found { HasCleanDisk (state S.Store conn.new) → (r : Schema) (i : Inventory)
        → StandsUnder r i (state S.Store conn.old).now → IfOk result (λ heads. heads.items ≡ map head_of i.zones) }
    ensures none { HasCleanDisk (state S.Store conn.new) → IsErrOf result ReadError.BadRow → (r : Schema)
        → (i : Inventory) → ¬ StandsUnder r i (state S.Store conn.old).now }
    ensures related { IfOk result (λ heads. AreRelated heads.items) }
    ensures reads { (r : Schema) → OnlyReads S.Store (schema_under r) ReadError.BadRow ReadError.Fault conn.old
        conn.new result }
{
    let heads = load_query::<S, AllHeads>(alloc, conn, &[])?;
    let sorted = into_table(heads)?;
    require_related(sorted.into_vec())
}

// The names of the zones with these heads.
fn names_of_heads(alloc: Global, heads: &[ZoneHead]) -> Result<Vec<ZoneName>, AllocError>
    ensures { IfOk result (λ names. names.items ≡ map (λ head. head.name) heads.now) }
{
    let mut names = Vec::with_capacity(alloc, heads.len())?;
    for head in heads {
        names.push(head.name)?;
    }
    Ok(names)
}

/// The names of all zones, rising. Returns `BadRow` if `zone_heads` does, `Memory` if memory runs out, and `Fault` if
/// the disk fails or the tables are others.
pub fn zone_names<S: Alter>(
    alloc: Global,
    conn: &mut Connection<S>,
) -> Result<Vec<ZoneName>, ReadError>
    ensures found { HasCleanDisk (state S.Store conn.new) → (r : Schema) (i : Inventory)
        → StandsUnder r i (state S.Store conn.old).now
        → IfOk result (λ names. names.items ≡ map (λ z. z.name) i.zones) }
    ensures none { HasCleanDisk (state S.Store conn.new) → IsErrOf result ReadError.BadRow → (r : Schema)
        → (i : Inventory) → ¬ StandsUnder r i (state S.Store conn.old).now }
    ensures reads { (r : Schema) → OnlyReads S.Store (schema_under r) ReadError.BadRow ReadError.Fault conn.old
        conn.new result }
{
    let heads = zone_heads(alloc, conn)?;
    Ok(names_of_heads(alloc, heads.as_slice())?)
}

// ---- as it is written

/// Adds a zone that has no entries. Returns an error if there is a zone of its name, if the disk fails or if memory
/// runs out.
pub fn insert_zone<S: Alter>(
    tx: &mut Transaction<'_, S>,
    name: ZoneName,
    kind: ZoneKind,
    srel: Srel,
    related: Option<ZoneName>,
) -> Result<(), Error>
    ensures continues { Continues S.Store tx.old tx.new }
    ensures calls { RunsInside S.Store (zone_calls (empty_zone name kind srel related))
        tx.old.conn.now tx.new.conn.now result }
    ensures ok { OnOk result (Turns S.Store tx.old.conn.now tx.new.conn.now (HasContents store_schema)
        (in_table zone_table (with_row (zone_row (empty_zone name kind srel related))))) }
    ensures stands { OnOk result (AddsZone S.Store tx.old.conn.now tx.new.conn.now
        (empty_zone name kind srel related)) }
{
    let related = text_or_null(&related);
    let row = [
        ValueRef::Text(name.as_bytes()),
        ValueRef::Text(zone_kind_text(kind)),
        ValueRef::Text(srel.as_bytes()),
        related,
    ];
    insert(tx, INSERT, &row)
}
