//! The table of element entries.

ghost use Rattle.std.specs.Prelude.{◌≡◌, OnOk, ◌≢◌, Option, is_some, IfOk, IsErrOf, map};
ghost use Rattle.std.specs.List.{join_with_byte};
ghost use Rattle.terms.specs.Texts.{HasLines};
ghost use Rattle.store_rows.specs.Calls.{RunsInside};
ghost use Rattle.store_rows.specs.Inside.{Continues, Turns};
ghost use Rattle.store_rows.specs.Rows.{HasContents, in_table, without};
ghost use Rattle.sqlite.specs.Values.{bound};
ghost use Rattle.store_schema.specs.Rows.{zelem_row};
ghost use Rattle.store_schema.specs.Tables.{zelem, store_schema};
ghost use Rattle.store_zones.specs.Calls.{insert_elements_calls, upsert_element_calls, remove_element_calls};
ghost use Rattle.store_zones.specs.Elements.{element_key};
ghost use Rattle.store_zones.specs.Zones.{ChangesZone, HasMoreElements, HasPutElement, HasRemovedElement};
ghost use Rattle.store_zones.specs.Zones.{with_element, with_more_elements};
ghost use Rattle.terms.specs.Types.{Element as ElementTerm};
ghost use Rattle.store_zones.specs.declared.zone_rows.ZoneRow.{ZoneRow as AZoneRow};

use crate::items::{ZoneItem, insert_items};
use crate::zone_rows::ZoneRow;
use fields::spelling::type_text;
use fields::{Name, ZoneName};
use sqlite::{Alter, Error, Row, Transaction};
use sqlite_value::row::Row as Cells;
use sqlite_value::value::ValueRef;
use std::alloc::{AllocError, Global};
use store_rows::{FromRow, ReadError, insert, remove, row_of_values, upsert};
use store_schema::{Columns, Query, joined_ids, zelem_columns};
use terms::ElemType;
use text80::bytes_of;
use zones_maps::Element;

const SELECT: &str = zelem_columns!(select_text "WHERE zone = ?1 ORDER BY type, name");

const INSERT: &str = zelem_columns!(insert_text);

// For sixteen rows, as many as one statement adds.
const INSERT_MANY: &str = zelem_columns!(insert_many_text);

const UPSERT: &str = zelem_columns!(upsert_text);

const DELETE: &str = "DELETE FROM zelem WHERE zone = ?1 AND type = ?2 AND name = ?3";

/// Adds the elements to the zone, sixteen rows by one statement and the remaining ones one at a time. Returns an error
/// if the zone has one of the same type and name after all, if there is no such zone, if the disk fails or if memory
/// runs out.
pub fn insert_elements<S: Alter>(
    alloc: Global,
    tx: &mut Transaction<'_, S>,
    zone: ZoneName,
    elements: &[&Element],
) -> Result<(), Error>
    ensures continues { Continues S.Store tx.old tx.new }
    ensures calls { RunsInside S.Store (insert_elements_calls zone (map (λ e. e.now) elements.now))
        tx.old.conn.now tx.new.conn.now result }
    ensures ok { OnOk result (Turns S.Store tx.old.conn.now tx.new.conn.now (HasContents store_schema)
        (with_more_elements zone (map (λ e. e.now) elements.now))) }
    ensures stands { OnOk result (ChangesZone S.Store tx.old.conn.now tx.new.conn.now zone
        (HasMoreElements (map (λ e. e.now) elements.now))) }
{
    insert_items(alloc, tx, &zone, INSERT_MANY, INSERT, elements)
}

/// Puts the element into the zone, in place of the one of its type and name. `existed` says whether there is one.
/// Returns an error if the zone has one although `existed` says no, if there is no such zone, if the disk fails or if
/// memory runs out.
pub fn upsert_element<S: Alter>(
    alloc: Global,
    tx: &mut Transaction<'_, S>,
    zone: ZoneName,
    existed: bool,
    element: &Element,
) -> Result<(), Error>
    ensures continues { Continues S.Store tx.old tx.new }
    ensures calls { RunsInside S.Store (upsert_element_calls zone existed element.now)
        tx.old.conn.now tx.new.conn.now result }
    ensures ok { OnOk result (Turns S.Store tx.old.conn.now tx.new.conn.now (HasContents store_schema)
        (with_element zone existed element.now)) }
    ensures stands { OnOk result ((old : Option ElementTerm) → is_some old ≡ existed
        → ChangesZone S.Store tx.old.conn.now tx.new.conn.now zone (HasPutElement old element.now)) }
{
    let umids = joined_ids(alloc, element.umids.as_slice())?;
    let text = bytes_of(alloc, element.text.as_slice())?;
    upsert_element_row(
        tx,
        &zone,
        existed,
        element,
        umids.as_slice(),
        text.as_slice(),
    )
}

// The columns of the element's row, with these bytes of its UMIDs and records.
fn element_values<'a>(
    zone: &'a ZoneName,
    element: &'a Element,
    umids: &'a [u8],
    text: &'a [u8],
) -> [ValueRef<'a>; 9]
    requires umids { umids.now ≡ join_with_byte 44 element.now.umids }
    requires text { HasLines text.now element.now.text }
    ensures { bound result ≡ zelem_row zone.now element.now }
{
    [
        ValueRef::Text(zone.as_bytes()),
        ValueRef::Text(type_text(element.elem_type)),
        ValueRef::Text(element.name.as_bytes()),
        ValueRef::Text(element.fmid.as_bytes()),
        ValueRef::Text(element.rmid.as_bytes()),
        ValueRef::Text(umids),
        ValueRef::Text(element.distlib.as_bytes()),
        ValueRef::Text(element.syslib.as_bytes()),
        ValueRef::Blob(text),
    ]
}

// Puts the element's row, with these bytes of its UMIDs and records, in place of the one that existed, if one did.
fn upsert_element_row<S: Alter>(
    tx: &mut Transaction<'_, S>,
    zone: &ZoneName,
    existed: bool,
    element: &Element,
    umids: &[u8],
    text: &[u8],
) -> Result<(), Error>
    requires umids { umids.now ≡ join_with_byte 44 element.now.umids }
    requires text { HasLines text.now element.now.text }
    ensures continues { Continues S.Store tx.old tx.new }
    ensures calls { RunsInside S.Store (upsert_element_calls zone.now existed element.now)
        tx.old.conn.now tx.new.conn.now result }
    ensures ok { OnOk result (Turns S.Store tx.old.conn.now tx.new.conn.now (HasContents store_schema)
        (with_element zone.now existed element.now)) }
{
    let row = element_values(zone, element, umids, text);
    if existed {
        return upsert(tx, UPSERT, &row);
    }
    insert(tx, INSERT, &row)
}

/// Removes the element of the type and name from the zone, if there is one. Returns an error if the disk fails or
/// memory runs out.
pub fn remove_element<S: Alter>(
    tx: &mut Transaction<'_, S>,
    zone: ZoneName,
    elem_type: ElemType,
    name: Name,
) -> Result<(), Error>
    ensures continues { Continues S.Store tx.old tx.new }
    ensures calls { RunsInside S.Store (remove_element_calls zone elem_type name)
        tx.old.conn.now tx.new.conn.now result }
    ensures ok { OnOk result (Turns S.Store tx.old.conn.now tx.new.conn.now (HasContents store_schema)
        (in_table zelem (without (element_key zone elem_type name)))) }
    ensures stands { OnOk result (ChangesZone S.Store tx.old.conn.now tx.new.conn.now zone
        (HasRemovedElement elem_type name)) }
{
    let key = [
        ValueRef::Text(zone.as_bytes()),
        ValueRef::Text(type_text(elem_type)),
        ValueRef::Text(name.as_bytes()),
    ];
    remove(tx, DELETE, &key)
}

/// Reads the rows of elements.
pub(crate) struct Elements;

impl FromRow for Elements {
    ghost use Rattle.store_zones.specs.Elements.{row_of_element, HasElementRowForms};

    type Item = ZoneRow<Element>;

    ghost row_of = { row_of_element };

    ghost has_form = { HasElementRowForms };

    fn read(alloc: Global, row: &Row) -> Result<ZoneRow<Element>, ReadError>
        ensures read { IfOk result (λ item. (row.now ≡ row_of_element item) × HasElementRowForms item) }
        ensures none { IsErrOf result ReadError.BadRow → (item : AZoneRow ElementTerm) → HasElementRowForms item
            → row.now ≢ row_of_element item }
        ensures fault { IsErrOf result ReadError.Fault → ⊥ }
    {
        let mut columns = Columns::new(row);
        let zone = columns.zone_name()?;
        let elem_type = columns.elem_type()?;
        let name = columns.name()?;
        let fmid = columns.id()?;
        let rmid = columns.id()?;
        let umids = columns.ids(alloc)?;
        let distlib = columns.name()?;
        let syslib = columns.name()?;
        let text = columns.element_text(alloc, elem_type)?;
        columns.expect_end()?;
        Ok(ZoneRow {
            zone,
            item: Element {
                elem_type,
                name,
                fmid,
                rmid,
                umids,
                distlib,
                syslib,
                text,
            },
        })
    }
}

impl Query for Elements {
    ghost use Rattle.std.specs.Prelude.{⊤};
    ghost use Rattle.store_schema.specs.Tables.{zelem};

    type Rows = Elements;

    ghost table = { zelem };

    ghost at = { 8 };

    ghost width = { 1 };

    ghost knows = { λ r. ⊤ };

    fn select_sql() -> &'static str {
        SELECT
    }
}

impl ZoneItem for Element {
    ghost use Rattle.std.specs.Prelude.{refl};

    type Rows = Elements;

    fn row_in_zone(&self, alloc: Global, zone: &ZoneName) -> Result<Cells, AllocError> {
        let umids = joined_ids(alloc, self.umids.as_slice())?;
        let text = bytes_of(alloc, self.text.as_slice())?;
        let row = element_values(zone, self, umids.as_slice(), text.as_slice());
        row_of_values(alloc, &row)
    }

    ghost by_zone = { refl };

    ghost named = { λ r. refl };
}
