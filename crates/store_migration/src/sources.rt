//! The sources of SYSMODs, from their own rows to a table. Each call returns an error if the database refuses a row, if
//! the disk fails or if memory runs out.

ghost use Rattle.std.specs.Prelude.{fold, OnOk};
ghost use Rattle.store_rows.specs.Inside.{Continues, Turns};
ghost use Rattle.store_rows.specs.Rows.{HasContents, in_table, in_place};
ghost use Rattle.sqlite.specs.declared.types.Value.TheVariants.{Text};
ghost use Rattle.std.specs.Prelude.{[], ◌∷◌};
ghost use Rattle.store_schema.specs.Tables.{store_schema, sysmod as sysmod_table};
ghost use Rattle.store_migration.specs.Moved.{bare_row, with_source, with_moved};

use crate::head::Head;
use fields::spelling::kind_text;
use fields::{Id, Source};
use sqlite::{Alter, Error, Transaction};
use sqlite_value::value::ValueRef;
use store_rows::replace;
use store_sysmods::insert_source;

const REPLACE: &str = "UPDATE sysmod SET id = ?1, kind = ?2, sources = ?3 WHERE id = ?1";

// Adds the rows of the SYSMOD's sources to their table.
fn insert_sources<S: Alter>(
    tx: &mut Transaction<'_, S>,
    id: &Id,
    sources: &[Source],
) -> Result<(), Error>
    ensures continues { Continues S.Store tx.old tx.new }
    ensures ok { OnOk result (Turns S.Store tx.old.conn.now tx.new.conn.now (HasContents store_schema)
        (λ contents. fold (with_source id.now) contents sources.now)) }
{
    for source in sources {
        insert_source(tx, id, source)?;
    }
    Ok(())
}

// Empties the column of sources in the SYSMOD's row, which keeps the others.
fn clear_sources_column<S: Alter>(tx: &mut Transaction<'_, S>, head: &Head) -> Result<(), Error>
    ensures continues { Continues S.Store tx.old tx.new }
    ensures ok { OnOk result (Turns S.Store tx.old.conn.now tx.new.conn.now (HasContents store_schema)
        (in_table sysmod_table (in_place (Text head.now.id ∷ []) (bare_row head.now)))) }
{
    let id = ValueRef::Text(head.id.as_bytes());
    let kind = ValueRef::Text(kind_text(head.kind));
    replace(tx, REPLACE, &[id, kind, ValueRef::Text(b"")])
}

// Moves the sources of one SYSMOD from its row to their table.
fn move_sources_of<S: Alter>(tx: &mut Transaction<'_, S>, head: &Head) -> Result<(), Error>
    ensures continues { Continues S.Store tx.old tx.new }
    ensures ok { OnOk result (Turns S.Store tx.old.conn.now tx.new.conn.now (HasContents store_schema)
        (λ contents. with_moved contents head.now)) }
{
    insert_sources(tx, &head.id, head.sources.as_slice())?;
    clear_sources_column(tx, head)
}

/// Moves the sources of these SYSMODs from their rows to a table.
pub(crate) fn move_sources<S: Alter>(
    tx: &mut Transaction<'_, S>,
    heads: &[Head],
) -> Result<(), Error>
    ensures continues { Continues S.Store tx.old tx.new }
    ensures ok { OnOk result (Turns S.Store tx.old.conn.now tx.new.conn.now (HasContents store_schema)
        (λ contents. fold with_moved contents heads.now)) }
{
    for head in heads {
        move_sources_of(tx, head)?;
    }
    Ok(())
}
