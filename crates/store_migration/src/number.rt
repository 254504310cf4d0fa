//! The number of the schema.

ghost use Rattle.std.specs.Prelude.{OnOk};
ghost use Rattle.store_rows.specs.Inside.{Continues, Turns};
ghost use Rattle.store_rows.specs.Rows.{HasContents};
ghost use Rattle.store_schema.specs.Tables.{store_schema};
ghost use Rattle.store_migration.specs.Moved.{with_number};

use sqlite::{Alter, Error, Transaction};
use sqlite_value::value::ValueRef;
use store_rows::replace;

const REPLACE: &str = "UPDATE meta SET k = ?1, v = ?2 WHERE k = ?1";

/// Writes the number of the store's schema, 3, in place of the one that `meta` has. Returns an error if the
/// database refuses the row, if the disk fails or if memory runs out.
pub(crate) fn write_number<S: Alter>(tx: &mut Transaction<'_, S>) -> Result<(), Error>
    ensures continues { Continues S.Store tx.old tx.new }
    ensures ok { OnOk result (Turns S.Store tx.old.conn.now tx.new.conn.now (HasContents store_schema) with_number) }
{
    replace(tx, REPLACE, &[ValueRef::Text(b"schema"), ValueRef::Int(3)])
}
