//! The SYSMODs of the global zone.

ghost use Rattle.std.specs.Prelude.{◌≡◌, List, IfOk, IsErrOf};
ghost use Rattle.sqlite.specs.Held.{state};
ghost use Rattle.sqlite.specs.State.{HasCleanDisk};
ghost use Rattle.store_rows.specs.Reads.{OnlyReads};
ghost use Rattle.store_rows.specs.Rows.{Contents, HasContents};
ghost use Rattle.store_schema.specs.Earlier.{schema_under, StandsUnder};
ghost use Rattle.store_schema.specs.Inventory.{Inventory};
ghost use Rattle.terms.specs.Types.{Sysmod as SysmodTerm};
ghost use Rattle.store_sysmod_loads.specs.Flats.{AreFormed, AreRowsOf};

use crate::rows_of::{gather_sysmods, load_rows};
use sqlite::{Alter, Connection};
use std::alloc::Global;
use store_rows::ReadError;
use store_schema::Schema;
use sysmods_values::Sysmod;

/// All SYSMODs with their sources, `++VER`s, `++IF`s and element statements, by their ids, from the tables of the
/// schema. A row that belongs to no other is bad, and so is a `++VER` or an `++IF` whose number is not the next one.
/// Returns `BadRow` if a row is bad, `Memory` if memory runs out, and `Fault` if the disk fails or the tables are
/// others.
pub fn load_sysmods<S: Alter>(
    alloc: Global,
    conn: &mut Connection<S>,
    schema: Schema,
) -> Result<Vec<Sysmod>, ReadError>
    ensures found { HasCleanDisk (state S.Store conn.new) → (i : Inventory)
        → StandsUnder schema i (state S.Store conn.old).now
        → IfOk result (λ sysmods. sysmods.items ≡ i.global.sysmods) }
    ensures rows { HasCleanDisk (state S.Store conn.new) → (contents : Contents)
        → HasContents (schema_under schema) contents (state S.Store conn.old).now
        → IfOk result (λ sysmods. AreRowsOf schema sysmods.items contents) }
    ensures forms { IfOk result (λ sysmods. AreFormed schema sysmods.items) }
    ensures no_rows { HasCleanDisk (state S.Store conn.new) → IsErrOf result ReadError.BadRow → (contents : Contents)
        → HasContents (schema_under schema) contents (state S.Store conn.old).now
        → (sysmods : List SysmodTerm) → AreFormed schema sysmods → ¬ AreRowsOf schema sysmods contents }
    ensures none { HasCleanDisk (state S.Store conn.new) → IsErrOf result ReadError.BadRow → (i : Inventory)
        → ¬ StandsUnder schema i (state S.Store conn.old).now }
    ensures reads { OnlyReads S.Store (schema_under schema) ReadError.BadRow ReadError.Fault conn.old conn.new
        result }
{
    let rows = load_rows(alloc, conn, schema)?;
    gather_sysmods(alloc, rows)
}
