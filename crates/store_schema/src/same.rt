//! Whether two schemas of a SQL database are the same. It compares everything except expressions: a schema with a
//! CHECK, a DEFAULT or a view equals no other one.

mod column;
mod key;
mod part;
mod table;

ghost use Rattle.std.specs.Prelude.{◌≡◌, IsTrue};
ghost use Rattle.store_schema.specs.Plain.{IsPlain};

use crate::same::part::all_same;
use crate::same::table::same_tables;
use sqlite_schema::schema::Schema;

/// Whether the two are the same. A schema with an expression, a default or a view does not even equal itself.
pub(crate) fn same_schema(a: &Schema, b: &Schema) -> bool
    ensures same { IsTrue result → a.now ≡ b.now }
    ensures found { IsPlain a.now → a.now ≡ b.now → IsTrue result }
{
    same_tables(a.tables.as_slice(), b.tables.as_slice())
        && all_same(a.indexes.as_slice(), b.indexes.as_slice())
        && a.views.is_empty()
        && b.views.is_empty()
}
