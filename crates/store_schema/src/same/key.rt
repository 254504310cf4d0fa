//! Names, places, and the orders and references over them.

ghost use Rattle.std.specs.Prelude.{◌≡◌, ◌↔◌, IsTrue};

use crate::same::part::{Same, all_same};
use sqlite_items::Items;
use sqlite_schema::schema::Reference;
use sqlite_value::keys::Order;
use sqlite_value::value::Bytes;

impl Same for Bytes {
    fn is_same(&self, other: &Bytes) -> bool {
        self.as_slice() == other.as_slice()
    }
}

// Places of columns.
impl Same for Items<usize> {
    fn is_same(&self, other: &Items<usize>) -> bool {
        self.as_slice() == other.as_slice()
    }
}

impl Same for Order {
    fn is_same(&self, other: &Order) -> bool {
        self.digits == other.digits
    }
}

impl Same for Reference {
    fn is_same(&self, other: &Reference) -> bool {
        self.columns.is_same(&other.columns)
            && self.parent.is_same(&other.parent)
            && all_same(
                self.parent_columns.as_slice(),
                other.parent_columns.as_slice(),
            )
            && self.on_delete == other.on_delete
            && self.on_update == other.on_update
            && self.is_deferred == other.is_deferred
    }
}

/// Whether the same column is the rowid of both tables, or no column of either is.
pub(crate) fn same_rowid(a: &Option<usize>, b: &Option<usize>) -> bool
    ensures { IsTrue result ↔ (a.now ≡ b.now) }
{
    match (a, b) {
        (None, None) => true,
        (Some(a), Some(b)) => *a == *b,
        _ => false,
    }
}
