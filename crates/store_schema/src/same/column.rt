//! Columns. Those with a default are not compared.

ghost use Rattle.std.specs.Prelude.{◌≡◌, ◌↔◌, IsTrue};
ghost use Rattle.std.specs.List.{AllByRecursion};
ghost use Rattle.sqlite_value.specs.declared.value.Value.TheVariants.{Null};
ghost use Rattle.store_schema.specs.Plain.{HasNoDefault};

use crate::same::part::Same;
use sqlite_schema::schema::Column;
use sqlite_value::value::Value;

fn is_null(value: &Value) -> bool
    ensures { IsTrue result ↔ (value.now ≡ Null) }
{
    matches!(value, Value::Null)
}

// Whether the two columns are the same, and have no default.
fn same_column(a: &Column, b: &Column) -> bool
    ensures { IsTrue result ↔ (a.now ≡ b.now) × HasNoDefault a.now }
{
    a.name.is_same(&b.name)
        && a.kind == b.kind
        && a.is_strict == b.is_strict
        && a.not_null == b.not_null
        && is_null(&a.default)
        && is_null(&b.default)
        && a.collation == b.collation
}

/// Whether the columns are the same in the same order, and none has a default.
pub(crate) fn same_columns(a: &[Column], b: &[Column]) -> bool
    ensures same { IsTrue result → a.now ≡ b.now }
    ensures found { AllByRecursion HasNoDefault a.now → a.now ≡ b.now → IsTrue result }
{
    if a.len() != b.len() {
        return false;
    }
    for at in 0..a.len() {
        if !same_column(&a[at], &b[at]) {
            return false;
        }
    }
    true
}
