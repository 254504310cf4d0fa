//! Tables and indexes. Tables with an expression are not compared.

ghost use Rattle.std.specs.Prelude.{◌≡◌, ◌↔◌, [], IsTrue};
ghost use Rattle.std.specs.List.{AllByRecursion};
ghost use Rattle.store_schema.specs.Plain.{HasNoDefault, IsPlainTable, no_stamps};

use crate::same::column::same_columns;
use crate::same::key::same_rowid;
use crate::same::part::{Same, all_same};
use sqlite_schema::code::Terms;
use sqlite_schema::schema::{Index, Stamps, Table};

// Whether there is no expression.
fn has_no_terms(terms: &Terms) -> bool
    ensures { IsTrue result ↔ (terms.now ≡ []) }
{
    terms.roots.is_empty()
}

// Whether no default of the table reads the time.
fn is_timeless(stamps: &Stamps) -> bool
    ensures { IsTrue result ↔ (stamps.now ≡ no_stamps) }
{
    stamps.places.is_empty() && has_no_terms(&stamps.terms) && stamps.formats.is_empty()
}

// Whether the table has no CHECK, and no default that reads the time.
fn has_no_expression(table: &Table) -> bool
    ensures { IsTrue result ↔ (table.now.checks ≡ []) × (table.now.stamps ≡ no_stamps) }
{
    has_no_terms(&table.checks) && is_timeless(&table.stamps)
}

// Whether computed columns and foreign keys are the same.
fn same_rules(a: &Table, b: &Table) -> bool
    ensures { IsTrue result ↔ (a.now.computed ≡ b.now.computed) × (a.now.references ≡ b.now.references) }
{
    a.computed.is_same(&b.computed) && all_same(a.references.as_slice(), b.references.as_slice())
}

// Whether names, trees and columns are the same, and no column has a default.
fn same_heading(a: &Table, b: &Table) -> bool
    ensures same { IsTrue result → (a.now.name ≡ b.now.name) × (a.now.tree ≡ b.now.tree)
        × (a.now.columns ≡ b.now.columns) × (a.now.is_counted ≡ b.now.is_counted) }
    ensures found { AllByRecursion HasNoDefault a.now.columns → a.now ≡ b.now → IsTrue result }
{
    a.name.is_same(&b.name)
        && a.tree == b.tree
        && same_columns(a.columns.as_slice(), b.columns.as_slice())
        && a.is_counted == b.is_counted
}

// Whether rowids, primary keys, unique keys and their orders are the same.
fn same_uniques(a: &Table, b: &Table) -> bool
    ensures { IsTrue result ↔ (a.now.key ≡ b.now.key) × (a.now.primary ≡ b.now.primary)
        × (a.now.uniques ≡ b.now.uniques) × (a.now.orders ≡ b.now.orders) }
{
    same_rowid(&a.key, &b.key)
        && a.primary.is_same(&b.primary)
        && all_same(a.uniques.as_slice(), b.uniques.as_slice())
        && all_same(a.orders.as_slice(), b.orders.as_slice())
}

// Whether the two tables are the same, and have neither an expression nor a default.
fn same_table(a: &Table, b: &Table) -> bool
    ensures same { IsTrue result → a.now ≡ b.now }
    ensures found { IsPlainTable a.now → a.now ≡ b.now → IsTrue result }
{
    has_no_expression(a)
        && has_no_expression(b)
        && same_heading(a, b)
        && same_uniques(a, b)
        && same_rules(a, b)
}

/// Whether the tables are the same in the same order, and none has an expression or a default.
pub(crate) fn same_tables(a: &[Table], b: &[Table]) -> bool
    ensures same { IsTrue result → a.now ≡ b.now }
    ensures found { AllByRecursion IsPlainTable a.now → a.now ≡ b.now → IsTrue result }
{
    if a.len() != b.len() {
        return false;
    }
    for at in 0..a.len() {
        if !same_table(&a[at], &b[at]) {
            return false;
        }
    }
    true
}

impl Same for Index {
    fn is_same(&self, other: &Index) -> bool {
        self.name.is_same(&other.name)
            && self.tree == other.tree
            && self.table == other.table
            && self.columns.is_same(&other.columns)
            && self.order.is_same(&other.order)
            && self.is_unique == other.is_unique
    }
}
