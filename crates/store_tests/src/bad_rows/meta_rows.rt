//! The number of the schema, and the tables as a whole.

use crate::bad_rows::{NO_STATE, Part, check};
use std::test::Fail;
use store_schema::StoreError;

/// The number of the schema, which must occur once, and a missing table.
const META: &[&str] = &[
    "DELETE FROM meta",
    "UPDATE meta SET k = 'Schema'",
    "INSERT INTO meta (k, v) VALUES ('other', 3)",
    "DROP TABLE zelem",
    "DROP TABLE meta; CREATE VIEW meta AS SELECT 'schema' AS k, 3 AS v",
    "DROP TABLE meta; CREATE TABLE meta (k TEXT, v INTEGER); INSERT INTO meta (k, v) VALUES ('schema', 3)",
    "DROP TABLE meta; CREATE TABLE meta (w TEXT, v INTEGER, k TEXT); INSERT INTO meta (k, v) VALUES ('schema', 3)",
];

/// Another number, whatever the tables are, even those of earlier schemas.
const NUMBERS: &[&str] = &[
    "UPDATE meta SET v = 1",
    "UPDATE meta SET v = 2",
    "UPDATE meta SET v = 4",
    "UPDATE meta SET v = 2; DROP TABLE zelem",
    "DROP TABLE meta; CREATE VIEW meta AS SELECT 'schema' AS k, 2 AS v",
    "DROP TABLE meta; CREATE TABLE meta (w TEXT, v INTEGER, k TEXT); INSERT INTO meta (k, v) VALUES ('schema', 2)",
];

/// No number to ask for: there is no `meta`, or it lacks one of the columns.
const NUMBERLESS: &[&str] = &[
    "DROP TABLE meta",
    "DROP TABLE meta; CREATE VIEW meta AS SELECT 'schema' AS name, 3 AS v",
    "DROP TABLE meta; CREATE TABLE meta (name TEXT, number INTEGER)",
];

#[test]
fn another_schema_is_told(rt: HostRuntime) -> Result<(), Fail> {
    check(rt.alloc(), META, Part::Names, NO_STATE)?;
    check(
        rt.alloc(),
        NUMBERS,
        Part::Names,
        Some(StoreError::OtherSchema),
    )?;
    check(rt.alloc(), NUMBERLESS, Part::Names, Some(StoreError::Fault))
}
