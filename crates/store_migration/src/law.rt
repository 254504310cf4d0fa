//! What the definitions say about the next open.

ghost use Rattle.store_migration.specs.Migrated.{NextMigrationFinds, NextOpenFinds};

use sqlite::Alter;

/// After a migration that failed, the next one finds what this one found. After one that succeeded, the next open finds
/// its result. Both hold even if a fault shut the connection.
pub fn next_finds<S: Alter, T: Alter>()
    ensures migration { NextMigrationFinds S.Store T.Store }
    ensures open { NextOpenFinds S.Store T.Store }
{}
