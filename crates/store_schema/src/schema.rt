//! The schema that the tables of a database have.

ghost use Rattle.std.specs.Prelude.{◌≡◌};
ghost use Rattle.store_schema.specs.Earlier.{number_under};

/// The schema of a database's tables, by its number. `Third` is the store's own; the others are read to be migrated.
#[derive(Clone, Copy, PartialEq, Debug, Drop)]
pub enum Schema {
    First,
    Second,
    Third,
}

impl Schema {
    /// The number that `meta` gives to the schema.
    pub(crate) fn number(self) -> i64
        ensures { result ≡ number_under self }
    {
        match self {
            Schema::First => 1,
            Schema::Second => 2,
            Schema::Third => 3,
        }
    }
}
