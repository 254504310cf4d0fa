//! The rows of a database determine its state.

ghost use Rattle.store_schema.specs.Earlier.{HasOneEarlierState};
ghost use Rattle.store_schema.specs.Stands.{HasOneState};

/// The state that is loaded from a database is the one that was committed: no two states have the same rows.
pub fn one_state()
    ensures { HasOneState }
{}

/// The state that is loaded from a database of an earlier schema is the one that was committed: no two states have the
/// same rows.
pub fn one_earlier_state()
    ensures { HasOneEarlierState }
{}
