//! Tests of stores: what is committed is loaded again, rows that stand for no state are reported, a commit leaves the
//! other rows alone, and a database of an earlier schema is migrated.
#![tactic(auto)]

#[cfg(test)]
mod bad_rows;
#[cfg(test)]
mod changes;
#[cfg(test)]
mod deltas;
#[cfg(test)]
mod migration;
#[cfg(test)]
mod round_trip;
