//! Databases of earlier schemas become the store's, with all that they hold, each in one transaction. `migrate` first
//! reads all rows, by the meaning that they have under their own schema. The store's tables stand for the same
//! afterwards, and a crash leaves that under the one schema or the other. An error leaves what was there. `next_finds`
//! is a law about what the next open or migration finds. Every call that allocates returns an error if memory runs out.
#![tactic(auto)]

mod check;
mod conversion;
mod head;
mod law;
mod migration;
mod number;
mod sources;

pub use law::next_finds;
pub use migration::migrate;
