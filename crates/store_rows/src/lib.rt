//! The rows of tables as lists in any order, and what statements make of them. It names no table. A statement's
//! contract says what the tables hold afterwards, and what stays inside the transaction. The contract of the commit
//! says what the commit and a crash leave. Every call that allocates returns an error if memory runs out.
#![tactic(auto)]

mod cells;
mod error;
mod reading;
mod statement;

pub use cells::row_of_values;
pub use error::ReadError;
pub use reading::{FromRow, load};
pub use statement::{insert, insert_rows, remove, remove_parent, replace, upsert};
