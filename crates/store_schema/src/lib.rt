//! The tables of the store in a SQL database: what they are, which states their rows stand for, the calls that create
//! them in an empty database and recognize them in another, and the columns of their rows as values. On a clean disk,
//! `set_up` creates them in one commit, or keeps them, or reports another number or other tables. `find_schema` also
//! recognizes the tables of earlier schemas, and `add_tables` creates those that they lack. No two states have the same
//! rows, under one schema or another (`one_state`, `one_earlier_state`). `Columns` reads a row from left to right: a
//! call returns the value of the next column, or `BadRow` if that column has no such value or there is none.
//! `load_query` returns the items of the rows that a query asks for, and `BadRow` only if the rows stand for nothing,
//! under each schema that has the table. `table_columns` has one list of each table's columns, from which the texts of
//! statements follow. Every call that allocates returns an error if memory runs out.
#![tactic(auto)]

mod column_lists;
mod columns;
mod creating;
mod element_texts;
mod error;
mod kinds;
mod known;
mod law;
mod listed;
mod numbers;
mod optional;
mod same;
mod schema;
mod schemas;
mod table_columns;
mod table_texts;
mod tables;
mod texts;

pub use column_lists::joined_ids;
pub use columns::Columns;
pub use creating::add_tables;
pub use error::StoreError;
pub use known::set_up;
pub use law::{one_earlier_state, one_state};
pub use listed::{Query, load_query};
pub use optional::{TextValue, text_or_null};
pub use schema::Schema;
pub use schemas::find_schema;
