//! The SYSMODs of the global zone, from the tables that hold them under each schema. `load_sysmods` returns those of
//! the inventory for which the rows stand, and `BadRow` only if there is none. No contract says that it makes one query
//! and one sort of each table, and one pass over all rows. Every call that allocates returns an error if memory runs
//! out.
#![tactic(auto)]

mod building;
mod gathering;
mod heads;
mod joining;
mod load;
mod loading;
mod rows_of;

pub use load::load_sysmods;
