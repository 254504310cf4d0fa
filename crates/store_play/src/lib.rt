//! Stores for the tests: a state that uses every column, written row by row, in memory and over files on disks in
//! memory, with rows and texts to compare.
#![tactic(auto)]

mod rows;
mod stores;
mod texts;

pub use rows::{
    CHOSEN, FURTHER, SOURCES, all_lines, fill_without_sources, query_lines, records, run, run_all,
    run_doubling, shared_lines,
};
pub use stores::{
    close, commit_edits, commit_zone, load_zone, open_in_memory, open_known_rows, open_new_files,
    open_store, reopen, zone_name,
};
pub use texts::{compare, first_difference};
