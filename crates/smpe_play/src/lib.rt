//! Playing jobs for tests: as text cards against a store in memory and against files on disks in memory, comparing what
//! each job prints and returns. It has the jobs with which many cases begin.
#![tactic(auto)]

mod cards;
mod disks;
mod job_lists;
mod rows;
mod running;
mod steps;

pub use cards::{
    Case, DELETER_INSTALLED, FAILING, FIX, FUNCTION, FUNCTION_INSTALLED, FUNCTION_LISTED,
    FUNCTION_RECEIVED, JOB, JobStep, LISTING, LISTING_TEXTS, RECEIVE, RECEIVING, REFUSED,
    RIVAL_RECEIVED, UPDATE_INSTALLED,
};
pub use disks::{open_files, open_in_memory, open_new_files, open_store};
pub use job_lists::{ListWanted, play_jobs};
pub use rows::query_lines;
pub use running::{job_over, run_printing, zone_name};
pub use steps::{
    Plays, RowsLeft, StepPlace, installed, installed_files, play, play_cases, play_installed,
    play_made, play_rows, run_step,
};
