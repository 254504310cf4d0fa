//! What `smpe lint` answers about the files of a service stream. The files are carried as for CHECK, each SYSMOD is
//! received into an empty global zone, and `stream` says what breaks the rules there. All is told at once: faults of
//! statements, SYSMODs that RECEIVE refuses, broken rules, and remarks. `lint_files` promises that its status is 0 or 4
//! only if each SYSMOD of the files is carried, RECEIVE takes all that is carried, and this is a clean stream. Its
//! texts have no contracts. Every call that allocates returns `AllocError` if memory runs out.
#![tactic(auto)]

mod answer;
mod breaches;
mod faults;
mod finding;
mod inputs;
mod json;
mod receiving;
mod remarks;
mod text;

pub use answer::{LintAnswer, lint_files};
pub use intake_service::GivenFile;
pub use smpe_invocation::LintForm;
