//! What a shop's commands ask for. The commands of a file are read with SMP/E's own words (`wide_commands`), and so is
//! a list of SYSMODs (`read_known`), whose contract says what it has. `are_said` tells whether commands of the profile
//! say exactly what these ask for: its contract defines that, operand by operand. Every call that allocates fails with
//! `AllocError` if memory runs out.
#![tactic(auto)]

mod bypasses;
mod commands;
mod known;
mod lists;
mod names;
mod operands;
mod ptfin;
mod same;
mod scan;
mod selections;
mod sources;

pub use commands::{are_said, changes_no_decision, says_after};
pub use known::{
    KnownFile, KnownList, KnownSysmod, KnownSysmods, gather_known, known_of_statements, read_known,
};
pub use ptfin::is_statement_file;
pub use scan::{CommandComment, CommandEnd, WideCommand, WideCommands, wide_commands};
