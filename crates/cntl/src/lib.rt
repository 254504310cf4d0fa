//! Command files: their commands, or the first fault. `read_cntl` returns the commands to which the grammar relates the
//! file, or its first fault with the record. No file has both.
#![tactic(auto)]

mod bypassed;
mod command;
mod command_reading;
mod doubles;
mod error;
mod file;
mod forms;
mod operand_values;
mod restore_choice;
mod run_state;
mod runs;
mod tables;

pub use command::{Command, Install};
pub use error::CntlError;
pub use fields::{
    Bypass, Class, ClassList, Reason, ReasonList, Reasons, ReceiveOperands, RestoreList, Selection,
    Source, SourceList, ZoneName,
};
pub use file::read_cntl;
pub use terms::{CommandCode, HoldKind, NeedKind};
