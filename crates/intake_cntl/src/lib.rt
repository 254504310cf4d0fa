//! A shop's command file as one that the program reads.
//! Words that SMP/E abbreviates are spelled out, words that change no decision are dropped, each with a remark, and
//! every other word that the profile lacks is named; then there is no file. If there is one, `cntl` has read it as
//! commands that say exactly what the shop's commands ask for.
//! Every call that allocates fails with `AllocError` if memory runs out.
#![tactic(auto)]

mod bypass;
mod carried;
mod carry;
mod command_remarks;
mod file;
mod group_extend;
mod lists;
mod operand_context;
mod print;
mod received;
mod spelling;

pub use file::{CommandFile, command_file};
