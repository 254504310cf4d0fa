//! Plays tables of what the lower floors read and find: fields, texts, records, commands, statements, the global zone,
//! and systems of numbers. Standard input is a script, which says above its cases what its steps mean. It prints each
//! row of a table that gives another answer.
#![tactic(auto)]

mod commands;
mod files;
mod global_zones;
mod holds;
mod operands;
mod ptfin;
mod row_text;
mod rules;
mod sysmod_values;
mod systems;
mod tables;
mod texts;
mod values;
mod words;

use scripts::play_input;
use std::test::Fail;
use tables::Tables;

fn main(rt: HostRuntime) -> Result<(), Fail> {
    play_input(&rt, &mut Tables)
}
