//! What is wrong with a word of the command line, or with a card of a file: which option has which value and what it
//! should look like, and which card, with the word of it that is at fault and what to write in its place. The crate
//! makes texts, and no contract says which. Every call that makes one returns an error if memory runs out.
#![tactic(auto)]

mod card;
mod command_operands;
mod fault;
mod lists;
mod operand;
mod places;
mod statement_operands;
mod texts;
mod vocabulary;
mod words;

pub use card::{RecordForm, card_text, find_set, has_whole_records, record_bytes};
pub use fault::{command_fault, statement_fault};
pub use operand::{CommandLine, no_command_hint, operand_hint};
pub use vocabulary::is_command;
