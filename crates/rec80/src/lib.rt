//! Files of 80-byte records: their statements and commands, the words of these as slices of the file, and the operands
//! among the words. Only lists of values take memory, and they return an error if it runs out. A file consists of these
//! records, or has this first fault (`records`). Groups, statements, commands, words, members and inline records are
//! those of the grammar, or the call returns the named fault (`next_group`, `statement`, `next_command`, `next_word`,
//! `members`). `operands` reads the words once, whatever else there is. `operand` finds the operand of a name among
//! them, and `named_member` a member of a list. A flag, a list's only member, and a list without duplicates, in rising
//! order, are read exactly if the word has that form.
#![tactic(auto)]

mod among;
mod commands;
mod cursor;
mod error;
mod find;
mod groups;
mod lists;
mod member;
mod members;
mod operand_errors;
mod operand_lists;
mod operand_members;
mod operands;
mod piece;
mod read;
mod record_files;
mod scan;
mod single_operands;
mod statements;
mod text;
mod walk;
mod words;

pub use among::{are_members, is_among};
pub use commands::{CommandError, CommandWords, Commands};
pub use error::{RecError, StmtError};
pub use fields::{Field, Id, IdList, Rising};
pub use find::{named_member, operand};
pub use groups::{Group, Groups, StartsOutside};
pub use member::Member;
pub use members::{Members, NoMembers};
pub use operand_errors::{BadOperand, OperandError};
pub use operand_lists::{ids, ids_in_file_order, rising};
pub use operands::Operands;
pub use piece::{Piece, is_part_of_word};
pub use read::records;
pub use record_files::{Record, Records};
pub use single_operands::{flag, one, optional, required};
pub use statements::statement;
pub use text::Text;
pub use words::{NoWord, Word, Words};
