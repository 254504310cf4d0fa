//! The statements of a shop's files, in the wide grammar of SMP/E, as plain structs, and the remarks on those that
//! cannot be read as what they say. `WideOperand::text` and `list_members` have contracts, and `WideReader` says where
//! the holds begin that it hands out. Of the other functions it is proved that they never panic, and only tested that
//! they read each statement as SMP/E does. Every call that allocates fails with `AllocError` if memory runs out.
#![tactic(auto)]

mod errors;
mod from_statement;
mod gather;
mod items;
mod meaning;
mod operands;
mod read;
mod reader;
mod remarks;
mod statement;

pub use errors::WideError;
pub use intake_cards::{Card, CardPlace};
pub use items::{
    FaultyOperand, Note, NoteReason, OperandFault, OtherReason, SwallowedStatement, WideAssign,
    WideElement, WideFile, WideHold, WideHoldKind, WideIf, WideOperand, WideOther, WideRelease,
    WideSysmod, WideVer,
};
pub use operands::list_members;
pub use reader::WideReader;
pub use remarks::{fault_reason, missing_word, tell_dropped_operands, tell_faulty_operands};
