//! The words of the subject: the plain data types that code and contracts share, and in `specs/` the definitions that
//! contracts cite. The functions answer for a value of a type alone, as whether an element's type has numbered texts.
//! `proofs/` has lemmas about the definitions: a file has one meaning or one first fault (`Exact..`), and a loop that a
//! new SYSMOD closes passes it (`Leads`). It also has the lemmas about lists, options, booleans and comparisons, each
//! stated once for all crates.
#![tactic(auto)]

mod codes;
mod kinds;
mod not_chosen;
mod statement_words;
mod text_faults;

pub use codes::{CommandCode, CommandWord, IdRefusal, NeedKind, StatementCode, Test};
pub use kinds::{ElemType, HoldKind, Kind, ZoneKind};
pub use not_chosen::NotChosen;
pub use statement_words::StatementWord;
pub use text_faults::{TextCode, TextFault};
