//! Texts of elements as records of 80 bytes: numbered texts, updates of them, and their merge. A text or an update is
//! read exactly if it is one, otherwise the call returns the first bad record. `merge` is the merge of the two maps. No
//! contract says that it is one pass. Every call that allocates returns an error if memory runs out.
#![tactic(auto)]

mod control;
mod error;
mod line;
mod merging;
mod numbered;
mod update;

pub use control::Range;
pub use error::TextError;
pub use line::{Line, RECORD, bytes_of, lines_of};
pub use merging::merge;
pub use numbered::Numbered;
pub use terms::{TextCode, TextFault};
pub use update::Update;
