//! The answer of `smpe check` for programs: one document in JSON, on a line. It has the command that was tried, with
//! all its lines, the summary of it, what is to be done, remarks on the files, and the status. The text is that of a
//! value (`check_value`), and is read as this value. The law (`laws`): a document is read as one command, with just the
//! header and the lines that it prints. A document may also say only why there is no answer. Every call that allocates
//! returns `AllocError` if memory runs out.
#![tactic(auto)]

mod document;
pub mod laws;
mod lines;
mod summary;
mod texts;
mod values;

pub use document::{check_document, fault_document};
