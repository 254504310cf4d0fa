//! What is told of a package that was received: what an APPLY (in a distribution zone, an ACCEPT) of its SYSMODs would
//! make of them, together with what GROUPEXTEND brings in. The summary, the document and the certificate are made from
//! the same zones, without a store and without the surroundings of the program. Every call that allocates returns
//! `AllocError` if memory runs out; no contract says when.
#![tactic(auto)]

mod asked_ids;
mod certified;
mod documented;
mod facts;
mod lines;
mod mended;
mod selection;
mod summarized;

pub use asked_ids::Answer;
pub use certified::package_certificate;
pub use documented::json_answer;
pub use facts::PackageFacts;
pub use mended::mend_answer;
pub use smpe_certificate::Digest;
pub use summarized::summary_answer;
