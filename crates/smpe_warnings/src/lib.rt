//! What `smpe` says on standard error next to a report: which card it means, which command ran in another zone than it
//! was meant for, why a zone was refused, and what a run should be warned of, as the tables show that it has left. The
//! crate makes texts, and no contract says which. Every call that makes one returns an error if memory runs out, and
//! those that ask a database also if it does not answer.
#![tactic(auto)]

mod asking;
mod chosen;
mod deleted;
mod fault;
mod known;
mod lowered;
mod ran;
mod received;
mod related;
mod report;
mod superseded;
mod warnings;

pub use asking::Database;
pub use fault::WarningFault;
pub use related::{RelatedZone, related_name};
pub use report::{ReadFile, ReportWatch, careful_zone_hint};
