//! Jobs without the commands that they run: their answers and errors, how they end over a store, and what `smpe` says
//! about it. `zone_line` and `fault_line` write the program's lines and return its exit status, and
//! `listing_commands` is the job of a listing. `define_zone` is the one job without commands. It leads to the machine's
//! state, or returns the first fault that applies and changes nothing. Whatever the tables hold (`goes`), it has
//! loaded, or added this zone besides; a refusal and the answer `NoState` have changed nothing. Two laws follow from
//! how jobs end: what the next open finds after an error (`next_open_finds`), and that jobs over a new database end
//! with closed zones (`ends_closed`). A fault of the database has a cause in the call that returns it. No contract says
//! when memory runs out.
#![tactic(auto)]

mod again;
mod error;
mod jobs;
mod law;
mod list_job;
mod messages;
mod zone_definition;
mod zone_error;
mod zone_faults;

pub use again::reopen;
pub use error::JobError;
pub use jobs::{Answer, Job};
pub use law::{ends_closed, next_open_finds};
pub use list_job::{commands_in_zone, listing_commands, two_commands};
pub use messages::{FAULT_STATUS, Fault, fault_line, status_of, write_migrated_line, zone_line};
pub use zone_definition::define_zone;
pub use zone_error::{ZoneError, ZoneFault};
