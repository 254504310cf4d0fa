//! What `smpe verify` finds in a store: whether its zones are closed. `verify` loads the global zone and then one zone
//! after the other, and finds the first rule of a closed zone that one of them breaks, or counts what it has seen.
//! `describe_verification` puts that into words, with the program's status. `first_breach` is the test of a single
//! zone. If all zones are closed, the tables stand for a state, whatever they hold. There are two laws: the status is 0
//! exactly if all zones are closed (`verified_is_closed`), and a breach that is told is one (`told_is_broken`). Every
//! call that allocates returns an error if memory runs out; no contract says when.
#![tactic(auto)]

mod breach;
mod closed;
mod element_rules;
mod entry_rules;
mod joined;
mod law;
mod told;
mod verification;
mod zone_by_zone;

pub use breach::{Breach, ElementFault, EntryFault, Level};
pub use closed::first_breach;
pub use law::{told_is_broken, verified_is_closed};
pub use told::{VerifyAnswer, describe_verification};
pub use verification::{Counts, Verification};
pub use zone_by_zone::verify;
