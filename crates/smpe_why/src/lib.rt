//! What `smpe why` tells about ids in a zone of a store. `load_zones` loads the global zone, the zone, and the target
//! zone at which an ACCEPT there also looks, and changes nothing, whatever the tables hold. `answer_question` makes
//! from them the lines of the facts of the ids, each with what an APPLY or ACCEPT that selects it, alone or with the
//! others, would print about it, in words, and the program's status, or a refusal if there is no such zone.
//! `read_bypass` reads the BYPASS of a question. Two laws of `machine_laws` say more: what such an APPLY prints is the
//! same on any date (`prints_same_on_any_date`), and an id that no fact blocks is applied (`clear_is_applied`). Every
//! call that allocates returns an error if memory runs out; no contract says when.
#![tactic(auto)]

mod bypass_text;
mod found;
mod question;
mod told;

pub use bypass_text::read_bypass;
pub use found::{LoadedZones, load_zones};
pub use question::Question;
pub use told::{WhyAnswer, answer_question};
