//! Target and distribution zones: the entries of SYSMODs and of elements, and how a zone changes. Look-ups are those of
//! the definitions, and a changed zone has at each key what the delta leaves there. No contract says that what a delta
//! does not put is moved and never copied. Every call that allocates returns `AllocError` if memory runs out, and then
//! changes nothing.
#![tactic(auto)]

mod delta;
mod edits;
mod entries;
mod equal;
mod zone;

pub use delta::ZoneDelta;
pub use edits::ZoneEdits;
pub use entries::{Applied, Element, Entry};
pub use equal::{are_same_elements, are_same_entries, is_same_as_existing};
pub use zone::{PreparedZone, Zone};
