//! How an APPLY, an ACCEPT or a RESTORE changes its zone. The delta of `install` makes of the old zone the one that the
//! definition of an install demands (`HasInstalled`), whatever is kept and whatever zone results. It asks that of any
//! two kept SYSMODs that change one element one is over the other, and that what they update exists. `Installed` tells
//! those that become APPLIED from those that are SUPERSEDED. `install_judged` installs what is kept of a `Judged`, for
//! which the tests and the decision give both. The delta of `restore` makes of a target zone the one that
//! the definition of a restore demands (`Restores`), whatever is kept. Each edit of a delta changes something. No
//! contract says how much work that is: an install is one pass over what is installed and, if something is deleted, one
//! over the zone's entries and elements. A restore is one pass over the entries, and one over what changes. Every call
//! that allocates returns `AllocError` if memory runs out.
#![tactic(auto)]

mod changed_elements;
mod deleting;
mod differing;
mod effective;
mod entries;
mod folding;
mod installing;
mod judged;
mod ordering;
mod pairs;
mod plan;
mod restoring;

pub use installing::{Installed, Installing, install};
pub use judged::install_judged;
pub use restoring::restore;
