//! Tables: items in the order of their keys, no key twice. Lists by keys: for each key some values. Every call that
//! allocates returns `AllocError` if memory runs out, and then leaves what it would have changed as it was, unless its
//! comment says otherwise.
#![tactic(auto)]

mod copies;
mod edits;
mod keyed;
mod merging;
pub mod multi_map;
mod table;

pub use copies::{TryClone, try_clone_all};
pub use edits::Edit;
pub use keyed::{Keyed, are_rising, place};
pub use table::{Prepared, Table};
