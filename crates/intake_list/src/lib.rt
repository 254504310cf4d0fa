//! What SMP/E's LIST prints of a zone, read as entries with their keys and values. `read_list` reads a whole list, and
//! other calls return what an entry says. Words are parts of the text that was read, and nothing is copied. No program
//! calls this crate yet. Every call that allocates returns `AllocError`, or the `Memory` of `ListError`, if memory runs
//! out.
#![tactic(auto)]

mod cut;
mod entry;
mod known_keys;
mod list;
mod list_words;
mod row;
mod says;
mod typed;
mod unread;
mod zone;

pub use cut::{ends_open, falls};
pub use entry::{ListEntry, ListKey, read_entries};
pub use known_keys::{element_keys, unknown_keys};
pub use list::{ListError, ZoneList, read_list};
pub use row::{ListRow, RowForm, read_rows};
pub use says::{Stands, has_value, standing_of, values_under};
pub use typed::{
    ListedLevel, ListedLibraries, ListedNeeds, ListedOthers, ListedRemovals, is_broken, level_of,
    libraries_of, needs_of, others_of, removals_of, type_of,
};
pub use unread::unread_lines;
pub use zone::{first_heading, names_zone, other_zone};
