//! What the element statements of a shop's files change, each by itself: an element of the profile, with its text, or
//! what stands for one that the profile lacks. Every call that allocates fails with `AllocError` if memory runs out.
#![tactic(auto)]

mod changes;
mod element_words;
mod elements;
mod harmless;
mod modules;
mod options;
mod stand_in_names;
mod stand_ins;
mod subjects;
mod texts;
mod updates;

pub use changes::change_of;
pub use harmless::{are_all_read, are_both, lacks_nothing};
pub use modules::{keys_of, modules_of};
pub use options::{Options, RelfileMember, Syslib};
pub use stand_in_names::change_key;
pub use stand_ins::module_change;
pub use subjects::element_subject;
