//! The small values that files, tables and commands share. Each is checked once, when it is made. Ids, names, dates,
//! reasons and classes are read exactly if the text has their form. Contracts see them as that text, and their order
//! and equality are the text's. The number of a `++VER` fits into a column of a table. A list that rises (`Rising`) is
//! its items, found by binary search. Each kind, type and code has one word, in files, tables and reports alike
//! (`spelling`). What commands choose and bypass are plain values, whatever file they come from. Every call that
//! allocates returns `AllocError` if memory runs out, and then changes nothing.
#![tactic(auto)]

mod attest;
mod bypass;
mod dates;
mod forms;
mod hold_parts;
mod ids;
mod names;
mod padded;
mod rising_lists;
mod selections;
pub mod spelling;
mod ver_number;

pub use attest::Attest;
pub use bypass::{Bypass, Reasons};
pub use dates::YyDdd;
pub use hold_parts::{HoldDate, Reason};
pub use ids::{Class, Id, Source};
pub use names::{Name, Srel, ZoneName};
pub use rising_lists::{Field, Rising};
pub use selections::{ReceiveOperands, RestoreList, Selection};
pub use ver_number::VerNumber;

/// Ids in rising order.
pub type IdList = Rising<Id>;

/// Source ids in rising order.
pub type SourceList = Rising<Source>;

/// Reasons of holds in rising order.
pub type ReasonList = Rising<Reason>;

/// Classes of holds in rising order.
pub type ClassList = Rising<Class>;
