//! Why an id that a command names is not one of its candidates.

/// The status of an id that a command names and that is not one of its candidates. SELECT and GROUP name an id that is
/// `Already` supplied, `Deleted`, `Missing` from the global zone, or has `NoVer` for the zone's SREL. RESTORE names an
/// id that is `NotApplied`.
#[derive(Clone, Copy, Debug, PartialEq, Eq, PartialOrd, Ord, Hash)]
pub enum NotChosen {
    Already,
    Deleted,
    Missing,
    NoVer,
    NotApplied,
}
