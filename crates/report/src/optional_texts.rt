//! The texts of values that may be missing.
ghost use Rattle.std.specs.Prelude.{◌≡◌};
ghost use Rattle.machine.specs.Report.{optional_text};

use fields::{Class, HoldDate, Id};

/// The id, or `-`.
pub fn id_or_dash(id: &Option<Id>) -> &[u8]
    ensures { result.now ≡ optional_text id.now }
{
    match id {
        Some(id) => id.as_bytes(),
        None => b"-",
    }
}

/// The class, or `-`.
pub fn class_or_dash(class: &Option<Class>) -> &[u8]
    ensures { result.now ≡ optional_text class.now }
{
    match class {
        Some(class) => class.as_bytes(),
        None => b"-",
    }
}

/// The date, or `-`.
pub fn date_or_dash(date: &Option<HoldDate>) -> &[u8]
    ensures { result.now ≡ optional_text date.now }
{
    match date {
        Some(date) => date.as_bytes(),
        None => b"-",
    }
}
