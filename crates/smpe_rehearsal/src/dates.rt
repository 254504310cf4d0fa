//! A date for jobs whose date nothing shows.
use fields::YyDdd;

// The year of `any_date`. Any other would do.
const ANY_YEAR: u16 = 2000;

// The day of `any_date` in its year. Any other would do.
const ANY_DAY: u16 = 1;

/// A date for a job that neither prints its date nor stores it.
pub fn any_date() -> YyDdd {
    YyDdd::new(ANY_YEAR, ANY_DAY)
}
