//! The date of a job on the command line.
ghost use Rattle.std.specs.Prelude.{◌≡◌, ◌↔◌, IsSome, IfSome, IsTrue, ◌≤◌, ℕ, length, pos};
ghost use Rattle.jiff_core.specs.Date.{IsYmd, ordinal};
ghost use Rattle.smpe_invocation.specs.Dates.{AreDigits, HasDateDigits, HasDateForm, IsCalendarDay, day_of, dotted};
ghost use Rattle.smpe_invocation.specs.Dates.{month_of, year_of};

use fields::YyDdd;
use jiff::civil::Date;

/// Reads a date of four digits for the year, two for the month and two for the day, with hyphens between them. Returns
/// `None` for any other text, and for a day that the calendar lacks.
pub fn read_date(text: &str) -> Option<YyDdd>
    ensures form { IsSome result ↔ (HasDateForm text.now × IsCalendarDay text.now) }
    ensures value { IfSome result (λ date. date ≡ dotted text.now) }
{
    if !has_date_form(text.as_bytes()) {
        return None;
    }
    let date = calendar_day(text)?;
    Some(YyDdd::new(year(date), day_of_year(date)))
}

// The year of the date, which is not negative because its text has no sign.
fn year(date: Date) -> u16
    requires { (y : ℕ) × (date.year ≡ pos y) }
    ensures { pos result ≡ date.year }
{
    date.year() as u16
}

// The day's number in its year, from 1 to 366.
fn day_of_year(date: Date) -> u16
    ensures value { result ≡ ordinal date }
    ensures first { 1 ≤ result }
    ensures last { result ≤ 366 }
{
    date.day_of_year() as u16
}

// The day that a text of this form names, if the calendar has it.
fn calendar_day(text: &str) -> Option<Date>
    requires { HasDateForm text.now }
    ensures form { IsSome result ↔ IsCalendarDay text.now }
    ensures value { IfSome result (IsYmd (pos (year_of text.now)) (pos (month_of text.now)) (pos (day_of text.now))) }
{
    text.parse().ok()
}

// Whether the text is YYYY-MM-DD, of digits.
fn has_date_form(text: &[u8]) -> bool
    ensures { IsTrue result ↔ HasDateForm text.now }
{
    text.len() == 10 && text[4] == b'-' && text[7] == b'-' && has_date_digits(text)
}

// Whether the places of the year, the month and the day have only digits.
fn has_date_digits(text: &[u8]) -> bool
    requires { length text.now ≡ 10 }
    ensures { IsTrue result ↔ HasDateDigits text.now }
{
    are_digits(&text[..4]) && are_digits(&text[5..7]) && are_digits(&text[8..10])
}

fn are_digits(text: &[u8]) -> bool
    ensures { IsTrue result ↔ AreDigits text.now }
{
    text.iter().all(|byte| byte.is_ascii_digit())
}
