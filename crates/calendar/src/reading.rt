// Reading a date of ten characters.
ghost use Rattle.std.specs.Prelude.{◌≡◌, true, ◌+◌, ◌*◌, ◌<◌, length};
ghost use Rattle.calendar.specs.Calendar.{date, month_days, months_days, day_of};
ghost use Rattle.calendar.specs.Code.{are_digits, two_digits, is_date_like};
ghost use Rattle.calendar.specs.Text.{is_date, date_in, day_in, day_read};

use super::Date;

// The characters of a date.
pub const DATE_SIZE: usize = 10;

// Both characters are digits.
fn are_digits(a: u8, b: u8) -> bool
    ensures { result ≡ are_digits a b }
{
    a.is_ascii_digit() & b.is_ascii_digit()
}

// The number of two digits.
fn two_digits(a: u8, b: u8) -> u8
    requires { are_digits a b ≡ true }
    ensures { result ≡ two_digits a b }
{
    10 * (a - b'0') + (b - b'0')
}

// Digits and hyphens stand where a date has them.
#[tactic(auto, unfolding(crate::specs::Code::is_date_like))]
fn is_date_like(text: &[u8; DATE_SIZE]) -> bool
    ensures { result ≡ is_date_like text.now }
{
    let year = are_digits(text[0], text[1]) & are_digits(text[2], text[3]);
    let month = (text[4] == b'-') & are_digits(text[5], text[6]);
    let day = (text[7] == b'-') & are_digits(text[8], text[9]);
    year & (month & day)
}

// The date of a hundred of years, the year in it, the month and the day.
fn date_by(hundred: u8, year: u8, month: u8, day: u8) -> Date
    ensures { result ≡ date (100 * hundred + year) month day }
{
    Date {
        year: 100 * (hundred as u16) + (year as u16),
        month,
        day,
    }
}

// The numbers that stand where a date has year, month and day.
#[tactic(auto, unfolding(crate::specs::Code::is_date_like))]
fn date_in(text: &[u8; DATE_SIZE]) -> Date
    requires { is_date_like text.now ≡ true }
    ensures { result ≡ date_in text.now }
{
    let hundred = two_digits(text[0], text[1]);
    let year = two_digits(text[2], text[3]);
    let month = two_digits(text[5], text[6]);
    let day = two_digits(text[8], text[9]);
    date_by(hundred, year, month, day)
}

// The days of a month, counted from 1.
#[tactic(auto, using(lists::proofs::Cases::cases), unfolding(crate::specs::Calendar::month_days))]
fn month_days(leap: bool, month: u8) -> u8
    ensures { result ≡ month_days leap month }
{
    match month {
        2 if leap => 29,
        2 => 28,
        4 | 6 | 9 | 11 => 30,
        _ => 31,
    }
}

// A date from 1970-01-01 to 2099-12-31: every fourth year has a leap day.
fn is_date(date: Date) -> bool
    ensures { result ≡ is_date date }
{
    let last = month_days(date.year % 4 == 0, date.month);
    let year = (1970..=2099).contains(&date.year);
    let month = (1..=12).contains(&date.month);
    let day = (1..=last).contains(&date.day);
    year & (month & day)
}

// The days of a year before a month, counted from 0: those of a year whose February has 30 days, less what it lacks.
#[tactic(auto, using(crate::proofs::Formulas::winter_before, crate::proofs::Formulas::leap_before, crate::proofs::Formulas::common_before))]
fn days_before(leap: bool, month: u32) -> u32
    requires { month < 12 }
    ensures { result ≡ months_days leap month }
{
    let first = (367 * month + 5) / 12;
    if month < 2 {
        return first;
    }
    if leap {
        return first - 1;
    }
    first - 2
}

// The number of the day of a date.
#[tactic(auto, unfolding(crate::specs::Text::is_date))]
fn day_of(date: Date) -> u32
    requires { is_date date ≡ true }
    ensures { result ≡ day_of date }
{
    let years = (date.year - 1970) as u32; // whole years since 1970
    let month = (date.month - 1) as u32; // counted from 0
    let day = (date.day - 1) as u32; // likewise
    let before = days_before(date.year % 4 == 0, month);
    365 * years + (years + 1) / 4 + before + day
}

// The day of ten characters, where they are the text of a date from 1970-01-01 to 2099-12-31.
pub fn day_in(text: &[u8]) -> Option<u32>
    ensures { day_read result ≡ day_in text.now }
{
    let text = text.as_array::<DATE_SIZE>()?;
    if !is_date_like(text) {
        return None;
    }
    let date = date_in(text);
    if !is_date(date) {
        return None;
    }
    Some(day_of(date))
}
