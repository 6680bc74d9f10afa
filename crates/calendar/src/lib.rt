// Dates: the Gregorian calendar from 1970-01-01 to 2099-12-31.
#![tactic(auto)]

ghost use Rattle.std.specs.Prelude.{◌≡◌, cond, ◌+◌, ◌-◌, ◌%◌, ◌≤◌, ◌<◌, length};
ghost use Rattle.binary.specs.Splice.{splice};
ghost use Rattle.calendar.specs.Calendar.{is_leap, date_of, years_days};
ghost use Rattle.calendar.specs.Code.{stretched};
ghost use Rattle.calendar.specs.Text.{last_day, date_text, day_text};

use binary::put_bytes;

mod reading;

pub use reading::{DATE_SIZE, day_in};

// 2099-12-31.
pub const LAST_DAY: u32 = 47481;

// A day of the calendar: month and day are counted from 1.
#[derive(Clone, Copy, Debug, PartialEq, Eq)]
pub struct Date {
    pub year: u16,
    pub month: u8,
    pub day: u8,
}

// A day of a year, counted from 0, as if February had 30 days, so that one formula serves for all months.
#[tactic(auto, using(lists::proofs::Cases::cases), unfolding(crate::specs::Code::stretched))]
fn stretched(leap: bool, day: u32) -> u32
    requires { day < 366 }
    ensures value { result ≡ stretched leap day }
    ensures upper_bound { result ≤ day + 2 }
{
    if leap {
        if day < 60 {
            return day;
        }
        return day + 1;
    }
    if day < 59 {
        return day;
    }
    day + 2
}

// The date of a day of a year, counted from 0.
fn date_in_year(year: u16, leap: bool, day: u32) -> Date
    requires { (1970 ≤ year) × ((leap ≡ is_leap year) × (day < cond leap 366 365)) }
    ensures { result ≡ date_of (years_days (year - 1970) + day) }
{
    let at = stretched(leap, day);
    let month = (12 * at + 6) / 367; // counted from 0
    let first = (367 * month + 5) / 12; // the day with which it starts
    Date {
        year: year,
        month: (month + 1) as u8,
        day: (at - first + 1) as u8,
    }
}

// The date of a day up to 2099-12-31. From 1970 to 2099 every fourth year is a leap year, 2000 included, so this short rule serves.
pub fn date_of(day: u32) -> Date
    requires { day ≤ last_day }
    ensures { result ≡ date_of day }
{
    let years = (4 * day + 2) / 1461; // whole years since 1970
    let rest = day - (365 * years + (years + 1) / 4); // day of the year, from 0
    let leap = (years + 2) % 4 == 0;
    date_in_year((1970 + years) as u16, leap, rest)
}

// The last digit of a number.
fn digit(x: u16) -> u8
    ensures { result ≡ 48 + x % 10 }
{
    b'0' + (x % 10) as u8
}

// The ten characters of a date.
#[tactic(auto, unfolding(decimal::specs::Decimal::padded))]
fn date_text(date: Date) -> [u8; 10]
    ensures { result ≡ date_text date }
{
    let year = date.year;
    let month = date.month as u16;
    let day = date.day as u16;
    [
        digit(year / 10 / 10 / 10),
        digit(year / 10 / 10),
        digit(year / 10),
        digit(year),
        b'-',
        digit(month / 10),
        digit(month),
        b'-',
        digit(day / 10),
        digit(day),
    ]
}

// Writes the ten characters of a day at a position.
#[tactic(auto, unfolding(crate::specs::Text::day_text))]
pub fn put_day(out: &mut [u8], at: usize, day: u32)
    requires { (day ≤ last_day) × (at + 10 ≤ length out.old) }
    ensures { out.new ≡ splice out.old at (day_text day) }
{
    let text = date_text(date_of(day));
    put_bytes(out, at, &text);
}
