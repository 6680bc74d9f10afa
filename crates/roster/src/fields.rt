// The three fields of a line, each with what separates it from the text behind it. A value is read where it stands, quoted or not: none has a quote in
// it, so nothing is copied.
ghost use Rattle.std.specs.Prelude.{◌≡◌, ◌+◌, ◌*◌, ◌<◌, true, cond, drop, IfSome};
ghost use Rattle.calendar.specs.Text.{day_in};
ghost use Rattle.roster.specs.Csv.{quote, begins};
ghost use Rattle.roster.specs.Fields.{rights_digits, rights_in};
ghost use Rattle.roster.specs.Code.{ReadsAs, value_found, field_found, login_at, date_size, value_at, hex_of, separator, closed, field_by};

use crate::characters::{QUOTE, behind, behind_quote, behind_separator};
use calendar::{DATE_SIZE, day_in};
use decimal::number_at;

const MOST_LOGIN_DIGITS: usize = 10;

const MOST_LOGIN: u64 = 4294967295;

const RIGHTS_DIGITS: usize = 4;

// The values where they stand, without quotes, and the texts behind them.
#[tactic(auto, unfolding(crate::specs::Code::login_at))]
pub fn login_at(text: &[u8]) -> Option<(u32, &[u8])>
    ensures { field_found result ≡ login_at text.now }
{
    let login = number_at(text, 0, MOST_LOGIN_DIGITS);
    if !(1..=MOST_LOGIN).contains(&login.value) {
        return None;
    }
    Some((login.value as u32, &text[login.end..]))
}

#[tactic(auto, using(crate::proofs::Chains::chains, crate::proofs::Values::end_short))]
pub fn end_at(text: &[u8]) -> Option<(u32, &[u8])>
    ensures { field_found result ≡ value_at date_size day_in text.now }
{
    let (date, rest) = text.split_at_checked(DATE_SIZE)?;
    Some((day_in(date)?, rest))
}

// The value of a hexadecimal digit.
fn hex_of(c: u8) -> Option<u32>
    ensures value { value_found result ≡ hex_of c }
    ensures bound { IfSome result (λ d. d < 16) }
{
    char::from(c).to_digit(16)
}

// The number with these four hexadecimal digits.
fn four_digits(a: u32, b: u32, c: u32, d: u32) -> u32
    requires { (a < 16) × ((b < 16) × ((c < 16) × (d < 16))) }
    ensures { result ≡ 16 * (16 * (16 * a + b) + c) + d }
{
    16 * (16 * (16 * a + b) + c) + d
}

// The rights of four characters.
#[tactic(auto, using(crate::proofs::Chains::chains, crate::proofs::Values::rights_of))]
fn rights_in(text: &[u8; RIGHTS_DIGITS]) -> Option<u32>
    ensures { value_found result ≡ rights_in text.now }
{
    let [a, b, c, d] = *text;
    let rights = four_digits(hex_of(a)?, hex_of(b)?, hex_of(c)?, hex_of(d)?);
    if rights == 0 { None } else { Some(rights) }
}

#[tactic(auto, using(crate::proofs::Chains::chains, crate::proofs::Values::rights_short))]
pub fn rights_at(text: &[u8]) -> Option<(u32, &[u8])>
    ensures { field_found result ≡ value_at rights_digits rights_in text.now }
{
    let (digits, rest) = text.split_first_chunk::<RIGHTS_DIGITS>()?;
    Some((rights_in(digits)?, rest))
}

// Whether a field is quoted, and the text where its value begins.
fn open(text: &[u8]) -> (bool, &[u8])
    ensures quoted_value { result.0 ≡ begins quote text.now }
    ensures text_value { result.1.now ≡ cond result.0 (drop 1 text.now) text.now }
{
    match behind(text, QUOTE) {
        Some(value) => (true, value),
        None => (false, text),
    }
}

// A value where its field is closed and its separator follows: the end of the line, if the field is the last one, or a comma.
#[tactic(auto, using(crate::proofs::Chains::chains))]
fn ended(value: u32, text: &[u8], quoted: bool, last: bool) -> Option<(u32, &[u8])>
    ensures { field_found result ≡ closed quoted (separator last) (value, text.now) }
{
    let rest = behind_quote(text, quoted)?;
    Some((value, behind_separator(rest, last)?))
}

// A field with its separator, where `read` reads its value.
#[tactic(auto, using(crate::proofs::Chains::chains))]
pub fn field<'a, F: Fn(&'a [u8]) -> Option<(u32, &'a [u8])>>(
    text: &'a [u8],
    read: F,
    last: bool,
) -> Option<(u32, &'a [u8])>
    requires { F.IsAlwaysCallable read }
    ensures { (find : _) → ReadsAs (F.post read) find → field_found result ≡ field_by find last text.now }
{
    let (quoted, text) = open(text);
    let (value, rest) = read(text)?;
    ended(value, rest, quoted, last)
}
