// The line of a grant.
ghost use Rattle.std.specs.Prelude.{◌≡◌, ℕ, List, [], ◌∷◌, ◌++◌, ◌%◌, ◌≤◌, length, take};
ghost use Rattle.binary.specs.Number.{overwrite};
ghost use Rattle.calendar.specs.Text.{last_day};
ghost use Rattle.roster.specs.Csv.{comma, carriage_return, line_feed};
ghost use Rattle.roster.specs.Fields.{rights_digits, hex_digit, hex_text};
ghost use Rattle.roster.specs.Roster.{line_of};

use crate::characters::{CARRIAGE_RETURN, COMMA, LINE_FEED};
use binary::{put_bytes, put_u8};
use calendar::put_day;
use decimal::put_decimal;
use state::Login;
use std::marker::Model;

// The longest line: a login of ten digits, a date of ten characters, four digits of rights, two commas, CR and LF.
pub const LINE_ROOM: usize = 28;

// A line, at the front of the bytes. An array with a length beside it: memory is fixed, and there is no heap.
#[derive(Drop)]
pub struct Line {
    bytes: [u8; LINE_ROOM],
    length: usize,
}

impl Model for Line {
    ghost Value = { List ℕ };

    ghost view = { λ l. take l.length l.bytes };

    ghost invariant = { λ l. l.length ≤ 28 };
}

impl Line {
    pub fn text(&self) -> &[u8]
        ensures value { result.now ≡ self.now }
        ensures upper_bound { length result.now ≤ 28 }
    {
        &self.bytes[..self.length]
    }
}

// The last hexadecimal digit of a number.
fn hex_digit(x: u16) -> u8
    ensures { result ≡ hex_digit (x % 16) }
{
    let digit = (x % 16) as u8;
    if digit < 10 {
        b'0' + digit
    } else {
        b'A' + (digit - 10)
    }
}

// What stands behind the date: a comma, the rights and the line's end.
fn rights_text(rights: u16) -> [u8; 7]
    ensures { result ≡ comma ∷ (hex_text rights_digits rights ++ (carriage_return ∷ line_feed ∷ [])) }
{
    [
        COMMA,
        hex_digit(rights / 16 / 16 / 16),
        hex_digit(rights / 16 / 16),
        hex_digit(rights / 16),
        hex_digit(rights),
        CARRIAGE_RETURN,
        LINE_FEED,
    ]
}

// A row whose end day has a date.
#[derive(Clone, Copy)]
pub struct DatedRow {
    pub row: Login,
    ghost dated: { row.end.0 ≤ last_day },
}

impl DatedRow {
    // Writes the row's line to the front of a slice, and answers where it ends.
    #[tactic(auto, using(crate::proofs::LineBytes::login_size))]
    pub fn put_line(self, out: &mut [u8]) -> usize
        requires { 28 ≤ length out.old }
        ensures value { result ≡ length (line_of self.row) }
        ensures upper_bound { result ≤ 28 }
        ensures out_after { out.new ≡ overwrite (line_of self.row) out.old }
    {
        let row = self.row;
        let date = put_decimal(out, 0, row.login as u64);
        put_u8(out, date, COMMA);
        put_day(out, date + 1, row.end.0);
        put_bytes(out, date + 11, &rights_text(row.rights))
    }

    pub fn line(self) -> Line
        ensures { result ≡ line_of self.row }
    {
        let mut bytes = [0; LINE_ROOM];
        let length = self.put_line(&mut bytes);
        Line { bytes, length }
    }
}
