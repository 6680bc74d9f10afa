// The columns of a line, each with the character behind it, written to a slice at a position. No Display: a contract knows what a format writes to a
// String alone, and memory is fixed.
ghost use Rattle.std.specs.Prelude.{◌≡◌, ◌+◌, ◌≤◌, ◌<◌, length};
ghost use Rattle.binary.specs.Splice.{splice};
ghost use Rattle.state.specs.Limits.{right_count};
ghost use Rattle.page.specs.Line.{login_column, end_column, rights_column, place, word_column, ◌then◌, space, line_feed};
ghost use Rattle.page.specs.Page.{end_shown};

use crate::Word;
use binary::{put_bytes, put_u8};
use calendar::{LAST_DAY, put_day};
use decimal::put_aligned;
use state::limits::RIGHTS;
use state::{Day, is_held};

// The width of the columns of the login and of the end date.
const COLUMN: usize = 10;

pub fn put_login(out: &mut [u8], at: usize, login: u32)
    requires { at + (login_column then space).width ≤ length out.old }
    ensures { out.new ≡ splice out.old at ((login_column then space).encode login) }
{
    put_aligned(out, at, COLUMN, u64::from(login));
    put_u8(out, at + COLUMN, b' ');
}

// The date, or hyphens where it is after 2099-12-31.
pub fn put_end(out: &mut [u8], at: usize, end: Day)
    requires { at + (end_column then space).width ≤ length out.old }
    ensures { out.new ≡ splice out.old at ((end_column then space).encode (end_shown end)) }
{
    if LAST_DAY < end.0 {
        put_bytes(out, at, b"---------- ");
    } else {
        put_day(out, at, end.0);
        put_u8(out, at + COLUMN, b' ');
    }
}

// The letter of a right that is held, else a hyphen.
fn place_of(rights: u16, right: u8) -> u8
    requires { right < right_count }
    ensures { result ≡ place right rights }
{
    if is_held(rights, right) {
        b'A' + right
    } else {
        b'-'
    }
}

pub fn put_rights(out: &mut [u8], at: usize, rights: u16)
    requires { at + (rights_column then space).width ≤ length out.old }
    ensures { out.new ≡ splice out.old at ((rights_column then space).encode rights) }
{
    for i in 0..RIGHTS {
        out[at + usize::from(i)] = place_of(rights, i);
    }
    put_u8(out, at + usize::from(RIGHTS), b' ');
}

pub fn put_word(out: &mut [u8], at: usize, word: Word)
    requires { at + (word_column then line_feed).width ≤ length out.old }
    ensures { out.new ≡ splice out.old at ((word_column then line_feed).encode word) }
{
    let text = match word {
        Word::Open => b"open   \n",
        Word::Ended => b"ended  \n",
        Word::Silent => b"silent \n",
    };
    put_bytes(out, at, text);
}
