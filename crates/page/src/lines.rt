// The lines of a page.
ghost use Rattle.std.specs.Prelude.{◌≡◌, [], ◌∷◌, ◌+◌, ◌*◌, ◌≤◌, length};
ghost use Rattle.binary.specs.Number.{overwrite};
ghost use Rattle.binary.specs.Splice.{splice};
ghost use Rattle.lists.specs.Fold.{count};
ghost use Rattle.state.specs.Rows.{is_login};
ghost use Rattle.page.specs.Layout.{line_size};
ghost use Rattle.page.specs.Line.{line};
ghost use Rattle.page.specs.Page.{word_of, line_of, line_count, lines_of, page_text};

use crate::Word;
use crate::columns::{put_end, put_login, put_rights, put_word};
use crate::layout::{END_AT, LINE_SIZE, RIGHTS_AT, WORD_AT};
use state::limits::LOGIN_ROWS;
use state::{Day, Login, State, is_silent};

// Silent wins over ended.
fn word_of(silent: bool, t: Day, row: Login) -> Word
    ensures { result ≡ word_of silent t row }
{
    if silent {
        Word::Silent
    } else if row.is_ended(t) {
        Word::Ended
    } else {
        Word::Open
    }
}

fn put_line(out: &mut [u8], at: usize, silent: bool, t: Day, row: Login)
    requires { at + line_size ≤ length out.old }
    ensures { out.new ≡ splice out.old at (line.encode (line_of silent t row)) }
{
    put_login(out, at, row.login);
    put_end(out, at + END_AT, row.end);
    put_rights(out, at + RIGHTS_AT, row.rights);
    put_word(out, at + WORD_AT, word_of(silent, t, row));
}

// The line of a row that is used, and nothing for another; answers where it ends. A row in memory has its numbers within their widths, so
// that its line has its size.
fn put_row(out: &mut [u8], at: usize, silent: bool, t: Day, row: Login) -> usize
    requires { at + line_size * count is_login (row ∷ []) ≤ length out.old }
    ensures value { result ≡ at + line_size * count is_login (row ∷ []) }
    ensures value_2 { result ≡ at + length (lines_of silent t (row ∷ [])) }
    ensures out_after { out.new ≡ splice out.old at (lines_of silent t (row ∷ [])) }
{
    if row.is_used() {
        put_line(out, at, silent, t, row);
        at + LINE_SIZE
    } else {
        at
    }
}

fn put_rows(out: &mut [u8], silent: bool, t: Day, rows: [Login; LOGIN_ROWS])
    requires { line_size * count is_login rows ≤ length out.old }
    ensures { out.new ≡ overwrite (lines_of silent t rows) out.old }
{
    let mut at = 0;
    for row in rows {
        at = put_row(out, at, silent, t, row);
    }
}

// Writes the page of a given day to the front of a slice.
pub fn write_page(s: State, given: Day, out: &mut [u8])
    requires { line_size * line_count s ≤ length out.old }
    ensures { out.new ≡ overwrite (page_text s given) out.old }
{
    let t = given.max(s.day);
    put_rows(out, is_silent(s.day, s.minima.silence, t), t, s.logins);
}
