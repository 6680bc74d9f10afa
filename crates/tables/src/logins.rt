// The table of logins.
ghost use Rattle.std.specs.Prelude.{◌≡◌, ◌<◌, cond};
ghost use Rattle.lists.specs.Code.{insert_at};
ghost use Rattle.state.specs.Limits.{login_rows};
ghost use Rattle.state.specs.Rows.{is_login};
ghost use Rattle.tables.specs.Logins.{find_login, is_listed, needs_row, is_earlier, earliest_row, add_login, grant_login, end_login};
ghost use Rattle.tables.specs.Code.{is_place, eviction_for};

use crate::is_full;
use crate::rows::{first_row, place_of, without};
use state::Login;
use state::limits::LOGIN_ROWS;

// Whether a new row of this login takes this row's place or comes before it.
fn is_place(row: Login, login: u32) -> bool
    ensures { result ≡ is_place login row }
{
    (row.login == login) | !row.is_used() | (login < row.login)
}

// The row of the login, or an unused row. No Option: login 0 is that of an unused row, so a caller would ask whether the row is used all the same.
pub fn find_login(rows: [Login; LOGIN_ROWS], login: u32) -> Login
    ensures { result ≡ find_login login rows }
{
    first_row(rows, |row: Login| row.login == login)
}

#[tactic(auto, unfolding(crate::specs::Logins::is_listed))]
pub fn is_listed(rows: [Login; LOGIN_ROWS], login: u32) -> bool
    ensures { result ≡ is_listed login rows }
{
    find_login(rows, login).is_used()
}

// Whether a row of this login needs an unused one, and there is none.
fn needs_row(rows: [Login; LOGIN_ROWS], login: u32) -> bool
    ensures { result ≡ needs_row login rows }
{
    is_full(rows) && !is_listed(rows, login)
}

// Of two rows the one that is evicted before the other.
fn earlier(row: Login, other: Login) -> Login
    ensures { result ≡ cond (is_earlier row other) row other }
{
    if (row.end, row.login) < (other.end, other.login) {
        row
    } else {
        other
    }
}

// The row with the earliest end day, the smallest login among equals.
fn earliest_row(rows: [Login; LOGIN_ROWS]) -> Login
    ensures { result ≡ earliest_row rows }
{
    let mut earliest = rows[0];
    for row in rows {
        earliest = earlier(row, earliest);
    }
    earliest
}

// What a grant of this login evicts.
pub fn eviction_for(rows: [Login; LOGIN_ROWS], login: u32) -> Option<Login>
    ensures { result ≡ eviction_for login rows }
{
    if needs_row(rows, login) {
        Some(earliest_row(rows))
    } else {
        None
    }
}

// The rows with x before one of them; the last one is then lost. Row by row, and no copy_within: the archive calls no function of C beside memcpy and
// memset.
fn insert_row(rows: [Login; LOGIN_ROWS], at: usize, x: Login) -> [Login; LOGIN_ROWS]
    requires { at < login_rows }
    ensures { result ≡ insert_at at x rows }
{
    let mut out = rows;
    let mut next = x;
    for i in at..LOGIN_ROWS {
        let row = out[i];
        out[i] = next;
        next = row;
    }
    out
}

// The table with x in the place of the row of its name, or between the others; the last row is then lost.
fn add_login(rows: [Login; LOGIN_ROWS], x: Login) -> [Login; LOGIN_ROWS]
    ensures { result ≡ add_login x rows }
{
    let Some(at) = place_of(rows, |row| is_place(row, x.login)) else {
        return rows;
    };
    if rows[at].login != x.login {
        return insert_row(rows, at, x);
    }
    let mut out = rows;
    out[at] = x;
    out
}

// The table without the login.
pub fn end_login(rows: [Login; LOGIN_ROWS], login: u32) -> [Login; LOGIN_ROWS]
    ensures { result ≡ end_login login rows }
{
    without(rows, |row: Login| row.login == login)
}

// The table with x, and without the row that it evicts.
pub fn grant_login(
    rows: [Login; LOGIN_ROWS],
    x: Login,
    eviction: Option<Login>,
) -> [Login; LOGIN_ROWS]
    requires { eviction ≡ eviction_for x.login rows }
    ensures { result ≡ grant_login x rows }
{
    let left = match eviction {
        Some(row) => end_login(rows, row.login),
        None => rows,
    };
    add_login(left, x)
}
