// The lines of a roster.
ghost use Rattle.std.specs.Prelude.{◌≡◌};
ghost use Rattle.roster.specs.Roster.{roster_in};
ghost use Rattle.roster.specs.Code.{line_found, line_in, rows_found};

use crate::fields::{end_at, field, login_at, rights_at};
use crate::rows::Rows;
use state::{Day, Login};

// The line at the front.
fn line_at(text: &[u8]) -> Option<(Login, &[u8])>
    ensures { line_found result ≡ line_in text.now }
{
    let (login, text) = field(text, login_at, false)?;
    let (end, text) = field(text, end_at, false)?;
    let (rights, text) = field(text, rights_at, true)?;
    let row = Login {
        login,
        end: Day(end),
        rights: rights as u16,
    };
    Some((row, text))
}

// The rows of a whole roster, of up to 64 lines.
#[tactic(auto, using(crate::proofs::RowsRead::rows_read))]
pub fn read_roster(text: &[u8]) -> Option<Rows>
    ensures { rows_found result ≡ roster_in text.now }
{
    let mut rows = Rows::new();
    let mut rest = text;
    while !rest.is_empty() {
        let (row, behind) = line_at(rest)?;
        rows.push(row)?;
        rest = behind;
    }
    Some(rows)
}
