// A grant exported as a line.
ghost use Rattle.std.specs.Prelude.{◌≡◌, length};
ghost use Rattle.roster.specs.Roster.{line_of};
ghost use Rattle.roster.specs.Calls.{give, export_of};

use crate::written::{DatedRow, LINE_ROOM};
use binary::put_bytes;
use calendar::LAST_DAY;
use records::{Action, read_announcement};
use refusals::Refusal;

// Writes a row's line to the front of a slice, where it has room, and answers its length: at once, if every line would fit.
#[tactic(auto, using(crate::proofs::Giving::giving))]
fn give_line(dated: DatedRow, out: &mut [u8]) -> Result<u8, Refusal>
    ensures value { result ≡ (give (length (line_of dated.row)) (line_of dated.row) out.old).answer }
    ensures out_after { out.new ≡ (give (length (line_of dated.row)) (line_of dated.row) out.old).slice }
{
    if LINE_ROOM <= out.len() {
        return Ok(dated.put_line(out) as u8);
    }
    let line = dated.line();
    let text = line.text();
    if out.len() < text.len() {
        return Err(Refusal::NoRosterRoom);
    }
    put_bytes(out, 0, text);
    Ok(text.len() as u8)
}

// The line of a grant that ends by 2099-12-31.
#[tactic(auto, using(crate::proofs::LineBytes::export_cases))]
pub fn export_grant(announcement: &[u8], out: &mut [u8]) -> Result<u8, Refusal>
    ensures value { result ≡ (export_of announcement.now out.old).answer }
    ensures out_after { out.new ≡ (export_of announcement.now out.old).slice }
{
    let Some(a) = read_announcement(announcement) else {
        return Err(Refusal::BadRoster);
    };
    let Action::Grant { row } = a.action else {
        return Err(Refusal::BadRoster);
    };
    if LAST_DAY < row.end.0 {
        return Err(Refusal::BadRoster);
    }
    give_line(DatedRow { row }, out)
}
