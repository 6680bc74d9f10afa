// A roster turned into grants.
ghost use Rattle.std.specs.Prelude.{◌≡◌};
ghost use Rattle.roster.specs.Calls.{import_of};

use crate::grants::put_grants;
use crate::lines::read_roster;
use records::layout::ANNOUNCEMENT_SIZE;
use refusals::Refusal;
use state::limits::LAST_CYCLE;
use state::{Cycle, Day};

// The grants of a roster's lines, for a day and for cycles that rise by one from the given one, and their number. Nothing is written before all of it
// is read.
#[tactic(auto, using(crate::proofs::ImportCases::import_cases))]
pub fn import_roster(text: &[u8], cycle: Cycle, day: Day, out: &mut [u8]) -> Result<u8, Refusal>
    ensures value { result ≡ (import_of text.now cycle day out.old).answer }
    ensures out_after { out.new ≡ (import_of text.now cycle day out.old).slice }
{
    let roster = read_roster(text).ok_or(Refusal::BadRoster)?;
    let rows = roster.all();
    if Cycle(LAST_CYCLE).since(cycle) < (rows.len() as u32) {
        return Err(Refusal::BadRoster);
    }
    if out.len() < ANNOUNCEMENT_SIZE * rows.len() {
        return Err(Refusal::NoRosterRoom);
    }
    put_grants(out, cycle, day, rows);
    Ok(rows.len() as u8)
}
