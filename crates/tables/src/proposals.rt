// The table of proposals.
ghost use Rattle.std.specs.Prelude.{◌≡◌};
ghost use Rattle.lists.specs.Fold.{any};
ghost use Rattle.tables.specs.Proposals.{is_of_cycle, is_lapsed, is_mature, add_proposal, has_proposal, drop_proposal, drop_lapsed, mature_proposal};

use crate::rows::{first_row, has_row, place_of, without};
use state::limits::PROPOSAL_ROWS;
use state::{Cycle, Day, Notices, Proposal, Subject};

// The greatest number of days from a proposal to the action: it has lapsed on the day after.
const VALID_DAYS: u32 = 60;

// A used row that was announced in this cycle.
fn is_of_cycle(row: Proposal, c: Cycle) -> bool
    ensures { result ≡ is_of_cycle c row }
{
    row.is_used() & (row.cycle == c)
}

// A used row that has lapsed by the announced day.
fn is_lapsed(row: Proposal, announced: Day) -> bool
    ensures { result ≡ is_lapsed announced row }
{
    row.is_used() & (VALID_DAYS < announced.since(row.day))
}

// A row of this subject that is mature on the announced day, where these notices are in force.
fn is_mature(row: Proposal, notices: Notices, subject: Subject, announced: Day) -> bool
    ensures { result ≡ is_mature notices subject announced row }
{
    (row.subject == subject) & (subject.notice_days(notices) <= announced.since(row.day))
}

// The table with x in its first unused row, or unchanged where it is full.
pub fn add_proposal(rows: [Proposal; PROPOSAL_ROWS], x: Proposal) -> [Proposal; PROPOSAL_ROWS]
    ensures { result ≡ add_proposal x rows }
{
    let mut out = rows;
    if let Some(at) = place_of(rows, |row: Proposal| !row.is_used()) {
        out[at] = x;
    }
    out
}

// Whether a proposal was announced in this cycle.
pub fn has_proposal(rows: [Proposal; PROPOSAL_ROWS], c: Cycle) -> bool
    ensures { result ≡ has_proposal c rows }
{
    has_row(rows, |row| is_of_cycle(row, c))
}

// The table without the proposal of this cycle.
pub fn drop_proposal(rows: [Proposal; PROPOSAL_ROWS], c: Cycle) -> [Proposal; PROPOSAL_ROWS]
    ensures { result ≡ drop_proposal c rows }
{
    without(rows, |row| is_of_cycle(row, c))
}

// Whether a proposal has lapsed by the announced day.
pub fn has_lapsed(rows: [Proposal; PROPOSAL_ROWS], announced: Day) -> bool
    ensures { result ≡ any (is_lapsed announced) rows }
{
    has_row(rows, |row| is_lapsed(row, announced))
}

// The table without the proposals that have lapsed by the announced day.
pub fn drop_lapsed(rows: [Proposal; PROPOSAL_ROWS], announced: Day) -> [Proposal; PROPOSAL_ROWS]
    ensures { result ≡ drop_lapsed announced rows }
{
    without(rows, |row| is_lapsed(row, announced))
}

// The first row of this subject that is mature on the announced day, where these notices are in force, or an unused row. No Option: an unused
// row has the subject of kind 0, so a caller would ask whether the row is used all the same.
pub fn mature_proposal(
    rows: [Proposal; PROPOSAL_ROWS],
    notices: Notices,
    subject: Subject,
    announced: Day,
) -> Proposal
    ensures { result ≡ mature_proposal notices subject announced rows }
{
    first_row(rows, |row| { is_mature(row, notices, subject, announced) })
}
