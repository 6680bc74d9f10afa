// Which bytes are a checkpoint. The rows are tested where they lie: each test takes the part of the slice that starts with its table, and
// so no array.
ghost use Rattle.std.specs.Prelude.{◌≡◌, ◌*◌, ◌≤◌, length};
ghost use Rattle.lists.specs.Fold.{all};
ghost use Rattle.binary.specs.Codec.{decode_rows};
ghost use Rattle.state.specs.Limits.{seat_count, proposal_rows, login_rows};
ghost use Rattle.state.specs.Seats.{present_seats};
ghost use Rattle.state.specs.WellFormed.{is_well_formed_seat};
ghost use Rattle.checkpoint.specs.Layout.{tables_size, seat_size, proposal_size, login_size};
ghost use Rattle.checkpoint.specs.Format.{current, earlier, seat, proposal, login};
ghost use Rattle.checkpoint.specs.Code.{in_parts, is_head, are_seats, are_proposals, are_logins, is_body};
ghost use Rattle.checkpoint.specs.Checkpoint.{is_of, is_checkpoint};

use crate::Head;
use crate::layout::{
    CHECKPOINT, CHECKPOINT_LENGTH, EARLIER, EARLIER_LENGTH, EARLIER_TABLES_AT, LOGIN_COUNT_AT,
    LOGINS_AT, PROPOSAL_COUNT_AT, PROPOSALS_AT, SEAT_SIZE, TABLES_AT,
};
use crate::read::{EARLIER_NOTICES, head_in, notices_in};
use crate::rows::{Stored, are_rows};
use binary::is_record;
use state::limits::{LOGIN_ROWS, MOST_TRUSTEES, PROPOSAL_ROWS, SEATS};
use state::seats::quorum;
use state::{Cycle, Day, Login, Minima, Proposal, Seat};

impl Head {
    #[tactic(auto, unfolding(crate::specs::Code::is_head))]
    fn is_well_formed(self) -> bool
        ensures { result ≡ is_head self }
    {
        (Cycle(0) < self.cycle)
            & (1..=MOST_TRUSTEES).contains(&self.trustees1)
            & (1..=MOST_TRUSTEES).contains(&self.trustees2)
            & self.minima.is_in_force()
    }
}

// The number of present seats.
fn count_present(table: &[u8]) -> u8
    requires { seat_count * seat_size ≤ length table.now }
    ensures { (result ≡ present_seats (decode_rows seat seat_count table.now)) × (result ≤ seat_count) }
{
    let mut n = 0;
    for i in 0..SEATS {
        if Seat::at(table, i * SEAT_SIZE).is_present() {
            n += 1;
        }
    }
    n
}

fn are_well_formed_seats(table: &[u8]) -> bool
    requires { seat_count * seat_size ≤ length table.now }
    ensures { result ≡ all is_well_formed_seat (decode_rows seat seat_count table.now) }
{
    for i in 0..SEATS {
        if !Seat::at(table, i * SEAT_SIZE).is_well_formed() {
            return false;
        }
    }
    true
}

// The seats, of which there must be a quorum by these minima.
#[tactic(auto, unfolding(crate::specs::Code::are_seats))]
fn are_seats(minima: Minima, table: &[u8]) -> bool
    requires { seat_count * seat_size ≤ length table.now }
    ensures { result ≡ are_seats minima (decode_rows seat seat_count table.now) }
{
    let p = count_present(table);
    are_well_formed_seats(table) & (quorum(p, minima.margin, minima.least) <= u32::from(p))
}

// The table of proposals with its count, in a state of this cycle and agreed day.
fn are_proposals(count: u8, table: &[u8], c: Cycle, d: Day) -> bool
    requires { proposal_rows * proposal_size ≤ length table.now }
    ensures { result ≡ are_proposals count c d (decode_rows proposal proposal_rows table.now) }
{
    are_rows::<_, _, PROPOSAL_ROWS>(count, table, 0, |row: Proposal| row.is_pending(c, d))
}

// The table of logins with its count.
fn are_logins(count: u8, table: &[u8]) -> bool
    requires { login_rows * login_size ≤ length table.now }
    ensures { result ≡ are_logins count (decode_rows login login_rows table.now) }
{
    are_rows::<_, _, LOGIN_ROWS>(count, table, 1, |row: Login| row.is_granted())
}

// The numbers of a state, and the tables in the bytes behind them.
fn is_body(head: Head, b: &[u8]) -> bool
    requires { tables_size ≤ length b.now }
    ensures { result ≡ is_body (in_parts head b.now) }
{
    head.is_well_formed()
        & are_seats(head.minima, b)
        & are_proposals(
            b[PROPOSAL_COUNT_AT],
            &b[PROPOSALS_AT..],
            head.cycle,
            head.day,
        )
        & are_logins(b[LOGIN_COUNT_AT], &b[LOGINS_AT..])
}

// The bytes are exactly one well-formed checkpoint of the kind that is written.
pub fn is_current(b: &[u8]) -> bool
    ensures { result ≡ is_of current b.now }
{
    is_record(b, CHECKPOINT_LENGTH, CHECKPOINT)
        && is_body(head_in(b, notices_in(b)), &b[TABLES_AT..])
}

// The same for the earlier kind. One function over both would be handed length, kind, place of the tables and a reader of the notices, and be no shorter.
fn is_earlier(b: &[u8]) -> bool
    ensures { result ≡ is_of earlier b.now }
{
    is_record(b, EARLIER_LENGTH, EARLIER)
        && is_body(head_in(b, EARLIER_NOTICES), &b[EARLIER_TABLES_AT..])
}

// The bytes are exactly one well-formed checkpoint, of either kind.
#[tactic(auto, unfolding(crate::specs::Checkpoint::is_checkpoint))]
pub fn is_checkpoint(b: &[u8]) -> bool
    ensures { result ≡ is_checkpoint b.now }
{
    is_current(b) | is_earlier(b)
}
