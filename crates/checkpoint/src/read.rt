// A checkpoint read from a slice: of at least its size, since the parts of an image and of either kind are read where they lie.
ghost use Rattle.std.specs.Prelude.{◌≡◌, true, ◌≤◌, length, drop};
ghost use Rattle.state.specs.Seats.{seat_at};
ghost use Rattle.binary.specs.Codec.{constant};
ghost use Rattle.checkpoint.specs.Layout.{checkpoint_size, head_at, notices_at, tables_at, earlier_tables_at, tables_size};
ghost use Rattle.checkpoint.specs.Format.{current, notices, head};
ghost use Rattle.checkpoint.specs.Code.{in_parts};
ghost use Rattle.checkpoint.specs.Checkpoint.{decode_as, is_checkpoint, read_checkpoint};

use crate::Head;
use crate::layout::{
    CHECKPOINT_SIZE, EARLIER_TABLES_AT, HEAD_AT, LOGINS_AT, NOTICES_AT, PROPOSALS_AT, SEAT_SIZE,
    TABLES_AT,
};
use crate::rows::rows_at;
use binary::{u16_at, u32_at};
use state::limits::SEATS;
use state::seats::FREE;
use state::{Cycle, Day, Minima, Notices, State};

// The notices of a state whose checkpoint is of the earlier kind.
pub const EARLIER_NOTICES: Notices = Notices {
    ordinary: 7,
    restart: 2,
};

// The notices in the bytes of a checkpoint.
pub fn notices_in(b: &[u8]) -> Notices
    requires { tables_at ≤ length b.now }
    ensures { result ≡ notices.decode (drop notices_at b.now) }
{
    Notices {
        ordinary: b[NOTICES_AT],
        restart: b[NOTICES_AT + 1],
    }
}

// The numbers before the tables, with these notices.
pub fn head_in(b: &[u8], notices: Notices) -> Head
    requires { earlier_tables_at ≤ length b.now }
    ensures { result ≡ (head (constant notices)).decode (drop head_at b.now) }
{
    Head {
        cycle: Cycle(u32_at(b, HEAD_AT)),
        day: Day(u32_at(b, HEAD_AT + 4)),
        trustees1: b[HEAD_AT + 8],
        trustees2: b[HEAD_AT + 9],
        minima: Minima {
            margin: b[HEAD_AT + 10],
            least: b[HEAD_AT + 11],
            silence: u16_at(b, HEAD_AT + 12),
            notices,
        },
    }
}

// The state of these numbers and of the tables in the bytes behind them. The logins come first: with their loop behind the other tables, the
// compiler keeps those tables' numbers on the stack until it has run.
fn state_of(head: Head, b: &[u8]) -> State
    requires { tables_size ≤ length b.now }
    ensures { result ≡ (in_parts head b.now).state }
{
    let logins = rows_at(b, LOGINS_AT);
    State {
        cycle: head.cycle,
        day: head.day,
        trustees1: head.trustees1,
        trustees2: head.trustees2,
        minima: head.minima,
        seats: rows_at(b, 0),
        proposals: rows_at(b, PROPOSALS_AT),
        logins,
    }
}

// The state in the bytes of a checkpoint of the kind that is written, whatever they are.
pub fn current_state_in(b: &[u8]) -> State
    requires { checkpoint_size ≤ length b.now }
    ensures { result ≡ (decode_as current b.now).state }
{
    state_of(head_in(b, notices_in(b)), &b[TABLES_AT..])
}

// The state of a checkpoint. The sizes of the two kinds differ.
pub fn state_in(b: &[u8]) -> State
    requires { is_checkpoint b.now ≡ true }
    ensures { result ≡ (read_checkpoint b.now).state }
{
    if b.len() == CHECKPOINT_SIZE {
        current_state_in(b)
    } else {
        state_of(head_in(b, EARLIER_NOTICES), &b[EARLIER_TABLES_AT..])
    }
}

// The cycle in the bytes of a checkpoint of the kind that is written.
pub fn cycle_in(b: &[u8]) -> Cycle
    requires { checkpoint_size ≤ length b.now }
    ensures { result ≡ (decode_as current b.now).state.cycle }
{
    Cycle(u32_at(b, HEAD_AT))
}

// The standing of seat i in such bytes, and free where there is no such seat.
pub fn standing_in(b: &[u8], i: u8) -> u8
    requires { checkpoint_size ≤ length b.now }
    ensures { result ≡ (seat_at i (decode_as current b.now).state.seats).standing }
{
    let at = usize::from(i);
    if at < SEATS {
        b[TABLES_AT + SEAT_SIZE * at]
    } else {
        FREE
    }
}
