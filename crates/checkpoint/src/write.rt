// A checkpoint written to a slice. It may be longer, and keeps its tail, so these take slices of at least its size, and no arrays.
ghost use Rattle.std.specs.Prelude.{◌≡◌, ◌≤◌, length};
ghost use Rattle.binary.specs.Number.{overwrite};
ghost use Rattle.binary.specs.Splice.{splice};
ghost use Rattle.checkpoint.specs.Layout.{checkpoint_size, tables_at};
ghost use Rattle.checkpoint.specs.Code.{time_bytes, parameters_at, parameter_bytes, table_bytes};
ghost use Rattle.checkpoint.specs.Checkpoint.{checkpoint_bytes};

use crate::layout::{
    CHECKPOINT, CHECKPOINT_LENGTH, HEAD_AT, LOGIN_COUNT_AT, LOGINS_AT, NOTICES_AT,
    PROPOSAL_COUNT_AT, PROPOSALS_AT, TABLES_AT,
};
use crate::rows::put_rows;
use binary::{put_u8, put_u16, put_u32};
use state::limits::{LOGIN_ROWS, PROPOSAL_ROWS, SEATS};
use state::{Cycle, Day, Login, Minima, Proposal, Seat, State};
use tables::count_used;

// The record's length and kind, the cycle and the day.
fn put_time(out: &mut [u8], cycle: Cycle, day: Day)
    requires { checkpoint_size ≤ length out.old }
    ensures { out.new ≡ splice out.old 0 (time_bytes cycle day) }
{
    put_u16(out, 0, CHECKPOINT_LENGTH);
    put_u16(out, 2, CHECKPOINT);
    put_u32(out, HEAD_AT, cycle.0);
    put_u32(out, HEAD_AT + 4, day.0);
}

// The numbers of trustees, the margin, the least quorum, the silence limit and the notices.
fn put_parameters(out: &mut [u8], trustees1: u8, trustees2: u8, x: Minima)
    requires { checkpoint_size ≤ length out.old }
    ensures { out.new ≡ splice out.old parameters_at (parameter_bytes trustees1 trustees2 x) }
{
    put_u8(out, HEAD_AT + 8, trustees1);
    put_u8(out, HEAD_AT + 9, trustees2);
    put_u8(out, HEAD_AT + 10, x.margin);
    put_u8(out, HEAD_AT + 11, x.least);
    put_u16(out, HEAD_AT + 12, x.silence);
    put_u8(out, NOTICES_AT, x.notices.ordinary);
    put_u8(out, NOTICES_AT + 1, x.notices.restart);
}

// The seats, the proposals and the logins, the latter two after their counts.
fn put_tables(
    out: &mut [u8],
    seats: [Seat; SEATS],
    proposals: [Proposal; PROPOSAL_ROWS],
    logins: [Login; LOGIN_ROWS],
)
    requires { checkpoint_size ≤ length out.old }
    ensures { out.new ≡ splice out.old tables_at (table_bytes seats proposals logins) }
{
    put_rows(out, TABLES_AT, seats);
    put_u8(out, TABLES_AT + PROPOSAL_COUNT_AT, count_used(proposals));
    put_rows(out, TABLES_AT + PROPOSALS_AT, proposals);
    put_u8(out, TABLES_AT + LOGIN_COUNT_AT, count_used(logins));
    put_rows(out, TABLES_AT + LOGINS_AT, logins);
}

// Writes a state's checkpoint to the front of a slice.
pub fn write_checkpoint(s: State, out: &mut [u8])
    requires { checkpoint_size ≤ length out.old }
    ensures { out.new ≡ overwrite (checkpoint_bytes s) out.old }
{
    put_time(out, s.cycle, s.day);
    put_parameters(out, s.trustees1, s.trustees2, s.minima);
    put_tables(out, s.seats, s.proposals, s.logins);
}
