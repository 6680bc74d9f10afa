// The rows of the three tables as bytes: what the tables have in common.
ghost use Rattle.std.specs.Prelude.{◌≡◌, ◌+◌, ◌*◌, ◌≤◌, ℕ, Bool, List, cond, ◌&&◌, eqb, length, drop, take, refl};
ghost use Rattle.lists.specs.Fold.{all, count};
ghost use Rattle.lists.specs.Table.{rising_from};
ghost use Rattle.lists.specs.Code.{is_filled, is_spare, leading};
ghost use Rattle.binary.specs.Number.{is_zero_from};
ghost use Rattle.binary.specs.Codec.{Codec, encode_rows, decode_rows};
ghost use Rattle.binary.specs.Splice.{splice};
ghost use Rattle.state.specs.Seats.{free_seat};
ghost use Rattle.state.specs.Rows.{no_proposal, no_login};
ghost use Rattle.state.specs.WellFormed.{is_blank_proposal, is_blank_login};
ghost use Rattle.checkpoint.specs.Layout.{seat_size, proposal_size, login_size};
ghost use Rattle.checkpoint.specs.Format.{seat, proposal, login};
ghost use Rattle.checkpoint.specs.Stored.{seat_long, proposal_long, login_long, proposal_zero, login_zero};

use crate::layout::{LOGIN_SIZE, PROPOSAL_SIZE, SEAT_SIZE};
use binary::{is_zero_from, put_u8, put_u16, put_u32, put_u64, u16_at, u32_at, u64_at};
use state::{Cycle, Day, Login, NO_LOGIN, NO_PROPOSAL, NO_SEAT, Proposal, Seat, Subject};
use tables::Row;

// A row that is written as SIZE bytes.
pub trait Stored: Copy {
    ghost format: { Codec Self };

    ghost SIZE: { ℕ };

    ghost EMPTY: { Self };

    const SIZE: usize;

    // What a table holds before its rows are read.
    const EMPTY: Self;

    fn at(b: &[u8], at: usize) -> Self
        requires { at + SIZE ≤ length b.now }
        ensures { result ≡ format.decode (drop at b.now) };

    fn put(self, out: &mut [u8], at: usize)
        requires { at + SIZE ≤ length out.old }
        ensures { out.new ≡ splice out.old at (format.encode self) };

    ghost wide: { format.width ≡ SIZE };

    ghost long: { (x : Self) → length (format.encode x) ≡ SIZE };
}

// A row of a table in which unused rows are all zero.
pub trait Zeroed: Stored + Row {
    ghost blank: { Self → Bool };

    ghost zero: { (b : List ℕ) → is_spare Self.used blank (Self.format.decode b) ≡ is_zero_from 0 (take Self.format.width b) };
}

impl Stored for Seat {
    ghost format = { seat };

    ghost SIZE = { seat_size };

    ghost EMPTY = { free_seat };

    ghost wide = { refl };

    ghost long = { seat_long };

    const SIZE: usize = SEAT_SIZE;

    const EMPTY: Seat = NO_SEAT;

    fn at(b: &[u8], at: usize) -> Seat {
        Seat {
            standing: b[at],
            life: u32_at(b, at + 1),
        }
    }

    fn put(self, out: &mut [u8], at: usize) {
        put_u8(out, at, self.standing);
        put_u32(out, at + 1, self.life);
    }
}

impl Stored for Proposal {
    ghost format = { proposal };

    ghost SIZE = { proposal_size };

    ghost EMPTY = { no_proposal };

    ghost wide = { refl };

    ghost long = { proposal_long };

    const SIZE: usize = PROPOSAL_SIZE;

    const EMPTY: Proposal = NO_PROPOSAL;

    fn at(b: &[u8], at: usize) -> Proposal {
        Proposal {
            cycle: Cycle(u32_at(b, at)),
            day: Day(u32_at(b, at + 4)),
            subject: Subject {
                kind: u16_at(b, at + 8),
                arguments: u64_at(b, at + 10),
            },
        }
    }

    fn put(self, out: &mut [u8], at: usize) {
        put_u32(out, at, self.cycle.0);
        put_u32(out, at + 4, self.day.0);
        put_u16(out, at + 8, self.subject.kind);
        put_u64(out, at + 10, self.subject.arguments);
    }
}

impl Zeroed for Proposal {
    ghost blank = { is_blank_proposal };

    ghost zero = { proposal_zero };
}

impl Stored for Login {
    ghost format = { login };

    ghost SIZE = { login_size };

    ghost EMPTY = { no_login };

    ghost wide = { refl };

    ghost long = { login_long };

    const SIZE: usize = LOGIN_SIZE;

    const EMPTY: Login = NO_LOGIN;

    fn at(b: &[u8], at: usize) -> Login {
        Login {
            login: u32_at(b, at),
            end: Day(u32_at(b, at + 4)),
            rights: u16_at(b, at + 8),
        }
    }

    fn put(self, out: &mut [u8], at: usize) {
        put_u32(out, at, self.login);
        put_u32(out, at + 4, self.end.0);
        put_u16(out, at + 8, self.rights);
    }
}

impl Zeroed for Login {
    ghost blank = { is_blank_login };

    ghost zero = { login_zero };
}

// The N rows at a position.
pub fn rows_at<T: Stored, const N: usize>(b: &[u8], at: usize) -> [T; N]
    requires { at + N * T.SIZE ≤ length b.now }
    ensures { result ≡ decode_rows T.format N (drop at b.now) }
{
    let mut rows = [T::EMPTY; N];
    for i in 0..N {
        rows[i] = T::at(b, at + i * T::SIZE);
    }
    rows
}

// Writes rows at a position, one after the other. By their indices: an iterator borrows the table, and the compiler then copies it.
pub fn put_rows<T: Stored, const N: usize>(out: &mut [u8], at: usize, rows: [T; N])
    requires { at + N * T.SIZE ≤ length out.old }
    ensures { out.new ≡ splice out.old at (encode_rows T.format rows) }
{
    for i in 0..N {
        rows[i].put(out, at + i * T::SIZE);
    }
}

// The number of rows at the front of a table of N rows that pass and are in order, with keys of at least the first.
fn leading<T: Stored + Row, F: Fn(T) -> bool, const N: usize>(
    table: &[u8],
    first: u64,
    passes: F,
) -> usize
    requires room { N * T.SIZE ≤ length table.now }
    requires callable { F.IsAlwaysCallable passes }
    ensures leads { (p : T → Bool) → ((x : T) (r : Bool) → F.post passes x r → r ≡ p x)
        → result ≡ leading p T.key first (decode_rows T.format N table.now) }
    ensures within { result ≤ N }
{
    let mut lo = first;
    for i in 0..N {
        let row = T::at(table, i * T::SIZE);
        let key = u64::from(row.key());
        if (lo <= key) & passes(row) {
            lo = key + 1;
        } else {
            return i;
        }
    }
    N
}

// A table of N rows with the number of its used ones: these pass, and are in order with keys of at least the first, and the others are zero.
// An unused row is zero, so its bytes are tested and no row is read.
pub fn are_rows<T: Zeroed, F: Fn(T) -> bool, const N: usize>(
    number: u8,
    table: &[u8],
    first: u64,
    passes: F,
) -> bool
    requires room { N * T.SIZE ≤ length table.now }
    requires callable { F.IsAlwaysCallable passes }
    ensures { (fine : T → Bool) → ((x : T) (r : Bool) → F.post passes x r → r ≡ is_filled T.used fine x)
        → let rows = decode_rows T.format N table.now in
        result ≡ (eqb number (count T.used rows) && (rising_from T.used T.key first rows && all (λ r. cond (T.used r) (fine r) (T.blank r)) rows)) }
{
    let size = T::SIZE;
    let n = leading::<T, F, N>(table, first, passes);
    (usize::from(number) == n) & is_zero_from(n * size, &table[..N * size])
}
