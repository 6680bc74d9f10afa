// What the tables have in common: the used rows first, and then unused ones, which are one value. The functions go through the rows by value: an
// iterator borrows the table, and the compiler then copies it (a checkpoint written took 1,140 instructions more).
ghost use Rattle.std.specs.Prelude.{◌≡◌, ◌-◌, ◌<◌, ℕ, Bool, not, get_or, position, IfSome};
ghost use Rattle.lists.specs.Fold.{any, count, first};
ghost use Rattle.lists.specs.Table.{keep, fill};
ghost use Rattle.state.specs.Rows.{no_proposal, is_proposal, no_login, is_login};
ghost use Rattle.state.specs.WellFormed.{cycle_of};

use state::{Login, NO_LOGIN, NO_PROPOSAL, Proposal};

pub trait Row: Copy {
    // Which rows are used, what orders them, and the unused row.
    ghost used: { Self → Bool };

    ghost key: { Self → ℕ };

    ghost UNUSED: { Self };

    const UNUSED: Self;

    fn is_used(self) -> bool
        ensures { result ≡ used self };

    fn key(self) -> u32
        ensures { result ≡ key self };
}

impl Row for Proposal {
    ghost used = { is_proposal };

    ghost key = { cycle_of };

    ghost UNUSED = { no_proposal };

    const UNUSED: Proposal = NO_PROPOSAL;

    fn is_used(self) -> bool {
        Proposal::is_used(self)
    }

    fn key(self) -> u32 {
        self.cycle.0
    }
}

impl Row for Login {
    ghost used = { is_login };

    ghost key = { λ x. x.login };

    ghost UNUSED = { no_login };

    const UNUSED: Login = NO_LOGIN;

    fn is_used(self) -> bool {
        Login::is_used(self)
    }

    fn key(self) -> u32 {
        self.login
    }
}

// The number of used rows. A sum, and no count of a filter: that has a branch for each row, and a checkpoint takes a quarter longer by it.
pub fn count_used<T: Row, const N: usize>(rows: [T; N]) -> u8
    requires { N < 256 }
    ensures { result ≡ count T.used rows }
{
    let mut n: u8 = 0;
    for row in rows {
        n += u8::from(row.is_used());
    }
    n
}

// Whether the last row is used.
pub fn is_full<T: Row, const N: usize>(rows: [T; N]) -> bool
    requires { 0 < N }
    ensures { result ≡ T.used (get_or rows (N - 1) T.UNUSED) }
{
    rows[N - 1].is_used()
}

// The first row that passes, or an unused row.
pub fn first_row<T: Row, F: Fn(T) -> bool, const N: usize>(rows: [T; N], passes: F) -> T
    requires { F.IsAlwaysCallable passes }
    ensures { (p : T → Bool) → ((x : T) (r : Bool) → F.post passes x r → r ≡ p x)
        → result ≡ first p T.UNUSED rows }
{
    for row in rows {
        if passes(row) {
            return row;
        }
    }
    T::UNUSED
}

// Whether a row passes. Every row is tested, with no exit from the loop: with one, most deliveries take 70 to 110 instructions more.
pub fn has_row<T: Row, F: Fn(T) -> bool, const N: usize>(rows: [T; N], passes: F) -> bool
    requires { F.IsAlwaysCallable passes }
    ensures { (p : T → Bool) → ((x : T) (r : Bool) → F.post passes x r → r ≡ p x)
        → result ≡ any p rows }
{
    let mut found = false;
    for row in rows {
        found |= passes(row);
    }
    found
}

// The index of the first row that passes.
pub fn place_of<T: Row, F: Fn(T) -> bool, const N: usize>(rows: [T; N], passes: F) -> Option<usize>
    requires { F.IsAlwaysCallable passes }
    ensures found { (p : T → Bool) → ((x : T) (r : Bool) → F.post passes x r → r ≡ p x)
        → result ≡ position p rows }
    ensures within { IfSome result (λ i. i < N) }
{
    for i in 0..N {
        if passes(rows[i]) {
            return Some(i);
        }
    }
    None
}

// The table without the rows that are dropped.
pub fn without<T: Row, F: Fn(T) -> bool, const N: usize>(rows: [T; N], drops: F) -> [T; N]
    requires { F.IsAlwaysCallable drops }
    ensures { (dropped : T → Bool) → ((x : T) (r : Bool) → F.post drops x r → r ≡ dropped x)
        → result ≡ fill N T.UNUSED (keep (λ r. not (dropped r)) rows) }
{
    let mut out = [T::UNUSED; N];
    let mut j = 0;
    for row in rows {
        if !drops(row) {
            out[j] = row;
            j += 1;
        }
    }
    out
}
