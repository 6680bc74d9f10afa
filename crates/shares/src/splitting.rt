// A key split into shares.
ghost use Rattle.std.specs.Prelude.{◌≡◌, ◌*◌, ◌-◌, ◌≤◌, length};
ghost use Rattle.binary.specs.Number.{overwrite};
ghost use Rattle.shares.specs.Shares.{key_size, most_shares, share_of, shares_of};
ghost use Rattle.shares.specs.Calls.{split_of};

use crate::KEY_SIZE;
use crate::rows::step_row;
use crate::scheme::Scheme;
use refusals::Refusal;

// The polynomials of the bytes of a key: the key has their constant terms, the others come in rising degree, key byte by key byte.
#[derive(Clone, Copy)]
struct Polynomials<'a> {
    key: &'a [u8],
    coefficients: &'a [u8],
    needed: usize,
    ghost needed_above: { 1 ≤ needed },
    ghost key_long: { key_size ≤ length key.now },
    ghost coefficients_long: { key_size * (needed - 1) ≤ length coefficients.now },
}

impl Polynomials<'_> {
    // Writes their values at x, by Horner's rule for all bytes at once.
    fn put_share(&self, x: u8, row: &mut [u8])
        requires { length row.old ≡ key_size }
        ensures { row.new ≡ share_of self.now.needed self.now.key.now self.now.coefficients.now x }
    {
        let degree = self.needed - 1;
        row.fill(0);
        for i in (0..degree).rev() {
            step_row(row, x, &self.coefficients[i..], degree);
        }
        step_row(row, x, self.key, 1);
    }
}

// Writes shares 1 to n to the front of a slice.
#[tactic(auto, using(crate::proofs::Writes::sharing))]
fn put_shares(out: &mut [u8], polynomials: &Polynomials, n: usize)
    requires { (n ≤ most_shares) × (key_size * n ≤ length out.old) }
    ensures { out.new ≡ overwrite (shares_of polynomials.now.needed polynomials.now.key.now polynomials.now.coefficients.now n) out.old }
{
    for i in 0..n {
        let at = KEY_SIZE * i;
        polynomials.put_share((i + 1) as u8, &mut out[at..at + KEY_SIZE]);
    }
}

// The shares of a key among n trustees, of whom k rebuild it. The coefficients are drawn at random by the caller, and used once.
#[tactic(auto, unfolding(crate::specs::Calls::split_of))]
pub fn split_key(
    key: &[u8],
    k: u32,
    n: u32,
    coefficients: &[u8],
    out: &mut [u8],
) -> Result<u8, Refusal>
    ensures value { result ≡ (split_of key.now k n coefficients.now out.old).answer }
    ensures out_after { out.new ≡ (split_of key.now k n coefficients.now out.old).slice }
{
    let Scheme { needed, count } = Scheme::new(k, n)?;
    if key.len() < KEY_SIZE
        || coefficients.len() < KEY_SIZE * (needed - 1)
        || out.len() < KEY_SIZE * count
    {
        return Err(Refusal::TooShort);
    }
    let polynomials = Polynomials {
        key,
        coefficients,
        needed,
    };
    put_shares(out, &polynomials, count);
    Ok(n as u8)
}
