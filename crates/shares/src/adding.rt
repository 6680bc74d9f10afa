// The sum of two runs of shares.
ghost use Rattle.std.specs.Prelude.{◌≡◌, ◌≤◌, length};
ghost use Rattle.binary.specs.Number.{overwrite};
ghost use Rattle.shares.specs.Polynomial.{sums};
ghost use Rattle.shares.specs.Calls.{add_of};

use gf256::sum;
use refusals::Refusal;

// Writes the sums of the bytes of two slices to the front of another, as many as the first has.
#[tactic(auto, using(crate::proofs::Tabulated::tabulated))]
fn put_sums(out: &mut [u8], first: &[u8], second: &[u8])
    requires { (length first.now ≤ length second.now) × (length first.now ≤ length out.old) }
    ensures { out.new ≡ overwrite (sums first.now second.now) out.old }
{
    for i in 0..first.len() {
        out[i] = sum(first[i], second[i]);
    }
}

// The sum of two runs of shares, byte for byte. With shares of the zero key it renews a set.
#[tactic(auto, unfolding(crate::specs::Calls::add_of))]
pub fn add_shares(first: &[u8], second: &[u8], out: &mut [u8]) -> Result<usize, Refusal>
    ensures value { result ≡ (add_of first.now second.now out.old).answer }
    ensures out_after { out.new ≡ (add_of first.now second.now out.old).slice }
{
    let count = first.len();
    if second.len() < count || out.len() < count {
        return Err(Refusal::TooShort);
    }
    put_sums(out, first, second);
    Ok(count)
}
