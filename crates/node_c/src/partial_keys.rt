// The calls for C on partial keys.
ghost use Rattle.std.specs.Prelude.{◌≡◌};
ghost use Rattle.node_c.specs.Calls.{node_shares_split, node_shares_merge, node_shares_add};

use crate::numbers::{number_in, value_returned};
use shares::{add_shares, merge_shares, split_key};

// Answers the number of shares in the bits above the refusal.
#[tactic(auto, unfolding(crate::specs::Calls::node_shares_split))]
pub fn node_shares_split(key: &[u8], k: u32, n: u32, coefficients: &[u8], out: &mut [u8]) -> u32
    ensures value { result ≡ (node_shares_split key.now k n coefficients.now out.old).number }
    ensures out_after { out.new ≡ (node_shares_split key.now k n coefficients.now out.old).slice }
{
    value_returned(split_key(key, k, n, coefficients, out))
}

#[tactic(auto, unfolding(crate::specs::Calls::node_shares_merge))]
pub fn node_shares_merge(k: u32, n: u32, numbers: &[u8], shares: &[u8], out: &mut [u8]) -> u32
    ensures value { result ≡ (node_shares_merge k n numbers.now shares.now out.old).number }
    ensures out_after { out.new ≡ (node_shares_merge k n numbers.now shares.now out.old).slice }
{
    number_in(merge_shares(k, n, numbers, shares, out))
}

// Answers the low 24 bits of the number of bytes in the bits above the refusal.
#[tactic(auto, unfolding(crate::specs::Calls::node_shares_add))]
pub fn node_shares_add(first: &[u8], second: &[u8], out: &mut [u8]) -> u32
    ensures value { result ≡ (node_shares_add first.now second.now out.old).number }
    ensures out_after { out.new ≡ (node_shares_add first.now second.now out.old).slice }
{
    match add_shares(first, second, out) {
        Ok(bytes) => 256 * ((bytes % 16777216) as u32),
        Err(refusal) => u32::from(refusal.number()),
    }
}
