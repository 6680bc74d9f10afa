// The key of k shares.
ghost use Rattle.std.specs.Prelude.{◌≡◌, ◌*◌, ◌≤◌, length};
ghost use Rattle.shares.specs.Shares.{key_size, most_shares, merged_key, are_numbers};
ghost use Rattle.shares.specs.Calls.{merge_of};
ghost use Rattle.shares.specs.Code.{weighed, total, weights as weights_of, weighed_key};

use crate::rows::add_row;
use crate::scheme::Scheme;
use crate::{KEY_SIZE, MOST_SHARES};
use gf256::{divide, mul, sum};
use refusals::Refusal;

// Whether each number is from 1 to n, and none of them comes twice.
#[tactic(auto, using(crate::proofs::Turns::numbering))]
fn are_numbers(numbers: &[u8], n: usize) -> bool
    ensures { result ≡ are_numbers n numbers.now }
{
    for (i, &x) in numbers.iter().enumerate() {
        if x == 0 || usize::from(x) > n || numbers[i + 1..].contains(&x) {
            return false;
        }
    }
    true
}

// Changes the weights of numbers for a number x that stands before them, and answers their sum.
fn weigh(x: u8, numbers: &[u8], weights: &mut [u8]) -> u8
    requires { length numbers.now ≡ length weights.old }
    ensures value { result ≡ total (weighed x numbers.now weights.old) }
    ensures weights_after { weights.new ≡ weighed x numbers.now weights.old }
{
    let mut total = 0;
    for i in (0..numbers.len()).rev() {
        let weight = mul(weights[i], divide(x, sum(numbers[i], x)));
        weights[i] = weight;
        total = sum(weight, total);
    }
    total
}

// The weight of each number: what its share counts in the key.
#[tactic(auto, using(crate::proofs::Turns::weighing))]
fn put_weights(numbers: &[u8], weights: &mut [u8])
    requires { length numbers.now ≡ length weights.old }
    ensures { weights.new ≡ weights_of numbers.now }
{
    for i in (0..numbers.len()).rev() {
        let rest = weigh(numbers[i], &numbers[i + 1..], &mut weights[i + 1..]);
        weights[i] = sum(1, rest);
    }
}

// Writes the sum of the shares, each times its weight.
fn put_sum(row: &mut [u8], weights: &[u8], shares: &[u8])
    requires row_len { length row.old ≡ key_size }
    requires shares_long { (length weights.now ≤ most_shares) × (key_size * length weights.now ≤ length shares.now) }
    ensures { row.new ≡ weighed_key weights.now shares.now }
{
    row.fill(0);
    for (j, &weight) in weights.iter().enumerate() {
        add_row(row, weight, &shares[KEY_SIZE * j..]);
    }
}

// Writes the key of the shares with these numbers.
fn put_key(row: &mut [u8], numbers: &[u8], shares: &[u8])
    requires row_len { length row.old ≡ key_size }
    requires shares_long { (length numbers.now ≤ most_shares) × (key_size * length numbers.now ≤ length shares.now) }
    ensures { row.new ≡ merged_key (length numbers.now) numbers.now shares.now }
{
    let mut weights = [0; MOST_SHARES];
    let weights = &mut weights[..numbers.len()];
    put_weights(numbers, weights);
    put_sum(row, weights, shares);
}

// The key of the first k shares, which come in the order of their numbers.
#[tactic(auto, unfolding(crate::specs::Calls::merge_of))]
pub fn merge_shares(
    k: u32,
    n: u32,
    numbers: &[u8],
    shares: &[u8],
    out: &mut [u8],
) -> Result<(), Refusal>
    ensures value { result ≡ (merge_of k n numbers.now shares.now out.old).answer }
    ensures out_after { out.new ≡ (merge_of k n numbers.now shares.now out.old).slice }
{
    let Scheme { needed, count } = Scheme::new(k, n)?;
    let given = needed.min(numbers.len());
    if !are_numbers(&numbers[..given], count) {
        return Err(Refusal::BadShareNumber);
    }
    if given < needed || shares.len() < KEY_SIZE * needed || out.len() < KEY_SIZE {
        return Err(Refusal::TooShort);
    }
    put_key(&mut out[..KEY_SIZE], &numbers[..needed], shares);
    Ok(())
}
