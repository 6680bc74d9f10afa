// Numbers written in decimal to a slice at a position, and read. No Display: a contract knows what a format writes to a String alone, and memory is
// fixed.
#![tactic(auto)]

mod reading;

ghost use Rattle.std.specs.Prelude.{◌≡◌, ℕ, List, ◌++◌, ◌+◌, ◌-◌, ◌^◌, ◌≤◌, ◌<◌, length, drop, replicate};
ghost use Rattle.binary.specs.Splice.{splice};
ghost use Rattle.decimal.specs.Decimal.{most_digits, decimal, aligned};

use binary::put_bytes;
pub use reading::{Number, number_at};
use std::marker::Model;

// The digits of the greatest number of 64 bits.
pub const MOST_DIGITS: usize = 20;

// Decimal digits, from an index up to the end, with spaces in front. An array with an index beside it: memory is fixed, and there is no heap.
#[derive(Drop)]
struct Digits {
    bytes: [u8; MOST_DIGITS],
    from: usize,
}

impl Model for Digits {
    ghost Value = { List ℕ };

    ghost view = { λ d. drop d.from d.bytes };

    ghost invariant = { λ d. (d.from ≤ most_digits) × (d.bytes ≡ replicate d.from 32 ++ drop d.from d.bytes) };
}

impl Digits {
    fn text(&self) -> &[u8]
        ensures value { result.now ≡ self.now }
        ensures upper_bound { length result.now ≤ most_digits }
    {
        &self.bytes[self.from..]
    }

    // The digits with spaces in front, in a width.
    fn aligned(&self, width: usize) -> &[u8]
        requires { (length self.now ≤ width) × (width ≤ most_digits) }
        ensures value { result.now ≡ replicate (width - length self.now) 32 ++ self.now }
        ensures size { length result.now ≡ width }
    {
        &self.bytes[MOST_DIGITS - width..]
    }
}

// The digits of a number, stored from the last one on.
fn digits_of(x: u64) -> Digits
    ensures { result ≡ decimal x }
{
    let mut bytes = [b' '; MOST_DIGITS];
    let mut rest = x;
    for from in (0..MOST_DIGITS).rev() {
        bytes[from] = b'0' + (rest % 10) as u8;
        if rest < 10 {
            return Digits { bytes, from };
        }
        rest /= 10;
    }
    Digits { bytes, from: 0 }
}

// Writes a number in decimal at a position, and answers where it ends.
pub fn put_decimal(out: &mut [u8], at: usize, x: u64) -> usize
    requires { at + most_digits ≤ length out.old }
    ensures value { result ≡ at + length (decimal x) }
    ensures out_after { out.new ≡ splice out.old at (decimal x) }
{
    put_bytes(out, at, digits_of(x).text())
}

// Writes a number right-aligned in a width at a position.
pub fn put_aligned(out: &mut [u8], at: usize, width: usize, x: u64)
    requires { (1 ≤ width) × ((width ≤ most_digits) × ((x < 10 ^ width) × (at + width ≤ length out.old))) }
    ensures { out.new ≡ splice out.old at (aligned width x) }
{
    put_bytes(out, at, digits_of(x).aligned(width));
}
