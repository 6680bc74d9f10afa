// Rows: the 32 bytes of a share, or of the key, in the slice that is handed out, so that no copy of them is left on the stack. It is
// a part of a longer slice: as an array it would first be an Option. Each step goes through a row byte by byte, so that no byte waits for the one
// before it.
ghost use Rattle.std.specs.Prelude.{◌≡◌, ◌*◌, ◌≤◌, ◌<◌, length};
ghost use Rattle.binary.specs.Number.{byte_at};
ghost use Rattle.gf256.specs.Field.{add, mul as mul_of};
ghost use Rattle.shares.specs.Shares.{key_size, tabulate};

use gf256::{Factor, sum};

// A step of Horner's rule: the row times x, plus the bytes of a source, which lie a stride apart.
#[tactic(auto, using(crate::proofs::Tabulated::tabulated))]
pub fn step_row(row: &mut [u8], x: u8, source: &[u8], stride: usize)
    requires row_len { length row.old ≡ key_size }
    requires source_long { stride * 31 < length source.now }
    ensures { row.new ≡ tabulate key_size (λ b. add (byte_at (stride * b) source.now) (mul_of x (byte_at b row.old))) }
{
    let x = Factor::new(x);
    for (b, byte) in row.iter_mut().enumerate() {
        let product = x.times(*byte);
        *byte = sum(source[stride * b], product);
    }
}

// Adds a share times its weight to the row.
#[tactic(auto, using(crate::proofs::Tabulated::tabulated))]
pub fn add_row(row: &mut [u8], weight: u8, share: &[u8])
    requires row_len { length row.old ≡ key_size }
    requires share_long { key_size ≤ length share.now }
    ensures { row.new ≡ tabulate key_size (λ b. add (byte_at b row.old) (mul_of weight (byte_at b share.now))) }
{
    let weight = Factor::new(weight);
    for (b, byte) in row.iter_mut().enumerate() {
        let product = weight.times(share[b]);
        *byte = sum(*byte, product);
    }
}
