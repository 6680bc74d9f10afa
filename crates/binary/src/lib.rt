// Little-endian numbers in slices, and the frame of a record.
#![tactic(auto)]

mod frame;

ghost use Rattle.std.specs.Prelude.{◌≡◌, ◌+◌, ◌*◌, ◌≤◌, ◌<◌, [], ◌∷◌, length};
ghost use Rattle.binary.specs.Number.{to_bytes, field, is_zero_from};
ghost use Rattle.binary.specs.Splice.{splice};

pub use frame::{is_framed, is_record};

// Two, four and eight bytes are read and written by the library's functions of each width. A trait over the widths would be longer than the six bodies.

// The little-endian number of two bytes at a position.
pub fn u16_at(s: &[u8], at: usize) -> u16
    requires { at + 2 ≤ length s.now }
    ensures { result ≡ field 2 at s.now }
{
    u16::from_le_bytes([s[at], s[at + 1]])
}

// The little-endian number of four bytes at a position.
pub fn u32_at(s: &[u8], at: usize) -> u32
    requires { at + 4 ≤ length s.now }
    ensures { result ≡ field 4 at s.now }
{
    u32::from_le_bytes([s[at], s[at + 1], s[at + 2], s[at + 3]])
}

// Writes a byte at a position.
pub fn put_u8(out: &mut [u8], at: usize, x: u8)
    requires { at + 1 ≤ length out.old }
    ensures { out.new ≡ splice out.old at (x ∷ []) }
{
    out[at] = x;
}

// Writes a number as two bytes at a position.
pub fn put_u16(out: &mut [u8], at: usize, x: u16)
    requires { at + 2 ≤ length out.old }
    ensures { out.new ≡ splice out.old at (to_bytes 2 x) }
{
    out[at..at + 2].copy_from_slice(&x.to_le_bytes());
}

// Writes a number as four bytes at a position.
pub fn put_u32(out: &mut [u8], at: usize, x: u32)
    requires { at + 4 ≤ length out.old }
    ensures { out.new ≡ splice out.old at (to_bytes 4 x) }
{
    out[at..at + 4].copy_from_slice(&x.to_le_bytes());
}

// Writes bytes at a position, and answers where they end.
pub fn put_bytes(out: &mut [u8], at: usize, bytes: &[u8]) -> usize
    requires { at + length bytes.now ≤ length out.old }
    ensures value { result ≡ at + length bytes.now }
    ensures out_after { out.new ≡ splice out.old at bytes.now }
{
    let end = at + bytes.len();
    out[at..end].copy_from_slice(bytes);
    end
}

// The little-endian number of eight bytes at a position.
pub fn u64_at(s: &[u8], at: usize) -> u64
    requires { at + 8 ≤ length s.now }
    ensures { result ≡ field 8 at s.now }
{
    u64::from_le_bytes([
        s[at],
        s[at + 1],
        s[at + 2],
        s[at + 3],
        s[at + 4],
        s[at + 5],
        s[at + 6],
        s[at + 7],
    ])
}

// Writes a number as eight bytes at a position.
pub fn put_u64(out: &mut [u8], at: usize, x: u64)
    requires { at + 8 ≤ length out.old }
    ensures { out.new ≡ splice out.old at (to_bytes 8 x) }
{
    out[at..at + 8].copy_from_slice(&x.to_le_bytes());
}

// Every byte from an index on is zero. The loop does not stop at the first other byte, so that the compiler tests many bytes at once (`all` would stop).
pub fn is_zero_from(at: usize, b: &[u8]) -> bool
    ensures { result ≡ is_zero_from at b.now }
{
    let mut zero = true;
    for i in at..b.len() {
        zero &= b[i] == 0;
    }
    zero
}
