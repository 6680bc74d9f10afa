// The frame of a record: its length field and its kind.
ghost use Rattle.std.specs.Prelude.{◌≡◌, ◌≤◌};
ghost use Rattle.binary.specs.Number.{is_framed, is_record};

use crate::u16_at;

// The bytes are one record with this length field.
pub fn is_framed(b: &[u8], n: u16) -> bool
    ensures { result ≡ is_framed n b.now }
{
    b.len() == usize::from(n) + 2 && u16_at(b, 0) == n
}

// The bytes are one record with this length field and of this kind.
pub fn is_record(b: &[u8], n: u16, kind: u16) -> bool
    requires { 2 ≤ n }
    ensures { result ≡ is_record n kind b.now }
{
    is_framed(b, n) && u16_at(b, 2) == kind
}
