// The part of the input that a buffer holds.
ghost use Rattle.std.specs.Prelude.{◌≡◌, ◌-◌, ◌≤◌, length, take, drop};
ghost use Rattle.binary.specs.Number.{overwrite};

// Moves the bytes from one index up to another to the front.
pub fn shift(buffer: &mut [u8], from: usize, to: usize)
    requires { (from ≤ to) × (to ≤ length buffer.old) }
    ensures { buffer.new ≡ overwrite (take (to - from) (drop from buffer.old)) buffer.old }
{
    buffer.copy_within(from..to, 0);
}
