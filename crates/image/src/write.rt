// An image written to a slice.
ghost use Rattle.std.specs.Prelude.{◌≡◌, ◌≤◌, length};
ghost use Rattle.binary.specs.Number.{overwrite};
ghost use Rattle.binary.specs.Splice.{splice};
ghost use Rattle.checkpoint.specs.Layout.{checkpoint_size};
ghost use Rattle.node.specs.WellFormed.{own_fields, fields_of};
ghost use Rattle.image.specs.Layout.{image_size, own_at};
ghost use Rattle.image.specs.Image.{with_own, image_bytes};

use crate::layout::{COUNTS_AT, FLAG_AT, LIFE_AT, OWN_AT, VOTE_AT};
use binary::{put_bytes, put_u8, put_u32};
use checkpoint::write_checkpoint;
use state::State;
use verdicts::{AttemptCounts, Own};

// The own part and the counts behind the checkpoint.
fn put_own(out: &mut [u8], own: Own, counts: AttemptCounts)
    requires { image_size ≤ length out.old }
    ensures { out.new ≡ splice out.old own_at (own_fields.encode (fields_of own counts)) }
{
    put_u8(out, OWN_AT, own.seat);
    put_u32(out, LIFE_AT, own.life);
    put_u8(out, FLAG_AT, u8::from(own.voted));
    put_bytes(out, VOTE_AT, &own.vote);
    put_bytes(out, COUNTS_AT, &counts.misses);
}

// Writes the checkpoint's bytes that are at hand to the front of a slice. Byte by byte, and no copy_from_slice: for these two slices the compiler makes it a call
// of memmove, and the archive calls no function of C beside memcpy and memset.
fn put_state(out: &mut [u8], state: &[u8])
    requires { length state.now ≤ length out.old }
    ensures { out.new ≡ splice out.old 0 state.now }
{
    for i in 0..state.len() {
        out[i] = state[i];
    }
}

// Writes an image to the front of a slice, the state as the checkpoint's bytes that are at hand.
pub fn put_image(state: &[u8], own: Own, counts: AttemptCounts, out: &mut [u8])
    requires { (length state.now ≡ checkpoint_size) × (image_size ≤ length out.old) }
    ensures { out.new ≡ overwrite (with_own state.now own counts) out.old }
{
    put_state(out, state);
    put_own(out, own, counts);
}

// Writes the image of a node of these parts to the front of a slice.
pub fn write_image(state: State, own: Own, counts: AttemptCounts, out: &mut [u8])
    requires { image_size ≤ length out.old }
    ensures { out.new ≡ overwrite (image_bytes (record { state = state; own = own; counts = counts })) out.old }
{
    write_checkpoint(state, out);
    put_own(out, own, counts);
}
