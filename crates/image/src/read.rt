// An image read from a slice. Its parts are lent as slices of at least their size, as those of a checkpoint are.
ghost use Rattle.std.specs.Prelude.{◌≡◌, ◌+◌, ◌≤◌, length, drop};
ghost use Rattle.binary.specs.Codec.{byte, decode_rows};
ghost use Rattle.records.specs.Layout.{announcement_size};
ghost use Rattle.node.specs.WellFormed.{own_fields, own_of, counts_of, is_well_formed_vote, is_well_formed_own};
ghost use Rattle.image.specs.Layout.{image_size, own_at};
ghost use Rattle.image.specs.Image.{decode_image, is_image};

use crate::layout::{COUNTS_AT, FLAG_AT, IMAGE_SIZE, LIFE_AT, OWN_AT, VOTE_AT};
use binary::{is_zero_from, u32_at};
use checkpoint::layout::CHECKPOINT_SIZE;
use checkpoint::{current_state_in, cycle_in, is_current, standing_in};
use node::Node;
use records::layout::ANNOUNCEMENT_SIZE;
use records::read_announcement;
use state::Cycle;
use state::limits::SEAT_NUMBERS;
use state::seats::FREE;
use verdicts::{AttemptCounts, Own, are_in_range};

fn vote_at(b: &[u8], at: usize) -> [u8; ANNOUNCEMENT_SIZE]
    requires { at + announcement_size ≤ length b.now }
    ensures { result ≡ decode_rows byte announcement_size (drop at b.now) }
{
    let mut vote = [0; ANNOUNCEMENT_SIZE];
    vote.copy_from_slice(&b[at..at + ANNOUNCEMENT_SIZE]);
    vote
}

// The own part in an image's bytes, whatever they are.
fn own_in(b: &[u8]) -> Own
    requires { image_size ≤ length b.now }
    ensures { result ≡ own_of (own_fields.decode (drop own_at b.now)) }
{
    Own {
        seat: b[OWN_AT],
        life: u32_at(b, LIFE_AT),
        voted: b[FLAG_AT] == 1,
        vote: vote_at(b, VOTE_AT),
    }
}

// The counts in an image's bytes, whatever they are.
fn counts_in(b: &[u8]) -> AttemptCounts
    requires { image_size ≤ length b.now }
    ensures { result ≡ counts_of (own_fields.decode (drop own_at b.now)) }
{
    let misses = [
        b[COUNTS_AT],
        b[COUNTS_AT + 1],
        b[COUNTS_AT + 2],
        b[COUNTS_AT + 3],
    ];
    AttemptCounts { misses }
}

// Zero if there is none, else a well-formed announcement of this cycle.
#[tactic(auto, unfolding(node::specs::WellFormed::is_well_formed_vote, binary::specs::Number::is_zero_from))]
fn is_well_formed_vote(cycle: Cycle, voted: bool, vote: &[u8]) -> bool
    ensures { result ≡ is_well_formed_vote cycle voted vote.now }
{
    if voted {
        read_announcement(vote).is_some_and(|a| a.cycle == cycle)
    } else {
        is_zero_from(0, vote)
    }
}

// The tests of an own part against the state, both in an image's bytes.
fn is_well_formed_own(b: &[u8]) -> bool
    requires { length b.now ≡ image_size }
    ensures { result ≡ is_well_formed_own (decode_image b.now).state (decode_image b.now).own }
{
    let standing = standing_in(&b[0..CHECKPOINT_SIZE], b[OWN_AT]);
    let cycle = cycle_in(&b[0..CHECKPOINT_SIZE]);
    let voted = is_well_formed_vote(cycle, b[FLAG_AT] == 1, &b[VOTE_AT..COUNTS_AT]);
    let life = u32_at(b, LIFE_AT);
    (b[OWN_AT] < SEAT_NUMBERS) & ((standing != FREE) & ((1 <= life) & voted))
}

// The bytes are exactly one well-formed image. They are tested where they lie, so that a node is decoded once, and never for a refusal.
pub fn is_image(b: &[u8]) -> bool
    ensures { result ≡ is_image b.now }
{
    if b.len() != IMAGE_SIZE {
        return false;
    }
    if is_current(&b[0..CHECKPOINT_SIZE]) {
        let own = is_well_formed_own(b);
        let counts = counts_in(b);
        return (b[FLAG_AT] <= 1) & (own & are_in_range(counts));
    }
    false
}

// The node in an image's bytes, whatever they are.
pub fn node_in(b: &[u8]) -> Node
    requires { image_size ≤ length b.now }
    ensures { result ≡ decode_image b.now }
{
    Node {
        state: current_state_in(&b[0..CHECKPOINT_SIZE]),
        own: own_in(b),
        counts: counts_in(b),
    }
}
