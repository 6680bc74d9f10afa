// The own part of a node, its counts of misses, and the lowest refusal of the table of no for each call.
#![tactic(auto)]

mod attempts;
mod calls;
mod own_part;

pub use attempts::{are_in_range, misses_at, no_misses, with_misses};
pub use calls::{deliver_refusal, query_refusal, shows_quorum, start_refusal, vote_refusal};
pub use own_part::{own_afresh, with_vote};
use records::layout::{ANNOUNCEMENT_SIZE, DOORS};

pub const MOST_MISSES: u8 = 10;

// What is a node's alone (01: its own part), but for the misses, which stand by themselves so that they can be lent to a query.
#[derive(Clone, Copy)]
pub struct Own {
    pub seat: u8,
    pub life: u32,
    // Whether it voted in this cycle, and the 24 bytes of the announcement that it voted for, zero where it did not. A flag and bytes, and no Option:
    // Node::deliver and Node::query promise their answer at a node of any flag and bytes, and hand both back.
    pub voted: bool,
    pub vote: [u8; ANNOUNCEMENT_SIZE],
}

// The bad queries in a row at each door, 0 to 10 (02: the tally of doors).
#[derive(Clone, Copy)]
pub struct AttemptCounts {
    pub misses: [u8; DOORS],
}
